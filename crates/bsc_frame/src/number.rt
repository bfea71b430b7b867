//! Numbers of two octets, the high octet first.
ghost use Rattle.std.specs.Prelude.{◌≡◌, ◌++◌, OnOk};
ghost use Rattle.byteorder.specs.Endian.{big_bytes};

use bsc_octets::NoMemory;
use byteorder::{BigEndian, ByteOrder};

/// Puts the two octets of a number at the end.
pub(crate) fn put_number(out: &mut Vec<u8>, number: u16) -> Result<(), NoMemory>
    ensures { OnOk result (out.new.items ≡ out.old.items ++ big_bytes 2 number) }
{
    let mut octets = [0u8; 2];
    BigEndian::write_u16(&mut octets, number);
    out.extend_from_slice(&octets)?;
    Ok(())
}
