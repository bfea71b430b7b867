//! Octets and numbers at the end of a message that is being written.
ghost use Rattle.std.specs.Prelude.{◌≡◌, ◌+◌, ◌≤◌, ◌++◌, length};
ghost use Rattle.arrayvec.specs.ArrayVec.{array_vec_len};
ghost use Rattle.byteorder.specs.Endian.{big_bytes};

use arrayvec::ArrayVec;
use byteorder::{BigEndian, ByteOrder};

/// Puts octets at the end, where there is room for them.
pub fn put<const N: usize>(out: &mut ArrayVec<u8, N>, octets: &[u8])
    requires { array_vec_len out.old + length octets.now ≤ N }
    ensures items { out.new.items ≡ out.old.items ++ octets.now }
    ensures len { array_vec_len out.new ≡ array_vec_len out.old + length octets.now }
{
    let _ = out.try_extend_from_slice(octets);
}

/// Puts the two octets of a number at the end, the high octet first.
pub fn put_number<const N: usize>(out: &mut ArrayVec<u8, N>, number: u16)
    requires { array_vec_len out.old + 2 ≤ N }
    ensures items { out.new.items ≡ out.old.items ++ big_bytes 2 number }
    ensures len { array_vec_len out.new ≡ array_vec_len out.old + 2 }
{
    let mut octets = [0u8; 2];
    BigEndian::write_u16(&mut octets, number);
    put(out, &octets);
}
