//! Who connects in a storm, and what is forwarded.
ghost use Rattle.std.specs.Prelude.{◌≡◌};
ghost use Rattle.bsc_load.specs.Storm.Peers.{device_at, storm_frame, storm_sender, taken_over};

use bsc_octets::{DeviceId, Identity, Vmac};
use byteorder::{BigEndian, ByteOrder};
use uuid::Uuid;

/// The device whose UUID is sixteen times one octet, at the address 02 00 00 00 00 and a last octet.
fn device_at(last: u8, octet: u8) -> Identity
    ensures { result ≡ device_at last octet }
{
    Identity {
        vmac: Vmac([2, 0, 0, 0, 0, last]),
        device: DeviceId(Uuid::from_bytes([octet; 16])),
        max_bvlc: 0x0640,
        max_npdu: 0x05D9,
    }
}

/// Who is taken over.
pub(crate) fn taken_over() -> Identity
    ensures { result ≡ taken_over }
{
    device_at(0x0A, 0xAA)
}

/// Who forwards.
pub(crate) fn storm_sender() -> Identity
    ensures { result ≡ storm_sender }
{
    device_at(0x0B, 0xBB)
}

/// Forward `id`: twelve octets.
pub(crate) fn storm_frame(id: u16) -> [u8; 12]
    ensures { result ≡ storm_frame id }
{
    let mut octets = [1, 4, 0, 0, 2, 0, 0, 0, 0, 0x0A, 1, 0];
    let (_function, rest) = octets.split_at_mut(2);
    let (number, _others) = rest.split_at_mut(2);
    BigEndian::write_u16(number, id);
    octets
}
