//! Numbered peers.
ghost use Rattle.std.specs.Prelude.{◌≡◌, ◌+◌, ◌*◌, ◌<◌, ◌∷◌, ◌++◌, length, replicate};
ghost use Rattle.byteorder.specs.Endian.{big_bytes};
ghost use Rattle.bsc_load.specs.Peers.{address, device, peer, receiver, sender};

use crate::bounds::WORKERS;
use bsc_octets::{DeviceId, Identity, Vmac};
use byteorder::{BigEndian, ByteOrder};
use uuid::Uuid;

/// The octets 02 00 00 01 and the two of `n`.
fn address(n: u16) -> Vmac
    ensures { result ≡ address n }
{
    let mut octets = [2, 0, 0, 1, 0, 0];
    let (_head, number) = octets.split_at_mut(4);
    BigEndian::write_u16(number, n);
    Vmac(octets)
}

/// Twelve octets 00 and the four of `n`.
fn device(n: u32) -> DeviceId
    ensures { result ≡ device n }
{
    let mut octets = [0u8; 16];
    let (_head, number) = octets.split_at_mut(12);
    BigEndian::write_u32(number, n);
    DeviceId(Uuid::from_bytes(octets))
}

/// Peer `n`.
pub(crate) fn peer(n: u16) -> Identity
    ensures { result ≡ peer n }
{
    Identity {
        vmac: address(n),
        device: device(u32::from(n)),
        max_bvlc: 0x0640,
        max_npdu: 0x05D9,
    }
}

/// Who sends for worker `i`.
pub(crate) fn sender(i: u16) -> Identity
    requires { i < WORKERS }
    ensures { result ≡ sender i }
{
    peer(2 * i + 1)
}

/// Who receives for worker `i`.
pub(crate) fn receiver(i: u16) -> Identity
    requires { i < WORKERS }
    ensures { result ≡ receiver i }
{
    peer(2 * i + 2)
}
