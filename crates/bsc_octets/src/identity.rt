//! Who connects, as the payload of a Connect-Request or Connect-Accept says it.
//!
//! | octets | field |
//! |---|---|
//! | 0 to 5 | VMAC |
//! | 6 to 21 | Device UUID |
//! | 22, 23 | maximum BVLC length, the high octet first |
//! | 24, 25 | maximum NPDU length, the high octet first |
#![tactic(auto)]

ghost use Rattle.std.specs.Prelude.{◌≡◌, ◌≤◌, length, take};
ghost use Rattle.bsc_octets.specs.Identities.{identity_octets, identity_of};

use crate::device_id::DeviceId;
use crate::vmac::Vmac;
use byteorder::{BigEndian, ByteOrder};
use uuid::Uuid;

/// Who connects: its address, its device, and the longest message and NPDU that it accepts, in octets.
#[derive(Clone, Copy, Debug, PartialEq, Eq)]
pub struct Identity {
    /// The VMAC.
    pub vmac: Vmac,
    /// The Device UUID.
    pub device: DeviceId,
    /// The Maximum BVLC Length.
    pub max_bvlc: u16,
    /// The Maximum NPDU Length.
    pub max_npdu: u16,
}

impl Identity {
    /// The 26 octets of the identity.
    pub fn octets(&self) -> [u8; 26]
        ensures spelled { result ≡ identity_octets self.now }
        // They say this identity.
        ensures read_back { identity_of result ≡ self.now }
    {
        let mut out = [0u8; 26];
        write_identity(&mut out, self);
        out
    }
}

fn write_identity(out: &mut [u8], who: &Identity)
    requires { length out.old ≡ 26 }
    ensures spelled { out.new ≡ identity_octets who.now }
    ensures read_back { identity_of out.new ≡ who.now }
{
    let (vmac, rest) = out.split_at_mut(6);
    let (device, rest) = rest.split_at_mut(16);
    let (bvlc, npdu) = rest.split_at_mut(2);
    vmac.copy_from_slice(&who.vmac.0);
    device.copy_from_slice(who.device.0.as_bytes());
    BigEndian::write_u16(bvlc, who.max_bvlc);
    BigEndian::write_u16(npdu, who.max_npdu);
}

fn six(b: &[u8]) -> [u8; 6]
    requires { 6 ≤ length b.now }
    ensures { result ≡ take 6 b.now }
{
    let mut out = [0u8; 6];
    out.copy_from_slice(&b[..6]);
    out
}

fn sixteen(b: &[u8]) -> [u8; 16]
    requires { 16 ≤ length b.now }
    ensures { result ≡ take 16 b.now }
{
    let mut out = [0u8; 16];
    out.copy_from_slice(&b[..16]);
    out
}

/// The identity that 26 octets say.
pub fn read_identity(b: &[u8]) -> Identity
    requires { length b.now ≡ 26 }
    ensures read { result ≡ identity_of b.now }
    // No other octets say this identity.
    ensures spelled { identity_octets result ≡ b.now }
{
    Identity {
        vmac: Vmac(six(b)),
        device: DeviceId(Uuid::from_bytes(sixteen(&b[6..]))),
        max_bvlc: BigEndian::read_u16(&b[22..]),
        max_npdu: BigEndian::read_u16(&b[24..]),
    }
}
