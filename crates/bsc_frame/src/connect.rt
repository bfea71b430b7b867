//! Who connects: Connect-Requests and Connect-Accepts.
//!
//! | octets | field |
//! |---|---|
//! | 6 | VMAC, neither the reserved one nor the broadcast |
//! | 16 | Device UUID |
//! | 2 | maximum BVLC length, the high octet first |
//! | 2 | maximum NPDU length, the high octet first |
ghost use Rattle.std.specs.Prelude.{◌≡◌, ◌++◌, ◌⊎◌, OnOk};
ghost use Rattle.bsc_octets.specs.Identities.{identity_octets};
ghost use Rattle.bsc_frame.specs.Walk.{BodyAnswers, IdentityAnswers};

use crate::body::Body;
use crate::check::Check;
use crate::fault::FrameFault;
use bsc_octets::{Identity, NoMemory, Vmac, read_identity};

/// How many octets an identity has.
pub(crate) const FIXED_PART: usize = 26;

/// Who connects, as a payload says it.
fn read_node(p: &[u8]) -> Result<Identity, Check>
    ensures { IdentityAnswers p.now result }
{
    if p.is_empty() {
        return Err(Check::C10);
    }
    if p.len() < FIXED_PART {
        return Err(Check::C10b);
    }
    if p.len() > FIXED_PART {
        return Err(Check::C10c);
    }
    let who = read_identity(p);
    if who.vmac == Vmac::ZERO {
        return Err(Check::C11);
    }
    if who.vmac == Vmac::BROADCAST {
        return Err(Check::C11);
    }
    Ok(who)
}

/// The Connect-Request that a payload says.
pub(crate) fn read_request(p: &[u8]) -> Result<Body, FrameFault>
    ensures { BodyAnswers 0x06 p.now result }
{
    Ok(Body::ConnectRequest(read_node(p)?))
}

/// The Connect-Accept that a payload says.
pub(crate) fn read_accept(p: &[u8]) -> Result<Body, FrameFault>
    ensures { BodyAnswers 0x07 p.now result }
{
    Ok(Body::ConnectAccept(read_node(p)?))
}

/// Puts the payload of a Connect-Request or of a Connect-Accept at the end.
pub(crate) fn put_identity(out: &mut Vec<u8>, who: &Identity) -> Result<(), NoMemory>
    ensures { OnOk result (out.new.items ≡ out.old.items ++ identity_octets who.now) }
{
    out.extend_from_slice(&who.octets())?;
    Ok(())
}
