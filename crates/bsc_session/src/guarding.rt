//! What a policy denies of a frame. What it denies of a device and of a message `bsc_port` says.
ghost use Rattle.std.specs.Prelude.{◌≡◌, Some};
ghost use Rattle.bsc_session.specs.Guarding.{denied_frame, origin};

use bsc_lines::Denial;
use bsc_octets::{Vmac, read_envelope};
use bsc_policy::Policy;
use bsc_port::denied_pair;

/// The origin of a frame.
fn origin(frame: &[u8]) -> Vmac
    ensures { result ≡ origin frame.now }
{
    match read_envelope(frame) {
        Ok(envelope) => match envelope.origin {
            Some(from) => from,
            None => Vmac::ZERO,
        },
        Err(_) => Vmac::ZERO,
    }
}

/// What is denied of a frame to the connection that has this address. No memory is taken.
pub fn denied_frame(policy: &Policy, to: Vmac, frame: &[u8]) -> Option<Denial>
    ensures { result ≡ denied_frame policy.now (Some to) frame.now }
{
    denied_pair(policy, origin(frame), to)
}
