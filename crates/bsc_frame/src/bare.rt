//! The functions that have no payload.
ghost use Rattle.bsc_frame.specs.Payloads.{function_of};
ghost use Rattle.bsc_frame.specs.Walk.{BodyAnswers, IsBare};

use crate::body::Body;
use crate::check::Check;
use crate::fault::FrameFault;

/// The body of a function that has no payload, where the payload is empty.
pub(crate) fn read_bare(p: &[u8], body: Body) -> Result<Body, FrameFault>
    requires { IsBare body }
    ensures { BodyAnswers (function_of body) p.now result }
{
    if !p.is_empty() {
        return Err(FrameFault::Fails(Check::C10c));
    }
    Ok(body)
}
