//! What a port does with its link.
ghost use Rattle.std.specs.Prelude.{◌≡◌};
ghost use Rattle.bsc_port.specs.Actions.{output_of};

use arrayvec::ArrayVec;
use bsc_accept::{Closing, Step};

/// What a port does with its link. After a `Close` or a `SendClose` the port is told nothing more.
#[derive(Debug, Drop, PartialEq, Eq)]
pub enum Output {
    /// Do nothing.
    Nothing,
    /// Send these octets as one message.
    Send(ArrayVec<u8, 32>),
    /// Send these octets as one message, and then close the link with this code and reason.
    SendClose(ArrayVec<u8, 32>, Closing),
    /// Close the link with this code and reason.
    Close(Closing),
}

/// What a step of the machine does with the link.
pub(crate) fn output_of(step: Step) -> Output
    ensures { result ≡ output_of step }
{
    match step {
        Step::Put(octets) => Output::Send(octets),
        Step::PutClose(octets, closing) => Output::SendClose(octets, closing),
        Step::Close(closing) => Output::Close(closing),
        Step::Ask(_) | Step::Up | Step::Nothing => Output::Nothing,
    }
}
