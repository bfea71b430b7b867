//! What errors of a socket come to.
ghost use Rattle.bsc_ws.specs.Receiving.{AnswersError};
ghost use Rattle.bsc_ws.specs.Sending.{FaultOf};

use bsc_edge::{Incoming, LinkFault};
use std::io::ErrorKind;
use tungstenite::Error;

/// What `receive` answers where the socket's read failed by this.
pub(crate) fn failure(error: Error) -> Result<Incoming, LinkFault>
    ensures { AnswersError error result }
{
    match error {
        Error::ConnectionClosed => Ok(Incoming::Closed),
        Error::OutOfMemory => Err(LinkFault::NoMemory),
        Error::Io(cause) => {
            if cause.kind() == ErrorKind::WouldBlock {
                Ok(Incoming::Quiet)
            } else {
                Err(LinkFault::Failed)
            }
        }
        _ => Err(LinkFault::Failed),
    }
}

/// What a handshake, a put or a closing answers where it failed by this.
pub(crate) fn fault_of(error: Error) -> LinkFault
    ensures { FaultOf error result }
{
    match error {
        Error::OutOfMemory => LinkFault::NoMemory,
        _ => LinkFault::Failed,
    }
}
