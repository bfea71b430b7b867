//! The talk of a link, call by call.
use crate::fault::LinkFault;
use crate::incoming::Incoming;
use bsc_octets::Octets;

/// One call on a link, with its answer.
#[derive(Debug, Drop)]
pub enum Said {
    /// How long a receive was asked to wait, in milliseconds, and what it was given, a fault included.
    Gave(u32, Result<Incoming, LinkFault>),
    /// The octets of a put, and its fault where it failed.
    Put(Octets, Option<LinkFault>),
    /// The code and the reason of a closing, whatever the call answered.
    Closed(u16, Octets),
}
