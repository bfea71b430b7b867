//! What a machine does.
use crate::closing::Closing;
use arrayvec::ArrayVec;
use bsc_octets::Identity;

/// What a machine does at an event. After a `Close` or a `PutClose` it is told nothing more.
#[derive(Debug, Drop, PartialEq, Eq)]
pub enum Step {
    /// This peer asks to be accepted. The next call is `joined` or `refused`, or the connection is closed.
    Ask(Identity),
    /// These octets are put.
    Put(ArrayVec<u8, 32>),
    /// These octets are put, and then the WebSocket is closed so.
    PutClose(ArrayVec<u8, 32>, Closing),
    /// The message is for the layer above: a hub forwards it.
    Up,
    /// The WebSocket is closed so.
    Close(Closing),
    /// Nothing is done.
    Nothing,
}
