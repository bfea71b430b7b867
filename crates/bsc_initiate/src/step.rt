//! What a machine does.
use arrayvec::ArrayVec;
use bsc_accept::Closing;
use bsc_octets::Identity;

/// What a machine does at an event. What an accepting machine does too has the name that it has there. After a `Close`,
/// a `PutClose` or a `Refused` it is told nothing more.
#[derive(Debug, Drop, PartialEq, Eq)]
pub enum InitStep {
    /// These octets are put.
    Put(ArrayVec<u8, 32>),
    /// These octets are put, and then the WebSocket is closed so.
    PutClose(ArrayVec<u8, 32>, Closing),
    /// The peer has accepted: this is who it is.
    Connected(Identity),
    /// The peer has refused the Connect-Request, with this error code.
    Refused { code: u16 },
    /// The message is for the layer above.
    Up,
    /// The WebSocket is closed so.
    Close(Closing),
    /// Nothing is done.
    Nothing,
}
