//! A server's handshake that can be left and gone on with.
use crate::rounds::Rounds;
use bsc_edge::Kind;
use std::io::{Read, Write};

/// A server's handshake that isn't done.
#[derive(Drop)]
pub struct Handshake<T: Read + Write + Drop> {
    pub(crate) rounds: Rounds<T>,
}

/// Why a handshake failed.
#[derive(Clone, Copy, Debug, PartialEq, Eq)]
pub enum Unmet {
    /// The request doesn't offer our sub-protocol.
    NoProtocol,
    /// The head has more octets than are taken.
    LongHead,
    /// What came is no request for a WebSocket, or the stream ended.
    Other,
}

/// What going on with a handshake comes to.
#[derive(Drop)]
pub enum HandshakeStep<T: Read + Write + Drop> {
    /// The stream would block.
    More(Handshake<T>),
    /// It is done: this is its stream, and a link of this kind was asked for and is taken.
    Done(T, Kind),
    /// It failed.
    Refused(Unmet),
    /// There was no memory.
    NoMemory,
}
