//! A server's handshake, as the kit goes on with it.
use crate::head::Head;
use crate::kinds::{OfDirect, OfHub};
use crate::protocol::Takes;
use std::io::{Read, Write};
use tungstenite::handshake::MidHandshake;
use tungstenite::handshake::server::ServerHandshake;

/// A handshake with a peer that is to take links of the kind `P`.
pub(crate) type Mid<T, P> = MidHandshake<ServerHandshake<Head<T>, Takes<P>>>;

/// A server's handshake that isn't done. Its type says the kind of links that it takes, so that no round can take another.
#[derive(Drop)]
pub(crate) enum Rounds<T: Read + Write + Drop> {
    Hub(Mid<T, OfHub>),
    Direct(Mid<T, OfDirect>),
}
