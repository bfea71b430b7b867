//! The acceptor and the opener of links over sockets.
//!
//! Start at `gate`: a `HandshakeAcceptor` takes streams, makes all their handshakes in one `poll` with its listener, and hands out
//! links that are done, so that no peer makes it wait. `SocketOpener` opens the streams that a `StreamDialer` dials over.
#![tactic(auto)]

mod done;
mod handshake_acceptor;
mod handshakes;
mod listening;
mod oldest;
mod opening;
mod socket_link;
mod turned;

pub use handshake_acceptor::HandshakeAcceptor;
pub use opening::SocketOpener;
pub use socket_link::{HANDSHAKE_MS, SocketLink, WRITE_MS};
pub use turned::{Turned, Turning};
