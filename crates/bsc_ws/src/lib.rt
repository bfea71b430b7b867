//! Links over WebSocket, and nothing else: a crate over the kit's `tungstenite` is dear to check.
//!
//! Start at `stream_link`: a `StreamLink` is a link over any stream that reads and writes. `accepting` has the server's
//! handshake, whole or in rounds, `dialling` the client's, and `dialer` what makes links from URIs. What `receive`
//! answers is said by the octets that the stream gave, however they were cut: see `specs/Receiving.antt`.
#![tactic(auto)]

mod accepting;
mod bounds;
mod dialer;
mod dialling;
mod failure;
mod handshake;
mod head;
mod kinds;
mod opener;
mod protocol;
mod rounds;
mod stream_link;
mod target;

pub use accepting::{accept, begin, settle};
pub use bounds::{GREATEST_MESSAGE, limits};
pub use dialer::StreamDialer;
pub use dialling::dial;
pub use handshake::{Handshake, HandshakeStep, Unmet};
pub use head::Head;
pub use opener::Opener;
pub use stream_link::StreamLink;
pub use tungstenite::{MaskKeys, NoMask, RandomKeys};
