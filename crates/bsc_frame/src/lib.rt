//! Whole BVLC-SC messages, from octets to a message and back.
//!
//! Start at `message` and `body` (what a message is), then `reading` and `writing`. Each kind of payload has
//! its reader beside its writer in a file of its own. The octets of a message are defined once, as `spelling`
//! in `specs/Spelling.antt`, and what reads them and what writes them are both held to that. The checks that
//! octets of no message fail are defined in `specs/Checks.antt`, each by itself. `read_ends` and `payload_fault` make those
//! of the header options and of the payload for a caller that only judges a message. This crate stands on `bsc_octets`
//! and `bsc_options`, and on `byteorder` for numbers.
#![tactic(auto)]

mod advert;
mod answer;
mod bare;
mod body;
mod check;
mod connect;
mod fault;
mod head;
mod laws;
mod lists;
mod message;
mod npdu;
mod number;
mod owned;
mod payload;
mod payload_checks;
mod proprietary;
mod reading;
mod text;
mod uris;
mod writing;

pub use advert::Advert;
pub use answer::{Answer, NAK_PART};
pub use body::Body;
pub use check::Check;
pub use fault::FrameFault;
pub use laws::{one_check, one_spelling};
pub use lists::{Ends, read_ends};
pub use message::Message;
pub use payload_checks::payload_fault;
pub use reading::read;
pub use writing::write;
