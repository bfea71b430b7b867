//! What becomes of a message.
use arrayvec::ArrayVec;
use bsc_frame::{Check, Message};
use bsc_octets::Envelope;

/// What becomes of a message that came.
#[derive(Debug, Drop)]
pub enum Verdict {
    /// No check fails: the message is for the receiver itself.
    Pass(Message),
    /// No check fails of the head, and the hub carries the message on as it is.
    Carry(Envelope),
    /// This check fails, and nothing is answered.
    Silent(Check),
    /// This check fails, and these octets answer: a BVLC-Result, 11 octets, or 17 where it has a Destination.
    Nak(Check, ArrayVec<u8, 24>),
}
