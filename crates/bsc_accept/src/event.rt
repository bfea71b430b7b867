//! What is told to a machine.
use bsc_checks::Verdict;
use bsc_history::{End, Refusal};

/// What is told to a machine: one variant for each of its calls, with the arguments. Times are in milliseconds.
#[derive(Debug, Drop)]
pub enum Event {
    /// A message came, and was judged so.
    Message { now: u64, verdict: Verdict },
    /// Who asked has joined.
    Joined,
    /// Who asked was refused.
    Refused(Refusal),
    /// The connection has ended, and its outbox is empty.
    Ended { now: u64, ending: End },
    /// The connection is to end, by a Disconnect-Request with this Message ID.
    Finish { now: u64, id: u16 },
    /// Time has passed.
    Tick { now: u64 },
}
