//! What is told to a machine.
use bsc_checks::Verdict;

/// What is told to a machine: one variant for each of its calls, with the arguments. Times are in milliseconds.
#[derive(Debug, Drop)]
pub enum InitEvent {
    /// The WebSocket has opened: a Connect-Request with this Message ID is to go out.
    Opened { now: u64, id: u16 },
    /// A message came, and was judged so.
    Message { now: u64, verdict: Verdict },
    /// The connection is to end, by a Disconnect-Request with this Message ID.
    Finish { now: u64, id: u16 },
    /// Time has passed. A Heartbeat-Request, where one is put, has this Message ID.
    Tick { now: u64, id: u16 },
}
