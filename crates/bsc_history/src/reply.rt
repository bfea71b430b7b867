//! The replies of a hub.
use crate::conns::Conns;
use crate::counts::Counts;
use crate::ending::End;

/// Why a connect was refused.
#[derive(Clone, Copy, Debug, PartialEq, Eq)]
pub enum Refusal {
    /// The hub has stopped.
    Stopped,
    /// The VMAC is the hub's own (no holder), or is held by a connection of another device.
    Duplicate { holder: Option<u64> },
    /// As many connections haven't left as the hub has rows.
    TableFull { rows: u64 },
}

/// The reply to a call.
#[derive(Debug, Drop)]
pub enum Reply {
    /// The connect joined as `conn`, in place of the live connection of its device where there was one.
    Joined {
        conn: u64,
        replaced: Option<u64>,
    },
    /// The connect was refused.
    Refused(Refusal),
    /// The unicast joined the outbox of `conn`.
    Appended {
        conn: u64,
    },
    /// The outbox of `conn` was found full, and `conn` ended.
    Closed {
        conn: u64,
    },
    /// The forwarded octets are longer than `conn` takes.
    Skipped {
        conn: u64,
    },
    /// No live connection holds the Destination.
    NoHolder,
    /// The broadcast joined the outboxes of `to`. Those of `missed` were found full and didn't get it,
    /// and its forwarded octets are longer than those of `skipped` take.
    SentAll {
        to: Conns,
        missed: Conns,
        skipped: Conns,
    },
    /// The sender has ended.
    NotCurrent {
        ending: End,
    },
    /// The hub has stopped.
    Stopped,
    /// The connection has left: its End, and how many frames were taken.
    Gone {
        ending: End,
        taken: u64,
    },
    /// The counts of the history before.
    Counted(Counts),
}
