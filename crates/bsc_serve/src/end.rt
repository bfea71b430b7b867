//! How serving ends.
use bsc_history::Counts;

/// How serving ends.
#[derive(Clone, Copy, Debug, PartialEq, Eq)]
pub enum ServeEnd {
    /// All links arrived, all sessions ended, and the hub was stopped: these are the counts of its stop, and so many
    /// links got no session.
    Done {
        counts: Counts,
        unstarted: u64,
    },
    /// The same, but the hub had been stopped before, by the entry at this place, counted from 0.
    StoppedBefore {
        at: u64,
        unstarted: u64,
    },
    /// The stop was asked for. No link was taken since, the hub was stopped, and then its sessions were awaited: these are the
    /// counts of its stop, None where it had been stopped before, and so many links got no session.
    Requested {
        counts: Option<Counts>,
        unstarted: u64,
    },
    /// The acceptor failed.
    AcceptFault,
    /// A session's journal couldn't be begun, or the line of the Stop couldn't be put into the hub's own. It goes before
    /// all else.
    JournalFault,
    /// There was no memory.
    NoMemory,
}
