//! What an audit comes to.

/// What an audit of journals comes to. Of several faults the first in this order is told.
#[derive(Clone, Copy, Debug, PartialEq, Eq)]
pub enum AuditEnd {
    /// The lines are one hub line and the entries of one legal history, so many.
    Legal { entries: u64 },
    /// This line, counted from 1, is the first that is no hub line, no entry and nothing denied, or is too
    /// long, or goes past the most octets.
    BadLine { line: u64 },
    /// There are so many hub lines, and not one.
    Hubs { lines: u64 },
    /// This is the least place that stands more than once.
    Twice { place: u64 },
    /// This is the least place that doesn't stand, below the greatest that does.
    Missing { place: u64 },
    /// The entries up to the one at this place, and no fewer, are no legal history.
    Illegal { place: u64 },
    /// A read failed.
    ReadFault,
    /// Memory ran out.
    NoMemory,
}
