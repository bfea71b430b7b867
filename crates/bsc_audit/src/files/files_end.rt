//! What an audit of files comes to.

/// What an audit of journals in files comes to. Of several faults the first in this order is told; of `BadLine` and `Unsorted` the
/// one that comes first. Files are counted from 0, and the lines of each from 1.
#[derive(Clone, Copy, Debug, PartialEq, Eq)]
pub enum FilesEnd {
    /// The lines of all files, so many, are one hub line and the entries of one legal history, so many.
    Legal { entries: u64, files: usize },
    /// This line of this file is the first that is no hub line, no entry and nothing denied, or is too long.
    BadLine { file: usize, line: u64 },
    /// This line of this file is the first of an entry whose place is less than one before it in this file.
    Unsorted { file: usize, line: u64 },
    /// There are so many hub lines, and not one.
    Hubs { lines: u64 },
    /// There are more entries than an audit takes, which is 2^31.
    TooMany,
    /// This is the least place that stands more than once.
    Twice { place: u64 },
    /// This is the least place that doesn't stand, below the greatest that does.
    Missing { place: u64 },
    /// The entries up to the one at this place, and no fewer, are no legal history.
    Illegal { place: u64 },
    /// A read of this file failed.
    ReadFault { file: usize },
    /// This file changed while it was read.
    Changed { file: usize },
    /// Memory ran out.
    NoMemory,
}
