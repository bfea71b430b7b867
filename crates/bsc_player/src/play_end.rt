//! How a play ends.

/// How a play of lines ended.
#[derive(Clone, Copy, Debug, PartialEq, Eq)]
pub enum PlayEnd {
    /// The input was read to its end, and each of its lines was accepted.
    Done,
    /// This line, counted from 1, is the first that is refused.
    BadLine { line: u64 },
    /// A read failed.
    ReadFault,
    /// A write failed.
    WriteFault,
    /// Memory ran out.
    NoMemory,
}
