//! What ends serving before its time.

/// What ends serving before its time.
#[derive(Clone, Copy, Debug, PartialEq, Eq)]
pub(crate) enum Halt {
    /// The acceptor failed.
    AcceptFault,
    /// A journal couldn't be begun.
    JournalFault,
    /// There was no memory.
    NoMemory,
}
