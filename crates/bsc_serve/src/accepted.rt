//! What ends taking links.
use crate::halt::Halt;

/// What ends taking links.
#[derive(Clone, Copy, Debug, PartialEq, Eq)]
pub(crate) enum Accepted {
    /// All have come that are awaited, and so many have no session.
    All(u64),
    /// The stop was asked for, and so many of those that came have no session.
    Asked(u64),
    /// It ended before its time.
    Halted(Halt),
}
