//! What may be left in an outbox when a turn receives.

/// Whether the outbox may have more for the link when a turn receives.
#[derive(Clone, Copy, Debug, PartialEq, Eq)]
pub enum Backlog {
    /// It was found empty, its End was met, or it wasn't looked at.
    Nothing,
    /// As many frames were taken as a turn takes, and nobody looked whether there are more.
    MaybeMore,
}
