//! What a link is told beside what is said on it, and when.

/// One thing that a link is told: whose connection it is, or whom to wake; or that it was asked for the next thing, so that it is
/// seen between which receives it was told the others.
#[derive(Clone, Copy, Debug, PartialEq, Eq)]
pub enum Notice {
    /// The link was asked for the next thing, whatever it gave.
    Asked,
    /// The link is this connection's from now on.
    Known(u64),
    /// Something is new for this connection.
    Woke(u64),
}
