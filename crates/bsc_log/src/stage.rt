//! How far a link is.

/// How far a link is, by the calls on it.
#[derive(Clone, Copy, Debug, PartialEq, Eq)]
pub(crate) enum Stage {
    /// No call was made.
    Silent,
    /// It has a session, and hasn't joined.
    Waiting,
    /// The same, and the newest thing on it is a Connect-Request that came.
    Asked,
    /// It has joined, with the call before.
    Introduced,
    /// It has joined.
    Joined,
    /// The hub asked the peer to leave.
    Leaving,
    /// It has ended.
    Over,
}
