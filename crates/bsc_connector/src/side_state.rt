//! What a connector keeps of a side.

/// How a side stands.
#[derive(Clone, Copy, Debug, PartialEq, Eq)]
pub(crate) enum Attempt {
    /// It isn't tried.
    Idle,
    /// An attempt is under way.
    UnderWay,
    /// Its hub accepted.
    Up,
    /// The next attempt is due at this time, in milliseconds.
    Waiting { due: u64 },
}

/// What a connector keeps of a side.
#[derive(Clone, Copy, Debug, PartialEq, Eq)]
pub(crate) struct SideState {
    pub(crate) attempt: Attempt,
    /// How long to wait after the next failure, in milliseconds.
    pub(crate) next_wait: u32,
}
