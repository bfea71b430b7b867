//! What a turn of a node comes to.
use crate::due::Due;

/// What a turn of a node comes to.
#[derive(Clone, Copy)]
pub struct TurnEnd<'a> {
    /// Its time, in milliseconds.
    pub time: u64,
    /// What of the script isn't due yet.
    pub left: &'a [Due],
}
