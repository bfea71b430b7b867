//! The three words of the ring's table, each by its place.

/// The head word: how many items were taken.
pub(crate) const HEAD_WORD: usize = 0;

/// The tail word: how many items were pushed.
pub(crate) const TAIL_WORD: usize = 1;

/// The end word: which End was set, 0 for none.
pub(crate) const END_WORD: usize = 2;
