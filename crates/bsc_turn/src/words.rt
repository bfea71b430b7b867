//! The three words of the turn's table, each by its place.

/// The turn word: 1 while somebody holds the turn, else 0.
pub(crate) const TURN_WORD: usize = 0;

/// The count word: how many entries the history has.
pub(crate) const COUNT_WORD: usize = 1;

/// The number word: how many passes were made.
pub(crate) const NUMBER_WORD: usize = 2;

/// The one slot, which holds the state.
pub(crate) const STATE_SLOT: usize = 0;
