//! Guards.
use crate::plays::TurnSeat;

/// A state that is out, in the hand of the one caller that entered. `T` is a reference to the turn. A guard
/// can't be dropped: it is spent by `commit` or `back`.
pub struct Guard<T, S> {
    pub(crate) turn: T,
    pub(crate) seat: TurnSeat<S>,
    pub(crate) state: S,
}
