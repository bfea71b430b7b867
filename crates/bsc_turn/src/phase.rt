//! How far a seat is with the turn.

/// The phase of a seat: how far it is with the turn. Contracts speak of it, and no value is made.
pub enum SeatPhase {
    /// It doesn't hold the turn.
    Outside,
    /// It holds the turn, and the state is home.
    Holding,
    /// It holds the turn and the state, and has seen the whole history.
    Entered,
    /// It has made an entry since it entered. It still holds the turn and the state.
    Committed,
    /// It holds the turn, and the number that it keeps is the one that the next pass gets.
    Numbered,
    /// It holds the turn, and drew the number that it keeps. No pass has that number yet.
    Drawn,
}
