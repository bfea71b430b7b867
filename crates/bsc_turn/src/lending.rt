//! A guard lends its state.
ghost use Rattle.std.specs.Prelude.{◌≡◌};
ghost use Rattle.std.specs.Borrow.{sem};
ghost use Rattle.bsc_turn.specs.Lending.{LendsState};

use crate::guard::Guard;

impl<T, S> Guard<T, S> {
    /// The state. What is written through the reference is the guard's from then on.
    pub fn state(&mut self) -> &mut S
        ensures* lends { sem 𝓛 (LendsState T.row S.row self.entry result) }
        ensures value { result.now ≡ self.old.state }
    {
        &mut self.state
    }
}
