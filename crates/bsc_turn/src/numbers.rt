//! The numbers of callers.
ghost use Rattle.std.specs.Prelude.{◌≡◌};
ghost use Rattle.bsc_turn.specs.Passes.{number_of};

use crate::pass::Pass;

impl Pass {
    /// The caller's number: 0 for the first pass, and for each later one the next.
    pub fn number(&self) -> u64
        ensures { result ≡ number_of self.now }
    {
        self.number
    }
}
