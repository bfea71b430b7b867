//! How the hub is doing, which is told without an entry.
ghost use Rattle.std.specs.Prelude.{◌≡◌, [], None};
ghost use Rattle.bsc_history.specs.Marks.{entries};
ghost use Rattle.bsc_desk.specs.Looking.{IsStatusOf};
ghost use Rattle.bsc_turn.specs.Passes.{newest_number, seen};
ghost use Rattle.bsc_hub.specs.Passing.{IsCaller, Passed};

use crate::hub::Hub;
use bsc_desk::HubStatus;
use bsc_turn::Pass;
use std::sync::Wait;

impl Hub {
    /// How the hub is doing, by all that the pass has then seen: the whole history. No entry is made, also of a hub that
    /// is worn or stopped. No memory is taken.
    pub fn status<R: Wait>(&self, rt: &R, pass: &mut Pass) -> HubStatus
        requires { IsCaller self.now pass.old }
        ensures pass { Passed self.now pass.old [] None pass.new }
        ensures so { IsStatusOf (entries (seen pass.new)) result }
        ensures loaded { newest_number pass.new ≡ newest_number pass.old }
    {
        let mut guard = self.turn.enter(rt, pass);
        let said = guard.state().status();
        guard.back(pass);
        said
    }
}
