//! Stopping and counting.
ghost use Rattle.std.specs.Prelude.{◌≡◌, ◌≤◌, ◌↔◌, [], length, position, Some, IfErr, IfOk, IsErr, IsTrue};
ghost use Rattle.bsc_history.specs.Counting.{counts};
ghost use Rattle.bsc_history.specs.Entries.{stops};
ghost use Rattle.bsc_history.specs.Marks.{entries};
ghost use Rattle.bsc_history.specs.Replies.{is_stopped};
ghost use Rattle.bsc_turn.specs.Passes.{newest_number, number_of, seen};
ghost use Rattle.bsc_hub.specs.Calls.{count_made, stop_made};
ghost use Rattle.bsc_hub.specs.Passing.{IsCaller, Passed, about_of, found_history};

use crate::commits::{commit_count, commit_stop};
use crate::hub::Hub;
use bsc_history::{AlreadyStopped, Counts, Told, Worn};
use bsc_turn::Pass;
use std::marker::Brand;
use std::sync::Wait;

impl Hub {
    /// Ends every live connection as Stopped, and answers the counts of the history before. From then on no
    /// connection joins and nothing is forwarded. It is refused exactly where the hub has been stopped before, and
    /// then nothing changes. No memory is taken.
    pub fn stop<R: Wait>(&self, rt: &R, pass: &mut Pass) -> Result<Told<Counts>, AlreadyStopped>
        requires { IsCaller self.now pass.old }
        ensures pass { Passed self.now pass.old [] (stop_made (number_of pass.old) result) pass.new }
        ensures due { IfOk result (λ t.
            t.said ≡ counts (found_history (stop_made (number_of pass.old) result) pass.new)) }
        ensures refused { IsErr result ↔ IsTrue (is_stopped
            (found_history (stop_made (number_of pass.old) result) pass.new)) }
        ensures place { IfErr result (λ already. position stops (entries (seen pass.new)) ≡ Some already.at) }
        ensures loaded { newest_number pass.new ≡ newest_number pass.old }
    {
        let caller = pass.number();
        let mut guard = self.turn.enter(rt, pass);
        match guard.state().stop(caller) {
            Err(already) => {
                guard.back(pass);
                Err(already)
            }
            Ok(said) => {
                let at = commit_stop::<Brand>(guard, pass, caller, said);
                Ok(Told { at, said })
            }
        }
    }

    /// The counts of the history before. It is refused exactly where the hub has made as many calls as it may. No
    /// memory is taken.
    pub fn counts<R: Wait>(&self, rt: &R, pass: &mut Pass) -> Result<Told<Counts>, Worn>
        requires { IsCaller self.now pass.old }
        ensures pass { Passed self.now pass.old [] (count_made (number_of pass.old) result) pass.new }
        ensures due { IfOk result (λ t.
            t.said ≡ counts (found_history (count_made (number_of pass.old) result) pass.new)) }
        ensures worn { IsErr result ↔ ((about_of self.now).limits.calls
            ≤ length (found_history (count_made (number_of pass.old) result) pass.new)) }
        ensures limit { IfErr result (λ worn. worn.calls ≡ (about_of self.now).limits.calls) }
    {
        let caller = pass.number();
        let mut guard = self.turn.enter(rt, pass);
        match guard.state().count(caller) {
            Err(worn) => {
                guard.back(pass);
                Err(worn)
            }
            Ok(said) => {
                let at = commit_count::<Brand>(guard, pass, caller, said);
                Ok(Told { at, said })
            }
        }
    }
}
