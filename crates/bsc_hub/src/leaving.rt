//! Leaving.
ghost use Rattle.std.specs.Prelude.{◌≡◌, [], length, take, Some, true};
ghost use Rattle.bsc_history.specs.declared.call.Call.TheVariants.{Leave};
ghost use Rattle.bsc_history.specs.declared.ending.End.{End};
ghost use Rattle.bsc_history.specs.Marks.{entries, mark_of};
ghost use Rattle.bsc_history.specs.Outboxes.{sent};
ghost use Rattle.bsc_history.specs.Replies.{reply};
ghost use Rattle.bsc_ring.specs.Ends.{FoundEnd, empties_of, given, known_pushed, knows_all, outlet_mark};
ghost use Rattle.bsc_turn.specs.Passes.{number_of, seen};
ghost use Rattle.bsc_desk.specs.Entries.{gone_reply};
ghost use Rattle.bsc_hub.specs.Calls.{leave_made};
ghost use Rattle.bsc_hub.specs.Passing.{IsCaller, IsOwn, Passed, about_of, found_history};

use crate::commits::commit_leave;
use crate::hub::Hub;
use bsc_desk::Gone;
use bsc_history::Told;
use bsc_ring::Outlet;
use bsc_turn::Pass;
use std::marker::Brand;
use std::sync::Wait;

impl Hub {
    /// Connection `conn`, which this caller joined and which hasn't left, leaves, and gives its outlet back. It is
    /// told its End, Left where it was live, and how many frames its outlet gave. It is never refused, and no memory
    /// is taken.
    pub fn leave<R: Wait>(&self, rt: &R, pass: &mut Pass, conn: u64, outlet: Outlet) -> Told<Gone>
        requires caller { IsCaller self.now pass.old }
        requires own { IsOwn pass.old conn }
        requires mark { mark_of (seen pass.old) conn ≡ Some (outlet_mark outlet) }
        ensures pass { Passed self.now pass.old []
            (leave_made (number_of pass.old) conn (empties_of outlet) result) pass.new }
        ensures due { gone_reply result.said ≡ reply (about_of self.now)
            (found_history (leave_made (number_of pass.old) conn (empties_of outlet) result) pass.new)
            (Leave conn result.said.taken (empties_of outlet)) [] }

        // What the outlet gave is the first part of what entered the outbox, and an End that its loads found is the
        // one answered.
        ensures taken { result.said.taken ≡ length (given outlet) }
        ensures given { given outlet ≡ take result.said.taken (sent (about_of self.now) (entries (seen pass.new)) conn) }
        ensures found { (e : End) → FoundEnd outlet e → result.said.ending ≡ e }

        // An outlet that knows all, as one that met its End does, knows all that entered the outbox.
        ensures all { knows_all outlet ≡ true →
            known_pushed outlet ≡ sent (about_of self.now) (entries (seen pass.new)) conn }
    {
        let caller = pass.number();
        let empties = outlet.empties();
        let mut guard = self.turn.enter(rt, pass);
        let said = guard.state().leave(caller, conn, outlet);
        let at = commit_leave::<Brand>(guard, pass, caller, conn, empties, said);
        Told { at, said }
    }
}
