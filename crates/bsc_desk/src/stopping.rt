//! Stopping and counting.
#![tactic(auto)]

ghost use Rattle.std.specs.Prelude.{◌≡◌, ◌≤◌, ◌<◌, ◌↔◌, ℕ, ◌++◌, ◌∷◌, [], List, length, position, Some, None, IfOk, IfErr, IsErr, OnErr, IsTrue};
ghost use Rattle.bsc_history.specs.declared.mark.Stamped.{Stamped};
ghost use Rattle.bsc_history.specs.Entries.{stops};
ghost use Rattle.bsc_history.specs.Counting.{counts};
ghost use Rattle.bsc_history.specs.Marks.{entries};
ghost use Rattle.bsc_history.specs.Replies.{is_stopped};
ghost use Rattle.bsc_desk.specs.Entries.{count_adds, count_entry, plain, stop_adds, stop_entry};
ghost use Rattle.bsc_desk.specs.Rows.{known_of, row_of};
ghost use Rattle.bsc_desk.specs.Standing.{DeskStands};

use crate::desk::Desk;
use crate::rows::finish_all;
use crate::tally::NOTHING;
use bsc_history::{AlreadyStopped, Counts, End, Worn};

impl Desk {
    /// Ends every live connection as Stopped, and answers the counts of the history before. From then on no
    /// connection joins and nothing is forwarded. It is refused exactly where the hub has been stopped before,
    /// and then nothing changes. No memory is taken.
    pub fn stop(&mut self, caller: u64) -> Result<Counts, AlreadyStopped>
        ensures due { (S : List Stamped) → DeskStands self.old S → IfOk result (λ k. k ≡ counts (entries S)) }
        ensures refused { (S : List Stamped) → DeskStands self.old S → IsErr result ↔ IsTrue (is_stopped (entries S)) }
        ensures place { (S : List Stamped) → DeskStands self.old S →
            IfErr result (λ already. position stops (entries S) ≡ Some already.at) }
        ensures stands { (S : List Stamped) → DeskStands self.old S → DeskStands self.new (S ++ stop_adds caller result) }
        ensures about { self.new.about ≡ self.old.about }
        ensures known { (c : ℕ) → known_of self.new c ≡ known_of self.old c }
        ensures err { OnErr result (self.new ≡ self.old) }
    {
        match self.stopped_at {
            Some(at) => Err(AlreadyStopped { at }),
            None => Ok(self.stop_now(caller)),
        }
    }

    /// Ends every live connection, where the hub goes on.
    fn stop_now(&mut self, caller: u64) -> Counts
        requires goes_on { self.old.stopped_at ≡ None }
        ensures value { result ≡ self.old.tally.counts }
        ensures stands { (S : List Stamped) → DeskStands self.old S →
            DeskStands self.new (S ++ plain (stop_entry caller result) ∷ []) }
        ensures about { self.new.about ≡ self.old.about }
        ensures known { (c : ℕ) → known_of self.new c ≡ known_of self.old c }
    {
        let counts = self.tally.counts;
        finish_all(&mut self.rows, End::Stopped);
        self.stopped_at = Some(self.tally.made);
        self.tally.add(NOTHING);
        counts
    }

    /// The counts of the history before. Worn comes exactly where the hub has made as many calls as it may, and
    /// then no entry is made. No memory is taken.
    pub fn count(&mut self, caller: u64) -> Result<Counts, Worn>
        ensures due { (S : List Stamped) → DeskStands self.old S → IfOk result (λ k. k ≡ counts (entries S)) }
        ensures worn { (S : List Stamped) → DeskStands self.old S →
            IsErr result ↔ (self.old.about.limits.calls ≤ length S) }
        ensures stands { (S : List Stamped) → DeskStands self.old S → DeskStands self.new (S ++ count_adds caller result) }
        ensures about { self.new.about ≡ self.old.about }
        ensures others { (c : ℕ) → row_of self.new c ≡ row_of self.old c }
        ensures err { OnErr result (self.new ≡ self.old) }
        ensures limit { IfErr result (λ worn. worn.calls ≡ self.old.about.limits.calls) }
    {
        let calls = self.about.limits.calls;
        if calls <= self.tally.made {
            return Err(Worn { calls });
        }
        Ok(self.count_now(caller))
    }

    /// The entry of a count is made, and nothing else changes.
    fn count_now(&mut self, caller: u64) -> Counts
        requires calls { self.old.tally.made < self.old.about.limits.calls }
        ensures value { result ≡ self.old.tally.counts }
        ensures stands { (S : List Stamped) → DeskStands self.old S →
            DeskStands self.new (S ++ plain (count_entry caller result) ∷ []) }
        ensures about { self.new.about ≡ self.old.about }
        ensures rows { self.new.rows ≡ self.old.rows }
    {
        let counts = self.tally.counts;
        self.tally.add(NOTHING);
        counts
    }
}
