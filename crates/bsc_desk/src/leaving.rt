//! Leaving.
#![tactic(auto)]

ghost use Rattle.std.specs.Prelude.{◌≡◌, ◌≢◌, ◌==◌, ◌<◌, ◌++◌, ◌∷◌, [], ℕ, List, length, take, position, vec_len, vec_capacity, Some, None, true};
ghost use Rattle.std.specs.List.{remove};
ghost use Rattle.bsc_history.specs.declared.call.Call.TheVariants.{Leave};
ghost use Rattle.bsc_history.specs.declared.ending.End.{End};
ghost use Rattle.bsc_history.specs.declared.mark.Stamped.{Stamped};
ghost use Rattle.bsc_history.specs.Marks.{entries};
ghost use Rattle.bsc_history.specs.Outboxes.{sent};
ghost use Rattle.bsc_history.specs.Replies.{reply};
ghost use Rattle.bsc_ring.specs.Ends.{FoundEnd, empties_of, given, known_pushed, knows_all, outlet_mark};
ghost use Rattle.bsc_desk.specs.Entries.{gone_reply, leave_entry, plain};
ghost use Rattle.bsc_desk.specs.Meetings.{IsOutletOf};
ghost use Rattle.bsc_desk.specs.Rows.{IsMarkOf, IsRowBy, row_of};
ghost use Rattle.bsc_desk.specs.Standing.{DeskStands};

use crate::desk::Desk;
use crate::row::Row;
use crate::rows::place_of;
use crate::tally::NOTHING;
use bsc_history::End;
use bsc_ring::{Outlet, unite};

/// What a connection that leaves is told.
#[derive(Clone, Copy, Debug, PartialEq, Eq)]
pub struct Gone {
    /// How it had ended, or Left where it was live.
    pub ending: End,
    /// How many frames were taken from its outbox.
    pub taken: u64,
}

impl Desk {
    /// Connection `conn`, which this caller joined and which hasn't left, leaves, and gives its outlet back: the
    /// two ends of its outbox are united. It is told its End, Left where it was live, and how many frames the
    /// outlet gave. Its row is free again, and what waits in its outbox is dropped. It is never refused, and no
    /// memory is taken.
    pub fn leave(&mut self, caller: u64, conn: u64, outlet: Outlet) -> Gone
        requires unleft { IsRowBy self.old caller conn }
        requires mark { IsMarkOf self.old conn (outlet_mark outlet) }

        // What is answered is what the definition of replies asks for, after each history.
        ensures due { (S : List Stamped) → DeskStands self.old S →
            gone_reply result ≡ reply self.old.about (entries S) (Leave conn result.taken (empties_of outlet)) [] }
        ensures stands { (S : List Stamped) → DeskStands self.old S →
            DeskStands self.new (S ++ plain (leave_entry caller conn (empties_of outlet) result) ∷ []) }
        ensures about { self.new.about ≡ self.old.about }

        // The outlet gave so many frames, the first of those that entered the outbox; and where its loads found an
        // End, that End is the one answered.
        ensures taken { result.taken ≡ length (given outlet) }
        ensures outlet { (S : List Stamped) → DeskStands self.old S →
            IsOutletOf self.old.about (entries S) conn outlet }
        ensures given { (S : List Stamped) → DeskStands self.old S →
            given outlet ≡ take result.taken (sent self.old.about (entries S) conn) }
        ensures found { (e : End) → FoundEnd outlet e → result.ending ≡ e }

        // An outlet that knows all, as one that met its End does, knows all that entered the outbox.
        ensures all { (S : List Stamped) → DeskStands self.old S → knows_all outlet ≡ true →
            known_pushed outlet ≡ sent self.old.about (entries S) conn }

        ensures row { row_of self.new conn ≡ None }
        ensures others { (k : ℕ) → k ≢ conn → row_of self.new k ≡ row_of self.old k }
    {
        match place_of(self.rows.as_slice(), conn) {
            None => unreachable!(),
            Some(place) => self.leave_at(caller, conn, place, outlet),
        }
    }

    /// The same at the place of the connection's row.
    fn leave_at(&mut self, caller: u64, conn: u64, place: usize, outlet: Outlet) -> Gone
        requires unleft { IsRowBy self.old caller conn }
        requires mark { IsMarkOf self.old conn (outlet_mark outlet) }
        requires place { position (λ r. r.connection.number == conn) self.old.rows.items ≡ Some place }
        ensures due { (S : List Stamped) → DeskStands self.old S →
            gone_reply result ≡ reply self.old.about (entries S) (Leave conn result.taken (empties_of outlet)) [] }
        ensures stands { (S : List Stamped) → DeskStands self.old S →
            DeskStands self.new (S ++ plain (leave_entry caller conn (empties_of outlet) result) ∷ []) }
        ensures about { self.new.about ≡ self.old.about }
        ensures taken { result.taken ≡ length (given outlet) }
        ensures outlet { (S : List Stamped) → DeskStands self.old S →
            IsOutletOf self.old.about (entries S) conn outlet }
        ensures given { (S : List Stamped) → DeskStands self.old S →
            given outlet ≡ take result.taken (sent self.old.about (entries S) conn) }
        ensures found { (e : End) → FoundEnd outlet e → result.ending ≡ e }
        ensures all { (S : List Stamped) → DeskStands self.old S → knows_all outlet ≡ true →
            known_pushed outlet ≡ sent self.old.about (entries S) conn }
        ensures row { row_of self.new conn ≡ None }
        ensures others { (k : ℕ) → k ≢ conn → row_of self.new k ≡ row_of self.old k }
    {
        self.directory.leave(conn);
        let Row {
            connection: _,
            inlet,
            ending,
        } = self.rows.remove(place);
        let remains = unite(inlet, outlet);
        self.tally.add(NOTHING);
        Gone {
            ending: ending.unwrap_or(End::Left),
            taken: remains.taken,
        }
    }
}
