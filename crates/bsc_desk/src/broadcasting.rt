//! Forwards of a broadcast.
#![tactic(auto)]

ghost use Rattle.std.specs.Prelude.{◌≡◌, ◌≤◌, ◌<◌, ◌↔◌, ℕ, ◌++◌, ◌∷◌, [], List, length, vec_len, None, IfOk, IfErr, OnErr, IsTrue, IsFalse};
ghost use Rattle.bsc_octets.specs.Forwarding.{has_route, is_broadcast, out};
ghost use Rattle.bsc_history.specs.declared.mark.Stamped.{Stamped};
ghost use Rattle.bsc_history.specs.Ends.{ended};
ghost use Rattle.bsc_history.specs.Marks.{entries};
ghost use Rattle.bsc_history.specs.Replies.{forward_reply, is_stopped};
ghost use Rattle.bsc_desk.specs.Copying.{AreCopies, count_of};
ghost use Rattle.bsc_desk.specs.Counted.{broadcast_counts};
ghost use Rattle.bsc_desk.specs.Entries.{AllSaysLimit, all_adds, all_looks, all_reply, all_unserved, forward_entry, is_all_worn, lacks_memory, plain, unserved};
ghost use Rattle.bsc_desk.specs.Fates.{HasRoom, Tell, count_offered};
ghost use Rattle.bsc_desk.specs.Knowing.{Learns};
ghost use Rattle.bsc_desk.specs.Rows.{IsRowOf, IsUnserved, end_of};
ghost use Rattle.bsc_desk.specs.Standing.{DeskStands};
ghost use Rattle.bsc_desk.specs.Tallies.{AreAtMost};

use crate::copies::Copies;
use crate::desk::Desk;
use crate::notes::Notes;
use crate::offering::{count_offered, offer_all};
use crate::prepared::Prepared;
use crate::rows::end_at;
use crate::tally::{NOTHING, one_if};
use bsc_history::{Conns, Counts, End, Looks, MOST_ROWS, Worn};
use bsc_octets::NoMemory;
use std::alloc::Global;
use thiserror::Error;

/// The reply to a broadcast.
#[derive(Debug, Drop)]
pub enum AllReply {
    /// Each live connection but the sender, in the order of joining: it joined the outboxes of `to`; those of
    /// `missed` were found full, and their connections go on; its forwarded octets are longer than those of
    /// `skipped` take. The looks are those of the pushes at all that weren't skipped.
    Sent {
        to: Conns,
        missed: Conns,
        skipped: Conns,
        looks: Looks,
    },
    /// Its sender has ended.
    NotCurrent {
        ending: End,
    },
    /// The hub has stopped.
    Stopped,
}

/// Why a broadcast made no entry.
#[derive(Clone, Copy, Debug, PartialEq, Eq, Error)]
pub enum AllRefusal {
    /// The hub has made as many calls as it may.
    #[error("the hub has made as many calls as it may")]
    Worn(Worn),
    /// Memory ran out, and nothing has changed.
    #[error("no memory for the copies of a broadcast")]
    NoMemory,
}

/// The answer to a broadcast that is dropped unsent.
fn all_unserved(ended: Option<End>) -> AllReply
    ensures { result ≡ all_unserved ended }
{
    match ended {
        Some(ending) => AllReply::NotCurrent { ending },
        None => AllReply::Stopped,
    }
}

/// What a broadcast counts that joined so many outboxes, and that so many connections missed.
fn counts_of(to: usize, missed: usize) -> Counts
    requires few_to { to ≤ MOST_ROWS }
    requires few_missed { missed ≤ MOST_ROWS }
    ensures value { result ≡ broadcast_counts to missed }
    ensures small { AreAtMost result MOST_ROWS }
{
    Counts {
        broadcasts: 1,
        appended: to as u64,
        dropped: one_if(to == 0),
        missed: missed as u64,
        ..NOTHING
    }
}

impl Desk {
    /// Forwards a broadcast of connection `conn`, which this caller joined, which hasn't left and which has the
    /// frame's sender as its VMAC. The first of these holds: worn; the hub has stopped; the sender has ended;
    /// memory runs out, and then nothing has changed; each live connection but the sender gets it, or is
    /// skipped, as its octets are too long, or misses it, as the push finds its outbox full. All memory is
    /// taken before the first push.
    pub fn forward_all(
        &mut self,
        alloc: Global,
        caller: u64,
        conn: u64,
        frame: &Prepared,
    ) -> Result<AllReply, AllRefusal>
        requires broadcast { IsTrue (is_broadcast frame.now.message) }
        requires unleft { IsRowOf self.old caller conn frame.now.sender }

        // The desk stands for some history, by which few frames were pushed.
        requires some { (S : List Stamped) × DeskStands self.old S }

        ensures due { (S : List Stamped) → DeskStands self.old S → IfOk result (λ r.
            all_reply r ≡ forward_reply self.old.about (entries S) conn frame.now.message (all_looks r)) }
        ensures worn { (S : List Stamped) → DeskStands self.old S →
            IsTrue (is_all_worn result) ↔ (self.old.about.limits.calls ≤ length S) }

        // Memory is only taken where the broadcast is sent.
        ensures memory { (S : List Stamped) → DeskStands self.old S → IsTrue (lacks_memory result) →
            IsFalse (is_stopped (entries S)) × (ended (entries S) conn ≡ None) }
        ensures stands { (S : List Stamped) → DeskStands self.old S →
            DeskStands self.new (S ++ all_adds caller conn frame.now.message result) }
        ensures about { self.new.about ≡ self.old.about }

        // The looks are those of the call's own pushes.
        ensures learns { IfOk result (λ r. Learns self.old (all_looks r) self.new) }

        // Worn, or for want of memory, no outbox, count or look has changed.
        ensures err { OnErr result (self.new ≡ self.old) }
        ensures limit { IfErr result (λ refusal. AllSaysLimit refusal self.old.about.limits.calls) }
    {
        let calls = self.about.limits.calls;
        if calls <= self.tally.made {
            return Err(AllRefusal::Worn(Worn { calls }));
        }
        if self.stopped_at.is_some() {
            return Ok(self.drop_all(caller, conn, frame, None));
        }
        match end_at(self.rows.as_slice(), conn) {
            Some(ending) => Ok(self.drop_all(caller, conn, frame, Some(ending))),
            None => match self.send_all(alloc, caller, conn, frame) {
                Ok(reply) => Ok(reply),
                Err(NoMemory) => Err(AllRefusal::NoMemory),
            },
        }
    }

    /// A broadcast is dropped unsent, as its sender has ended, or else as the hub has stopped.
    fn drop_all(&mut self, caller: u64, conn: u64, frame: &Prepared, ended: Option<End>) -> AllReply
        requires broadcast { IsTrue (is_broadcast frame.now.message) }
        requires calls { self.old.tally.made < self.old.about.limits.calls }
        requires unserved { IsUnserved self.old conn ended }
        requires unleft { IsRowOf self.old caller conn frame.now.sender }
        ensures value { result ≡ all_unserved ended }
        ensures due { (S : List Stamped) → DeskStands self.old S →
            unserved ended ≡ forward_reply self.old.about (entries S) conn frame.now.message [] }
        ensures stands { (S : List Stamped) → DeskStands self.old S →
            DeskStands self.new (S ++ plain (forward_entry caller conn frame.now.message [] (unserved ended)) ∷ []) }
        ensures about { self.new.about ≡ self.old.about }
        ensures rows { self.new.rows ≡ self.old.rows }
    {
        frame.has_route();
        self.tally.add(counts_of(0, 0));
        all_unserved(ended)
    }

    /// A broadcast of a live sender is sent, where memory is found for all of it.
    fn send_all(
        &mut self,
        alloc: Global,
        caller: u64,
        conn: u64,
        frame: &Prepared,
    ) -> Result<AllReply, NoMemory>
        requires broadcast { IsTrue (is_broadcast frame.now.message) }
        requires unleft { IsRowOf self.old caller conn frame.now.sender }
        requires some { (S : List Stamped) × DeskStands self.old S }
        requires calls { self.old.tally.made < self.old.about.limits.calls }
        requires goes_on { self.old.stopped_at ≡ None }
        requires current { end_of self.old conn ≡ None }
        ensures due { (S : List Stamped) → DeskStands self.old S → IfOk result (λ r.
            all_reply r ≡ forward_reply self.old.about (entries S) conn frame.now.message (all_looks r)) }
        ensures stands { (S : List Stamped) → DeskStands self.old S → IfOk result (λ r.
            DeskStands self.new (S ++ plain (forward_entry caller conn frame.now.message (all_looks r) (all_reply r)) ∷ [])) }
        ensures about { self.new.about ≡ self.old.about }
        ensures learns { IfOk result (λ r. Learns self.old (all_looks r) self.new) }
        ensures err { OnErr result (self.new ≡ self.old) }
    {
        let count = count_offered(self.rows.as_slice(), conn, frame);
        let copies = Copies::make(alloc, frame, count)?;
        let notes = Notes::make(alloc, self.rows.len())?;
        Ok(self.push_all(caller, conn, frame, copies, notes))
    }

    /// The copies are pushed, and the lists are told.
    fn push_all(
        &mut self,
        caller: u64,
        conn: u64,
        frame: &Prepared,
        copies: Copies,
        notes: Notes,
    ) -> AllReply
        requires broadcast { IsTrue (is_broadcast frame.now.message) }
        requires unleft { IsRowOf self.old caller conn frame.now.sender }
        requires some { (S : List Stamped) × DeskStands self.old S }
        requires calls { self.old.tally.made < self.old.about.limits.calls }
        requires goes_on { self.old.stopped_at ≡ None }
        requires current { end_of self.old conn ≡ None }
        requires enough { count_of copies ≡ count_offered conn (out frame.now.message frame.now.sender) self.old.rows.items }
        requires each { AreCopies (out frame.now.message frame.now.sender) copies }
        requires room { HasRoom notes (vec_len self.old.rows) }
        requires empty { Tell notes [] }
        ensures due { (S : List Stamped) → DeskStands self.old S →
            all_reply result ≡ forward_reply self.old.about (entries S) conn frame.now.message (all_looks result) }
        ensures stands { (S : List Stamped) → DeskStands self.old S →
            DeskStands self.new (S ++ plain (forward_entry caller conn frame.now.message (all_looks result) (all_reply result)) ∷ []) }
        ensures about { self.new.about ≡ self.old.about }
        ensures learns { Learns self.old (all_looks result) self.new }
    {
        frame.has_route();
        let Notes {
            to,
            missed,
            skipped,
            looks,
        } = offer_all(&mut self.rows, conn, frame, copies, notes);
        self.tally.add(counts_of(to.len(), missed.len()));
        AllReply::Sent {
            to: Conns::from_vec(to),
            missed: Conns::from_vec(missed),
            skipped: Conns::from_vec(skipped),
            looks: Looks::from_vec(looks),
        }
    }
}
