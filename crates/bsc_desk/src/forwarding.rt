//! Forwards of a unicast.
#![tactic(auto)]

ghost use Rattle.std.specs.Prelude.{◌≡◌, ◌≤◌, ◌<◌, ◌↔◌, ◌&&◌, ◌++◌, ◌∷◌, [], List, length, position, vec_len, vec_capacity, Some, None};
ghost use Rattle.std.specs.Prelude.{IfOk, IfErr, IsErr, OnErr, IsTrue, IsFalse, is_some};
ghost use Rattle.bsc_octets.specs.Addresses.{same_vmac};
ghost use Rattle.bsc_octets.specs.Forwarding.{destination, has_route, is_broadcast, out};
ghost use Rattle.bsc_history.specs.declared.ending.End.TheVariants.{Full};
ghost use Rattle.bsc_history.specs.declared.mark.Stamped.{Stamped};
ghost use Rattle.bsc_history.specs.Marks.{entries};
ghost use Rattle.bsc_history.specs.Replies.{forward_reply};
ghost use Rattle.bsc_desk.specs.Counted.{unicast_counts};
ghost use Rattle.bsc_desk.specs.Entries.{forward_entry, one_adds, one_looks, one_reply, one_unserved, plain, unserved};
ghost use Rattle.bsc_desk.specs.Fates.{FaresAt, FewPushed, IsOpenAt, one_said};
ghost use Rattle.bsc_desk.specs.Knowing.{Learns};
ghost use Rattle.bsc_desk.specs.Live.{is_open};
ghost use Rattle.bsc_desk.specs.Rows.{IsRowOf, IsUnserved, end_of};
ghost use Rattle.bsc_desk.specs.Standing.{DeskStands};
ghost use Rattle.bsc_desk.specs.Tallies.{AreAtMost};

use crate::desk::Desk;
use crate::fate::Fate;
use crate::prepared::Prepared;
use crate::row::Row;
use crate::rows::end_at;
use crate::tally::NOTHING;
use bsc_history::{Counts, End, Look, MOST_ROWS, Worn};
use bsc_octets::Octets;

/// The reply to a unicast.
#[derive(Clone, Copy, Debug, PartialEq, Eq)]
pub enum OneReply {
    /// It joined the outbox of its holder; this is the look that its push made there.
    Appended(Look),
    /// The outbox of its holder was found full by this look, and the holder ended as Full.
    Closed(Look),
    /// Its forwarded octets are longer than its holder `conn` takes.
    Skipped { conn: u64 },
    /// No live connection holds its Destination.
    NoHolder,
    /// Its sender has ended.
    NotCurrent { ending: End },
    /// The hub has stopped.
    Stopped,
}

/// The answer to a unicast, by what became of it.
fn one_said(fate: Fate) -> OneReply
    ensures { result ≡ one_said fate }
{
    match fate {
        Fate::Unmeant => OneReply::NoHolder,
        Fate::TooLong { conn } => OneReply::Skipped { conn },
        Fate::Entered(look) => OneReply::Appended(look),
        Fate::FoundFull(look) => OneReply::Closed(look),
    }
}

/// The answer to a unicast that is dropped unsent.
fn one_unserved(ended: Option<End>) -> OneReply
    ensures { result ≡ one_unserved ended }
{
    match ended {
        Some(ending) => OneReply::NotCurrent { ending },
        None => OneReply::Stopped,
    }
}

/// What a unicast counts.
fn counts_of(reply: OneReply) -> Counts
    ensures value { result ≡ unicast_counts (one_reply reply) }
    ensures small { AreAtMost result MOST_ROWS }
{
    match reply {
        OneReply::Appended(_) => Counts {
            unicasts: 1,
            appended: 1,
            ..NOTHING
        },
        OneReply::Closed(_) => Counts {
            unicasts: 1,
            dropped: 1,
            full: 1,
            ..NOTHING
        },
        OneReply::Skipped { .. }
        | OneReply::NoHolder
        | OneReply::NotCurrent { .. }
        | OneReply::Stopped => Counts {
            unicasts: 1,
            dropped: 1,
            ..NOTHING
        },
    }
}

/// Offers a unicast at the row of its holder.
fn offer_at(rows: &mut Vec<Row>, place: usize, octets: Octets) -> Fate
    requires few { FewPushed rows.old.items }
    requires live { IsOpenAt (Some place) rows.old.items }
    ensures fares { FaresAt (Some place) octets rows.old.items result rows.new.items }
    ensures len { vec_len rows.new ≡ vec_len rows.old }
    ensures capacity { vec_capacity rows.new ≡ vec_capacity rows.old }
{
    let row = &mut rows[place];
    if row.is_short_of(octets.len()) {
        Fate::TooLong {
            conn: row.connection.number,
        }
    } else {
        row.offer(octets, Some(End::Full))
    }
}

/// Offers a unicast at the row of its holder, if there is one.
fn offer_to(rows: &mut Vec<Row>, place: Option<usize>, octets: Octets) -> Fate
    requires few { FewPushed rows.old.items }
    requires live { IsOpenAt place rows.old.items }
    ensures fares { FaresAt place octets rows.old.items result rows.new.items }
    ensures len { vec_len rows.new ≡ vec_len rows.old }
    ensures capacity { vec_capacity rows.new ≡ vec_capacity rows.old }
{
    match place {
        None => Fate::Unmeant,
        Some(place) => offer_at(rows, place, octets),
    }
}

impl Desk {
    /// Forwards a unicast of connection `conn`, which this caller joined, which hasn't left and which has the
    /// frame's sender as its VMAC. It joins the outbox of the live connection that holds its Destination, or
    /// else the first of these holds: worn; the hub has stopped; the sender has ended; nobody holds the
    /// Destination; the octets are too long for the holder; the push finds the outbox full, and the holder
    /// ends. A frame that isn't appended is dropped. No memory is taken.
    pub fn forward_one(&mut self, caller: u64, conn: u64, frame: Prepared) -> Result<OneReply, Worn>
        requires unicast { IsFalse (is_broadcast frame.message) }
        requires unleft { IsRowOf self.old caller conn frame.sender }

        // The desk stands for some history, by which few frames were pushed.
        requires some { (S : List Stamped) × DeskStands self.old S }

        ensures due { (S : List Stamped) → DeskStands self.old S → IfOk result (λ r.
            one_reply r ≡ forward_reply self.old.about (entries S) conn frame.message (one_looks r)) }
        ensures worn { (S : List Stamped) → DeskStands self.old S →
            IsErr result ↔ (self.old.about.limits.calls ≤ length S) }
        ensures stands { (S : List Stamped) → DeskStands self.old S →
            DeskStands self.new (S ++ one_adds caller conn frame.message result) }
        ensures about { self.new.about ≡ self.old.about }

        // The look is that of the call's own push.
        ensures learns { IfOk result (λ r. Learns self.old (one_looks r) self.new) }
        ensures err { OnErr result (self.new ≡ self.old) }
        ensures limit { IfErr result (λ worn. worn.calls ≡ self.old.about.limits.calls) }
    {
        let calls = self.about.limits.calls;
        if calls <= self.tally.made {
            return Err(Worn { calls });
        }
        if self.stopped_at.is_some() {
            return Ok(self.drop_one(caller, conn, &frame, None));
        }
        match end_at(self.rows.as_slice(), conn) {
            Some(ending) => Ok(self.drop_one(caller, conn, &frame, Some(ending))),
            None => Ok(self.send_one(caller, conn, frame)),
        }
    }

    /// A unicast is dropped unsent, as its sender has ended, or else as the hub has stopped.
    fn drop_one(&mut self, caller: u64, conn: u64, frame: &Prepared, ended: Option<End>) -> OneReply
        requires unicast { IsFalse (is_broadcast frame.now.message) }
        requires calls { self.old.tally.made < self.old.about.limits.calls }
        requires unserved { IsUnserved self.old conn ended }
        requires unleft { IsRowOf self.old caller conn frame.now.sender }
        ensures value { result ≡ one_unserved ended }
        ensures due { (S : List Stamped) → DeskStands self.old S →
            unserved ended ≡ forward_reply self.old.about (entries S) conn frame.now.message [] }
        ensures stands { (S : List Stamped) → DeskStands self.old S →
            DeskStands self.new (S ++ plain (forward_entry caller conn frame.now.message [] (unserved ended)) ∷ []) }
        ensures about { self.new.about ≡ self.old.about }
        ensures rows { self.new.rows ≡ self.old.rows }
    {
        frame.has_route();
        let reply = one_unserved(ended);
        self.tally.add(counts_of(reply));
        reply
    }

    /// A unicast of a live sender is offered to its holder.
    fn send_one(&mut self, caller: u64, conn: u64, frame: Prepared) -> OneReply
        requires unicast { IsFalse (is_broadcast frame.message) }
        requires unleft { IsRowOf self.old caller conn frame.sender }
        requires some { (S : List Stamped) × DeskStands self.old S }
        requires calls { self.old.tally.made < self.old.about.limits.calls }
        requires goes_on { self.old.stopped_at ≡ None }
        requires current { end_of self.old conn ≡ None }
        ensures due { (S : List Stamped) → DeskStands self.old S →
            one_reply result ≡ forward_reply self.old.about (entries S) conn frame.message (one_looks result) }
        ensures stands { (S : List Stamped) → DeskStands self.old S →
            DeskStands self.new (S ++ plain (forward_entry caller conn frame.message (one_looks result) (one_reply result)) ∷ []) }
        ensures about { self.new.about ≡ self.old.about }
        ensures learns { Learns self.old (one_looks result) self.new }
    {
        frame.has_route();
        let to = frame.destination();
        let place = self.holder_near(to, self.directory.hints.place(to));
        self.directory.hints.keep(to, place);
        let reply = one_said(offer_to(&mut self.rows, place, frame.into_octets()));
        self.tally.add(counts_of(reply));
        reply
    }
}
