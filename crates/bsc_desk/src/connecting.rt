//! Connects.
#![tactic(auto)]

ghost use Rattle.std.specs.Prelude.{◌≡◌, ◌<◌, ℕ, ◌+◌, ◌++◌, ◌&&◌, Bool, false, ◌∷◌, [], List, length, position, find, vec_len, None};
ghost use Rattle.std.specs.Prelude.{IfErr, IfSome, IsTrue, IsFalse};
ghost use Rattle.std.specs.List.{list_all};
ghost use Rattle.std.specs.Option.{option_map};
ghost use Rattle.bsc_octets.specs.Addresses.{same_vmac, same_device, zero_vmac, broadcast};
ghost use Rattle.bsc_history.specs.declared.mark.Mark.{Mark};
ghost use Rattle.bsc_history.specs.declared.mark.Stamped.{Stamped};
ghost use Rattle.bsc_history.specs.declared.reply.Reply.TheVariants.{Joined as JoinedReply, Refused as RefusedReply};
ghost use Rattle.bsc_history.specs.Entries.{moment};
ghost use Rattle.bsc_history.specs.Legality.{Lawful};
ghost use Rattle.bsc_history.specs.Marks.{entries};
ghost use Rattle.bsc_history.specs.Replies.{connect_reply, rival, number_of};
ghost use Rattle.bsc_ring.specs.Ends.{IsNewInlet, capacity_of, inlet_mark};
ghost use Rattle.bsc_desk.specs.declared.row.Row.{Row};
ghost use Rattle.bsc_desk.specs.Rows.{known_of};
ghost use Rattle.bsc_desk.specs.Standing.{DeskStands};
ghost use Rattle.bsc_desk.specs.Live.{connection, is_open};
ghost use Rattle.bsc_desk.specs.Directories.{gives_place};
ghost use Rattle.bsc_desk.specs.Choices.{choice_reply, first_reply, IfJoined};
ghost use Rattle.bsc_desk.specs.Entries.{connect_said, connect_due, connect_adds, connect_entry, connect_stamped, SaysLimit};

use crate::desk::Desk;
use crate::row::Row;
use crate::rows::finish;
use crate::tally::{NOTHING, one_if};
use bsc_history::{Connection, Counts, End, Refusal, Worn};
use bsc_octets::{DeviceId, Identity, Vmac};
use bsc_ring::Inlet;
use thiserror::Error;

/// A new row: its number, and the connection that it replaced.
#[derive(Clone, Copy, Debug, PartialEq, Eq)]
pub struct NewRow {
    pub conn: u64,
    pub replaced: Option<u64>,
}

/// Why a connect made no row.
#[derive(Clone, Copy, Debug, PartialEq, Eq, Error)]
pub enum NoRow {
    /// The hub has made as many calls as it may; no entry was made.
    #[error("the hub has made as many calls as it may")]
    Worn(Worn),
    /// The refusal is an entry.
    #[error("the connect was refused")]
    Refused(Refusal),
}

/// What a connect comes to.
#[derive(Clone, Copy, Debug, PartialEq, Eq)]
pub(crate) enum Choice {
    Refused(Refusal),
    Joined(NewRow),
}

/// The connection of the row at a place, if there is one.
fn connection_at(rows: &[Row], place: Option<usize>) -> Option<Connection>
    requires { IfSome place (λ i. i < length rows.now) }
    ensures { (p : Row → Bool) → place ≡ position p rows.now → result ≡ option_map connection (find p rows.now) }
{
    match place {
        Some(place) => Some(rows[place].connection),
        None => None,
    }
}

/// The connection that holds the address of `who` with another device.
fn rival(who: &Identity, held: Option<Connection>) -> Option<u64>
    ensures { result ≡ rival who.now held }
{
    match held {
        Some(connection) => if connection.who.device == who.device {
            None
        } else {
            Some(connection.number)
        },
        None => None,
    }
}

fn number_of(found: Option<Connection>) -> Option<u64>
    ensures { result ≡ number_of found }
{
    match found {
        Some(connection) => Some(connection.number),
        None => None,
    }
}

/// The first case that holds.
fn first_case(
    stopped: bool,
    is_hub: bool,
    rival: Option<u64>,
    is_full: bool,
    rows: u64,
    joined: NewRow,
) -> Choice
    ensures reply { choice_reply result ≡ first_reply stopped is_hub rival is_full rows (JoinedReply joined.conn joined.replaced) }
    ensures room { IfJoined result (λ row. is_full ≡ false) }
    ensures rival { IfJoined result (λ row. rival ≡ None) }
    ensures row { IfJoined result (λ row. row ≡ joined) }
{
    if stopped {
        return Choice::Refused(Refusal::Stopped);
    }
    if is_hub {
        return Choice::Refused(Refusal::Duplicate { holder: None });
    }
    match rival {
        Some(conn) => Choice::Refused(Refusal::Duplicate { holder: Some(conn) }),
        None => if is_full {
            Choice::Refused(Refusal::TableFull { rows })
        } else {
            Choice::Joined(joined)
        },
    }
}

impl Desk {
    /// Joins a caller under `who`, or says why not. The first of these holds: worn; the hub has stopped;
    /// the VMAC is the hub's own, or is held by a live connection of another device; as many connections
    /// haven't left as the hub has rows; else it joins, in place of the live connection of its device,
    /// which ends as Replaced. A refused inlet comes back. No memory is taken.
    pub fn connect(
        &mut self,
        caller: u64,
        who: Identity,
        inlet: Inlet,
    ) -> Result<NewRow, (NoRow, Inlet)>
        requires not_zero { IsFalse (same_vmac who.vmac zero_vmac) }
        requires not_broadcast { IsFalse (same_vmac who.vmac broadcast) }
        requires new_inlet { IsNewInlet inlet }
        requires capacity { capacity_of inlet ≡ self.old.about.limits.outbox }

        // What is answered is what the definition of replies asks for, after each history.
        ensures due { (S : List Stamped) → DeskStands self.old S →
            connect_said result ≡ connect_due self.old.about (entries S) who }

        // With the entry of a connect that joined, the history keeps the mark of the inlet.
        ensures stands { (S : List Stamped) → DeskStands self.old S →
            DeskStands self.new (S ++ connect_adds caller who (inlet_mark inlet) (connect_said result)) }
        ensures about { self.new.about ≡ self.old.about }
        ensures known { (c : ℕ) → known_of self.new c ≡ known_of self.old c }
        ensures back { IfErr result (λ (_, back). back ≡ inlet) }
        ensures worn { connect_said result ≡ None → self.new ≡ self.old }
        ensures limit { IfErr result (λ (why, _). SaysLimit why self.old.about.limits.calls) }
    {
        let calls = self.about.limits.calls;
        if calls <= self.tally.made {
            return Err((NoRow::Worn(Worn { calls }), inlet));
        }
        match self.choose(&who) {
            Choice::Refused(refusal) => {
                self.refuse(caller, who, refusal);
                Err((NoRow::Refused(refusal), inlet))
            }
            Choice::Joined(row) => {
                self.join(caller, who, row, inlet);
                Ok(row)
            }
        }
    }

    /// The live connection that holds an address.
    fn holder(&self, v: Vmac) -> Option<Connection>
        ensures { result ≡ option_map connection (find (λ r. is_open r && same_vmac r.connection.who.vmac v) self.now.rows.items) }
    {
        connection_at(self.rows.as_slice(), self.holder_place(v))
    }

    /// The live connection of a device.
    fn of_device(&self, device: &DeviceId) -> Option<Connection>
        ensures { result ≡ option_map connection (find (λ r. is_open r && same_device r.connection.who.device device.now) self.now.rows.items) }
    {
        connection_at(self.rows.as_slice(), self.device_place(device))
    }

    /// The reply of a connect after every history that the desk stands for.
    fn choose(&self, who: &Identity) -> Choice
        ensures reply { (S : List Stamped) → DeskStands self.now S →
            choice_reply result ≡ connect_reply self.now.about (entries S) who.now }
        ensures room { IfJoined result (λ row. vec_len self.now.rows < self.now.about.limits.rows) }
        ensures number { IfJoined result (λ row. row.conn ≡ 1 + self.now.tally.counts.joined) }

        // No live connection but the one replaced has the address or the device.
        ensures free { IfJoined result (λ row. IsTrue (list_all (gives_place who.now row.replaced) self.now.rows.items)) }
    {
        let held = rival(who, self.holder(who.vmac));
        let joined = NewRow {
            conn: 1 + self.tally.counts.joined,
            replaced: number_of(self.of_device(&who.device)),
        };
        let limit = self.about.limits.rows;
        first_case(
            self.stopped_at.is_some(),
            who.vmac == self.about.hub.vmac,
            held,
            limit as usize <= self.rows.len(),
            limit as u64,
            joined,
        )
    }

    /// A refused connect adds its entry, and changes nothing else.
    fn refuse(&mut self, caller: u64, who: Identity, refusal: Refusal)
        requires calls { self.old.tally.made < self.old.about.limits.calls }
        ensures stands { (S : List Stamped) (m : Mark) → DeskStands self.old S →
            Lawful self.old.about (moment (entries S) (connect_entry caller who (RefusedReply refusal))) →
            DeskStands self.new (S ++ connect_stamped caller who m (RefusedReply refusal) ∷ []) }
        ensures about { self.new.about ≡ self.old.about }
        ensures rows { self.new.rows ≡ self.old.rows }
    {
        self.tally.add(Counts {
            refused: 1,
            ..NOTHING
        });
    }

    /// A join adds its entry and its row, and ends the connection that it replaces.
    fn join(&mut self, caller: u64, who: Identity, row: NewRow, inlet: Inlet)
        requires calls { self.old.tally.made < self.old.about.limits.calls }
        requires room { vec_len self.old.rows < self.old.about.limits.rows }
        requires new_inlet { IsNewInlet inlet }
        requires capacity { capacity_of inlet ≡ self.old.about.limits.outbox }
        requires number { row.conn ≡ 1 + self.old.tally.counts.joined }
        requires free { IsTrue (list_all (gives_place who row.replaced) self.old.rows.items) }
        ensures stands { (S : List Stamped) → DeskStands self.old S →
            Lawful self.old.about (moment (entries S) (connect_entry caller who (JoinedReply row.conn row.replaced))) →
            DeskStands self.new (S ++ connect_stamped caller who (inlet_mark inlet) (JoinedReply row.conn row.replaced) ∷ []) }
        ensures about { self.new.about ≡ self.old.about }
        ensures known { (c : ℕ) → known_of self.new c ≡ known_of self.old c }
    {
        finish(&mut self.rows, row.replaced, End::Replaced);
        let connection = Connection {
            number: row.conn,
            caller,
            who,
        };
        self.directory.enter(&connection);
        self.rows.push_reserved(Row {
            connection,
            inlet,
            ending: None,
        });
        self.tally.add(Counts {
            joined: 1,
            replaced: one_if(row.replaced.is_some()),
            ..NOTHING
        });
    }
}
