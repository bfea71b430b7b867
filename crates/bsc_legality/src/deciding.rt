//! Whether the history with an entry more is still legal.
#![tactic(auto)]

ghost use Rattle.std.specs.Prelude.{◌≡◌, ◌&&◌, Bool, List, [], ◌∷◌, IfSome, IsTrue, Some};
ghost use Rattle.std.specs.List.{list_all};
ghost use Rattle.std.specs.Option.{option_map};
ghost use Rattle.bsc_octets.specs.Forwarding.{has_route};
ghost use Rattle.bsc_history.specs.declared.call.Call.TheVariants.{Connect, Forward, Leave};
ghost use Rattle.bsc_history.specs.declared.looks.Look.{Look};
ghost use Rattle.bsc_history.specs.Replies.{number_of, rival};
ghost use Rattle.bsc_legality.specs.Deciding.{accepts, all_due, all_looked, can_all, conns, connect_due, due, first_reply, is_full_at};
ghost use Rattle.bsc_legality.specs.Deciding.{may_call_in, one_due, one_looked, says_due, serves};
ghost use Rattle.bsc_legality.specs.Rows.{AreAlone, connection, holder_in, rising};
ghost use Rattle.bsc_legality.specs.Sameness.{same_numbers, same_reply};

use crate::comparing::same_reply;
use crate::legality::Legality;
use crate::matching::{are_looked_at, are_skipped, can_all, have_fared, is_long};
use crate::row::Row;
use crate::rows::{can_find, end_in, holder, is_of, is_open, of_device, row_of, vmac_in};
use bsc_history::{Call, End, Entry, Look, Looks, Refusal, Reply};
use bsc_octets::{Identity, Vmac, destination, has_route, is_broadcast, out_length};

/// The connection that holds the address of `who` with another device.
fn rival(who: &Identity, held: Option<Row>) -> Option<u64>
    ensures { result ≡ rival who.now (option_map connection held) }
{
    match held {
        Some(row) => if row.connection.who.device == who.device {
            None
        } else {
            Some(row.connection.number)
        },
        None => None,
    }
}

/// The number of a row's connection.
fn number_of(found: Option<Row>) -> Option<u64>
    ensures { result ≡ number_of (option_map connection found) }
{
    match found {
        Some(row) => Some(row.connection.number),
        None => None,
    }
}

/// The first case that holds.
fn first_case(
    stopped: bool,
    is_hub: bool,
    rival: Option<u64>,
    is_full: bool,
    rows: u64,
    joined: Reply,
) -> Reply
    ensures { result ≡ first_reply stopped is_hub rival is_full rows joined }
{
    if stopped {
        return Reply::Refused(Refusal::Stopped);
    }
    if is_hub {
        return Reply::Refused(Refusal::Duplicate { holder: None });
    }
    match rival {
        Some(conn) => Reply::Refused(Refusal::Duplicate { holder: Some(conn) }),
        None => if is_full {
            Reply::Refused(Refusal::TableFull { rows })
        } else {
            joined
        },
    }
}

/// Whether a call that looks at nobody looked at nobody, and its reply is the one that is due.
fn is_due(looks: &Looks, reply: &Reply, due: &Reply) -> bool
    ensures { (p : Look → Bool) → result ≡ (same_numbers (conns looks.now) [] && (list_all p looks.now && same_reply reply.now due.now)) }
{
    looks.is_empty() && same_reply(reply, due)
}

/// The connection that a unicast's reply names as its holder, if it names one.
fn named_in(reply: &Reply) -> Option<u64> {
    match reply {
        Reply::Appended { conn } => Some(*conn),
        Reply::Closed { conn } => Some(*conn),
        Reply::Skipped { conn } => Some(*conn),
        _ => None,
    }
}

/// The row of a connection, where it is the live one that holds an address.
fn holder_if(rows: &[Row], vmac: Vmac, conn: Option<u64>) -> Option<Row>
    requires rising { IsTrue (rising rows.now) }
    requires alone { AreAlone rows.now }
    ensures { IfSome result (λ r. holder_in rows.now vmac ≡ Some r) }
{
    let Some(conn) = conn else {
        return None;
    };
    match row_of(rows, conn) {
        Some(row) => if is_open(&row) && row.connection.who.vmac == vmac {
            Some(row)
        } else {
            None
        },
        None => None,
    }
}

/// The row of the live connection that holds an address. The one that the reply names is looked at first.
fn holder_by(rows: &[Row], vmac: Vmac, reply: &Reply) -> Option<Row>
    requires rising { IsTrue (rising rows.now) }
    requires alone { AreAlone rows.now }
    ensures { result ≡ holder_in rows.now vmac }
{
    match holder_if(rows, vmac, named_in(reply)) {
        Some(row) => Some(row),
        None => holder(rows, vmac),
    }
}

/// Whether some of the looks find the outbox of a row full.
fn is_full(outbox: u32, looks: &[Look], row: &Row) -> bool
    ensures { result ≡ is_full_at outbox looks.now row.now }
{
    looks.iter().any(|look| look.conn == row.connection.number
        && row.entered.saturating_sub(look.taken) == u64::from(outbox))
}

/// Whether there is one look, at this connection.
fn is_one_look(looks: &[Look], conn: u64) -> bool
    ensures { result ≡ same_numbers (conns looks.now) (conn ∷ []) }
{
    match looks {
        [look] => look.conn == conn,
        _ => false,
    }
}

/// Whether a unicast looked at whom it is to look at.
fn looked_at_one(looks: &[Look], size: usize, found: &Option<Row>) -> bool
    ensures { result ≡ same_numbers (conns looks.now) (one_looked size found.now) }
{
    match found {
        Some(row) => if is_long(row, size) {
            looks.is_empty()
        } else {
            is_one_look(looks, row.connection.number)
        },
        None => looks.is_empty(),
    }
}

/// The reply that a unicast is due.
pub(crate) fn one_due(outbox: u32, size: usize, looks: &[Look], found: &Option<Row>) -> Reply
    ensures { result ≡ one_due outbox size looks.now found.now }
{
    match found {
        None => Reply::NoHolder,
        Some(row) => {
            let conn = row.connection.number;
            if is_long(row, size) {
                Reply::Skipped { conn }
            } else if is_full(outbox, looks, row) {
                Reply::Closed { conn }
            } else {
                Reply::Appended { conn }
            }
        }
    }
}

/// Whether a unicast looked at whom it is to look at, and is told what it is due.
fn serves_one(
    outbox: u32,
    rows: &[Row],
    size: usize,
    looks: &[Look],
    reply: &Reply,
    found: &Option<Row>,
) -> bool
    requires { IsTrue (rising rows.now) }
    ensures { result ≡ (same_numbers (conns looks.now) (one_looked size found.now)
        && (can_all rows.now looks.now && same_reply reply.now (one_due outbox size looks.now found.now))) }
{
    looked_at_one(looks, size, found)
        && (can_all(rows, looks) && same_reply(reply, &one_due(outbox, size, looks, found)))
}

/// Whether a broadcast fared as its reply says.
fn is_all_due(
    outbox: u32,
    rows: &[Row],
    sender: u64,
    size: usize,
    looks: &[Look],
    reply: &Reply,
) -> bool
    requires { IsTrue (rising rows.now) }
    ensures { result ≡ same_reply reply.now (all_due outbox sender size looks.now rows.now) }
{
    match reply {
        Reply::SentAll {
            to,
            missed,
            skipped,
        } => have_fared(false, to.as_slice(), looks, outbox, rows)
            && (have_fared(true, missed.as_slice(), looks, outbox, rows)
                && are_skipped(skipped.as_slice(), sender, size, rows)),
        _ => false,
    }
}

/// Whether a broadcast looked at whom it is to look at, and is told what it is due.
fn serves_all(
    outbox: u32,
    rows: &[Row],
    sender: u64,
    size: usize,
    looks: &[Look],
    reply: &Reply,
) -> bool
    requires { IsTrue (rising rows.now) }
    ensures { result ≡ (same_numbers (conns looks.now) (all_looked sender size rows.now)
        && (can_all rows.now looks.now && same_reply reply.now (all_due outbox sender size looks.now rows.now))) }
{
    are_looked_at(looks, sender, size, rows)
        && (can_all(rows, looks) && is_all_due(outbox, rows, sender, size, looks, reply))
}

/// The same of a frame, whichever it is, of which so many octets are passed on.
fn serves(
    outbox: u32,
    rows: &[Row],
    sender: u64,
    frame: &[u8],
    size: usize,
    looks: &[Look],
    reply: &Reply,
) -> bool
    requires rising { IsTrue (rising rows.now) }
    requires alone { AreAlone rows.now }
    requires route { IsTrue (has_route frame.now) }
    ensures { result ≡ serves outbox rows.now sender frame.now size looks.now reply.now }
{
    if is_broadcast(frame) {
        serves_all(outbox, rows, sender, size, looks, reply)
    } else {
        let found = holder_by(rows, destination(frame), reply);
        serves_one(outbox, rows, size, looks, reply, &found)
    }
}

impl Legality {
    /// The reply that a connect is due.
    pub(crate) fn connect_due(&self, who: &Identity) -> Reply
        ensures { result ≡ connect_due self.now who.now }
    {
        let rows = self.rows.as_slice();
        let limit = self.about.limits.rows;
        let joined = Reply::Joined {
            conn: 1 + self.counts.joined,
            replaced: number_of(of_device(rows, &who.device)),
        };
        first_case(
            self.stopped,
            who.vmac == self.about.hub.vmac,
            rival(who, holder(rows, who.vmac)),
            limit as usize <= self.rows.len(),
            limit as u64,
            joined,
        )
    }

    /// Whether a caller may connect so.
    fn may_connect(&self, caller: u64, who: &Identity) -> bool
        ensures { result ≡ may_call_in self.now caller (Connect who.now) }
    {
        let _caller = caller;
        who.vmac != Vmac::ZERO
            && who.vmac != Vmac::BROADCAST
            && self.entries < self.about.limits.calls
    }

    /// Whether a caller may forward a frame so.
    fn may_forward(&self, caller: u64, conn: u64, frame: &[u8]) -> bool
        requires { IsTrue (rising self.now.rows.items) }
        ensures { result ≡ may_call_in self.now caller (Forward conn frame.now) }
    {
        is_of(self.rows.as_slice(), caller, conn)
            && has_route(frame)
            && self.entries < self.about.limits.calls
    }

    /// Whether a caller's connection may leave so.
    fn may_leave(&self, caller: u64, conn: u64, taken: u64, empties: u64) -> bool
        requires { IsTrue (rising self.now.rows.items) }
        ensures { result ≡ may_call_in self.now caller (Leave conn taken empties) }
    {
        let _empties = empties;
        is_of(self.rows.as_slice(), caller, conn)
            && can_find(row_of(self.rows.as_slice(), conn), taken)
    }

    /// The reply that a leave is due.
    pub(crate) fn leave_due(&self, conn: u64, taken: u64, empties: u64) -> Reply
        requires { IsTrue (rising self.now.rows.items) }
        ensures { result ≡ due self.now (Leave conn taken empties) [] }
    {
        let _empties = empties;
        Reply::Gone {
            ending: end_in(row_of(self.rows.as_slice(), conn)).unwrap_or(End::Left),
            taken,
        }
    }

    /// Whether a forward looked at whom it is to look at, and is told what it is due.
    fn forwards(&self, sender: u64, frame: &[u8], looks: &Looks, reply: &Reply) -> bool
        requires rising { IsTrue (rising self.now.rows.items) }
        requires alone { AreAlone self.now.rows.items }
        requires route { IsTrue (has_route frame.now) }
        ensures { result ≡ says_due self.now (Forward sender frame.now) looks.now reply.now }
    {
        if self.stopped {
            return is_due(looks, reply, &Reply::Stopped);
        }
        match end_in(row_of(self.rows.as_slice(), sender)) {
            Some(ending) => is_due(looks, reply, &Reply::NotCurrent { ending }),
            None => {
                let from = vmac_in(row_of(self.rows.as_slice(), sender));
                serves(
                    self.about.limits.outbox,
                    self.rows.as_slice(),
                    sender,
                    frame,
                    out_length(frame, from),
                    looks.as_slice(),
                    reply,
                )
            }
        }
    }

    /// Whether an entry is lawful after the history.
    pub(crate) fn accepts(&self, entry: &Entry) -> bool
        requires rising { IsTrue (rising self.now.rows.items) }
        requires alone { AreAlone self.now.rows.items }
        ensures { result ≡ accepts self.now entry.now }
    {
        let looks = &entry.looks;
        let reply = &entry.reply;
        match &entry.call {
            Call::Connect { who } => self.may_connect(entry.caller, who)
                && is_due(looks, reply, &self.connect_due(who)),
            Call::Forward { conn, frame } => self.may_forward(entry.caller, *conn, frame.as_slice())
                && self.forwards(*conn, frame.as_slice(), looks, reply),
            Call::Leave {
                conn,
                taken,
                empties,
            } => self.may_leave(entry.caller, *conn, *taken, *empties)
                && is_due(looks, reply, &self.leave_due(*conn, *taken, *empties)),
            Call::Stop => !self.stopped && is_due(looks, reply, &Reply::Counted(self.counts)),
            Call::Count => self.entries < self.about.limits.calls
                && is_due(looks, reply, &Reply::Counted(self.counts)),
        }
    }
}
