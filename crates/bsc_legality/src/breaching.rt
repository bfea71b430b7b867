//! The first condition that an entry breaks which isn't lawful behind a history, and what is due in its place.
//!
//! `deciding` says whether an entry is lawful, and takes no memory. This is asked of the one entry that isn't.
#![tactic(auto)]

ghost use Rattle.std.specs.Prelude.{◌≡◌, ◌++◌, ◌∷◌, [], List, filter, if◌then◌else◌, map, IfOk, IsTrue, MatchOption, OnOk};
ghost use Rattle.bsc_octets.specs.Forwarding.{has_route};
ghost use Rattle.bsc_history.specs.declared.call.Call.TheVariants.{Forward, Leave};
ghost use Rattle.bsc_history.specs.declared.entry.Entry.{Entry as EntryOf};
ghost use Rattle.bsc_history.specs.declared.limits.About.{About as AboutOf};
ghost use Rattle.bsc_legality.specs.Breaches.{breach};
ghost use Rattle.bsc_legality.specs.BreachesIn.{IsRouted, breach_in, call_breach_in, calls_breach_in, look_breach_in, outbox_breach_in};
ghost use Rattle.bsc_legality.specs.BreachesIn.{reply_breach_in, taken_breach_in};
ghost use Rattle.bsc_legality.specs.Deciding.{all_due, all_looked, all_skipped, conns, due, fares_so, looks_due, one_looked};
ghost use Rattle.bsc_legality.specs.Deciding.{sent_due, sent_looked};
ghost use Rattle.bsc_legality.specs.Rows.{rising};
ghost use Rattle.bsc_legality.specs.Standing.{LegalityStands};

use crate::breach::Breach;
use crate::comparing::{same_numbers, same_reply};
use crate::deciding::one_due;
use crate::legality::Legality;
use crate::matching::{fares_so, is_long, is_looked_at, is_skipped};
use crate::row::Row;
use crate::rows::{end_in, holder, is_of, row_of, vmac_in};
use bsc_history::{Call, Conns, Entry, Look, Reply};
use bsc_octets::{NoMemory, Vmac, destination, has_route, is_broadcast, out_length};
use std::alloc::Global;

// ---- what is due

/// Puts a number behind others, where a test passed.
fn push_if(numbers: &mut Vec<u64>, passes: bool, number: u64) -> Result<(), NoMemory>
    ensures { OnOk result (numbers.new.items ≡ numbers.old.items ++ (if passes then number ∷ [] else [])) }
{
    if passes {
        numbers.push(number)?;
    }
    Ok(())
}

/// The connections that are looked at.
fn conns_of(alloc: Global, looks: &[Look]) -> Result<Vec<u64>, NoMemory>
    ensures { IfOk result (λ v. v.items ≡ conns looks.now) }
{
    let mut numbers = Vec::with_capacity(alloc, looks.len())?;
    for look in looks.iter() {
        numbers.push(look.conn)?;
    }
    Ok(numbers)
}

/// The connections that a broadcast looks at.
fn all_looked(
    alloc: Global,
    sender: u64,
    size: usize,
    mut rows: &[Row],
) -> Result<Vec<u64>, NoMemory>
    ensures { IfOk result (λ v. v.items ≡ all_looked sender size rows.entry.now) }
{
    let mut numbers = Vec::new(alloc);
    while let [row, rest @ ..] = rows {
        push_if(
            &mut numbers,
            is_looked_at(row, sender, size),
            row.connection.number,
        )?;
        rows = rest;
    }
    Ok(numbers)
}

/// The connections for which a broadcast is too long.
fn all_skipped(
    alloc: Global,
    sender: u64,
    size: usize,
    mut rows: &[Row],
) -> Result<Vec<u64>, NoMemory>
    ensures { IfOk result (λ v. v.items ≡ all_skipped sender size rows.entry.now) }
{
    let mut numbers = Vec::new(alloc);
    while let [row, rest @ ..] = rows {
        push_if(
            &mut numbers,
            is_skipped(row, sender, size),
            row.connection.number,
        )?;
        rows = rest;
    }
    Ok(numbers)
}

/// The first look, and those after it.
fn first_look(looks: &[Look]) -> Option<(Look, &[Look])>
    ensures { MatchOption result (looks.now ≡ []) (λ (look, rest). looks.now ≡ look ∷ rest.now) }
{
    match looks {
        [look, rest @ ..] => Some((*look, rest)),
        [] => None,
    }
}

/// The connections whose outboxes the looks find full, or don't, as is asked.
fn all_faring(
    alloc: Global,
    full: bool,
    mut looks: &[Look],
    outbox: u32,
    rows: &[Row],
) -> Result<Vec<u64>, NoMemory>
    requires { IsTrue (rising rows.now) }
    ensures { IfOk result (λ v. v.items ≡ conns (filter (fares_so full outbox rows.now) looks.entry.now)) }
{
    let mut numbers = Vec::new(alloc);
    while let Some((look, rest)) = first_look(looks) {
        push_if(&mut numbers, fares_so(full, &look, outbox, rows), look.conn)?;
        looks = rest;
    }
    Ok(numbers)
}

/// The reply that a broadcast is due, by what its looks found.
fn all_due(
    alloc: Global,
    outbox: u32,
    sender: u64,
    size: usize,
    looks: &[Look],
    rows: &[Row],
) -> Result<Reply, NoMemory>
    requires { IsTrue (rising rows.now) }
    ensures { IfOk result (λ r. r ≡ all_due outbox sender size looks.now rows.now) }
{
    let to = all_faring(alloc, false, looks, outbox, rows)?;
    let missed = all_faring(alloc, true, looks, outbox, rows)?;
    let skipped = all_skipped(alloc, sender, size, rows)?;
    Ok(Reply::SentAll {
        to: Conns::from_vec(to),
        missed: Conns::from_vec(missed),
        skipped: Conns::from_vec(skipped),
    })
}

/// The connection that a unicast looks at.
fn one_looked(alloc: Global, size: usize, found: &Option<Row>) -> Result<Vec<u64>, NoMemory>
    ensures { IfOk result (λ v. v.items ≡ one_looked size found.now) }
{
    let mut numbers = Vec::new(alloc);
    match found {
        Some(row) => if is_long(row, size) {
            Ok(numbers)
        } else {
            numbers.push(row.connection.number)?;
            Ok(numbers)
        },
        None => Ok(numbers),
    }
}

/// The connections that a frame looks at, of which so many octets are passed on, where its sender goes on.
fn sent_looked(
    alloc: Global,
    rows: &[Row],
    sender: u64,
    frame: &[u8],
    size: usize,
) -> Result<Vec<u64>, NoMemory>
    requires { IsTrue (has_route frame.now) }
    ensures { IfOk result (λ v. v.items ≡ sent_looked rows.now sender frame.now size) }
{
    if is_broadcast(frame) {
        all_looked(alloc, sender, size, rows)
    } else {
        let found = holder(rows, destination(frame));
        one_looked(alloc, size, &found)
    }
}

/// The reply that such a frame is due.
fn sent_due(
    alloc: Global,
    outbox: u32,
    rows: &[Row],
    sender: u64,
    frame: &[u8],
    size: usize,
    looks: &[Look],
) -> Result<Reply, NoMemory>
    requires rising { IsTrue (rising rows.now) }
    requires route { IsTrue (has_route frame.now) }
    ensures { IfOk result (λ r. r ≡ sent_due outbox rows.now sender frame.now size looks.now) }
{
    if is_broadcast(frame) {
        all_due(alloc, outbox, sender, size, looks, rows)
    } else {
        let found = holder(rows, destination(frame));
        Ok(one_due(outbox, size, looks, &found))
    }
}

// ---- looks

/// What is broken by a look at a connection that finds so many taken, by its row.
fn taken_breach(row: Option<Row>, conn: u64, taken: u64) -> Option<Breach>
    ensures { result ≡ taken_breach_in row conn taken }
{
    match row {
        Some(row) => if row.looked <= taken && taken <= row.entered {
            None
        } else {
            Some(Breach::Taken {
                conn,
                taken,
                least: row.looked,
                most: row.entered,
            })
        },
        None => Some(Breach::Taken {
            conn,
            taken,
            least: 0,
            most: 0,
        }),
    }
}

/// What is broken by the first look that can't be.
fn look_breach(rows: &[Row], mut looks: &[Look]) -> Option<Breach>
    requires { IsTrue (rising rows.now) }
    ensures { result ≡ look_breach_in rows.now looks.entry.now }
{
    while let [look, rest @ ..] = looks {
        if let Some(breach) = taken_breach(row_of(rows, look.conn), look.conn, look.taken) {
            return Some(breach);
        }
        looks = rest;
    }
    None
}

impl Legality {
    // ---- calls

    /// What is broken by one call more.
    fn calls_breach(&self) -> Option<Breach>
        ensures { result ≡ calls_breach_in self.now }
    {
        let limit = self.about.limits.calls;
        if self.entries < limit {
            None
        } else {
            Some(Breach::Calls { limit })
        }
    }

    /// What is broken by a frame that a caller forwards.
    fn forward_breach(&self, caller: u64, conn: u64, frame: &[u8]) -> Option<Breach>
        requires { IsTrue (rising self.now.rows.items) }
        ensures { result ≡ call_breach_in self.now caller (Forward conn frame.now) }
    {
        if !is_of(self.rows.as_slice(), caller, conn) {
            return Some(Breach::NotOwn { conn });
        }
        if has_route(frame) {
            self.calls_breach()
        } else {
            Some(Breach::NoRoute)
        }
    }

    /// What is broken by a caller's connection that leaves.
    fn leave_breach(&self, caller: u64, conn: u64, taken: u64, empties: u64) -> Option<Breach>
        requires { IsTrue (rising self.now.rows.items) }
        ensures { result ≡ call_breach_in self.now caller (Leave conn taken empties) }
    {
        let _empties = empties;
        if is_of(self.rows.as_slice(), caller, conn) {
            taken_breach(row_of(self.rows.as_slice(), conn), conn, taken)
        } else {
            Some(Breach::NotOwn { conn })
        }
    }

    /// What is broken by a caller that makes a call.
    fn call_breach(&self, caller: u64, call: &Call) -> Option<Breach>
        requires { IsTrue (rising self.now.rows.items) }
        ensures { result ≡ call_breach_in self.now caller call.now }
    {
        match call {
            Call::Connect { who } => if who.vmac == Vmac::ZERO || who.vmac == Vmac::BROADCAST {
                Some(Breach::Address)
            } else {
                self.calls_breach()
            },
            Call::Forward { conn, frame } => self.forward_breach(caller, *conn, frame.as_slice()),
            Call::Leave {
                conn,
                taken,
                empties,
            } => self.leave_breach(caller, *conn, *taken, *empties),
            Call::Stop => if self.stopped {
                Some(Breach::AfterStop)
            } else {
                None
            },
            Call::Count => self.calls_breach(),
        }
    }

    // ---- outboxes

    /// The connections that a forward is to look at.
    fn forward_looks(&self, alloc: Global, sender: u64, frame: &[u8]) -> Result<Vec<u64>, NoMemory>
        requires rising { IsTrue (rising self.now.rows.items) }
        requires route { IsTrue (has_route frame.now) }
        ensures { IfOk result (λ v. v.items ≡ looks_due self.now (Forward sender frame.now)) }
    {
        if self.stopped {
            return Ok(Vec::new(alloc));
        }
        match end_in(row_of(self.rows.as_slice(), sender)) {
            Some(_) => Ok(Vec::new(alloc)),
            None => {
                let from = vmac_in(row_of(self.rows.as_slice(), sender));
                sent_looked(
                    alloc,
                    self.rows.as_slice(),
                    sender,
                    frame,
                    out_length(frame, from),
                )
            }
        }
    }

    /// The connections that a call is to look at.
    fn looks_due(&self, alloc: Global, call: &Call) -> Result<Vec<u64>, NoMemory>
        requires rising { IsTrue (rising self.now.rows.items) }
        requires routed { IsRouted call.now }
        ensures { IfOk result (λ v. v.items ≡ looks_due self.now call.now) }
    {
        match call {
            Call::Forward { conn, frame } => self.forward_looks(alloc, *conn, frame.as_slice()),
            Call::Connect { .. } => Ok(Vec::new(alloc)),
            Call::Leave { .. } => Ok(Vec::new(alloc)),
            Call::Stop => Ok(Vec::new(alloc)),
            Call::Count => Ok(Vec::new(alloc)),
        }
    }

    /// What is broken by a call that looks so.
    fn outbox_breach(
        &self,
        alloc: Global,
        call: &Call,
        looks: &[Look],
    ) -> Result<Option<Breach>, NoMemory>
        requires rising { IsTrue (rising self.now.rows.items) }
        requires routed { IsRouted call.now }
        ensures { IfOk result (λ o. o ≡ outbox_breach_in self.now call.now looks.now) }
    {
        let at = conns_of(alloc, looks)?;
        let due = self.looks_due(alloc, call)?;
        if same_numbers(at.as_slice(), due.as_slice()) {
            Ok(None)
        } else {
            Ok(Some(Breach::Outboxes {
                due: Conns::from_vec(due),
            }))
        }
    }

    // ---- replies

    /// The reply that a forward is due.
    fn forward_due(
        &self,
        alloc: Global,
        sender: u64,
        frame: &[u8],
        looks: &[Look],
    ) -> Result<Reply, NoMemory>
        requires rising { IsTrue (rising self.now.rows.items) }
        requires route { IsTrue (has_route frame.now) }
        ensures { IfOk result (λ r. r ≡ due self.now (Forward sender frame.now) looks.now) }
    {
        if self.stopped {
            return Ok(Reply::Stopped);
        }
        match end_in(row_of(self.rows.as_slice(), sender)) {
            Some(ending) => Ok(Reply::NotCurrent { ending }),
            None => {
                let from = vmac_in(row_of(self.rows.as_slice(), sender));
                sent_due(
                    alloc,
                    self.about.limits.outbox,
                    self.rows.as_slice(),
                    sender,
                    frame,
                    out_length(frame, from),
                    looks,
                )
            }
        }
    }

    /// The reply that a call is due.
    fn due(&self, alloc: Global, call: &Call, looks: &[Look]) -> Result<Reply, NoMemory>
        requires rising { IsTrue (rising self.now.rows.items) }
        requires routed { IsRouted call.now }
        ensures { IfOk result (λ r. r ≡ due self.now call.now looks.now) }
    {
        match call {
            Call::Connect { who } => Ok(self.connect_due(who)),
            Call::Forward { conn, frame } => {
                self.forward_due(alloc, *conn, frame.as_slice(), looks)
            }
            Call::Leave {
                conn,
                taken,
                empties,
            } => Ok(self.leave_due(*conn, *taken, *empties)),
            Call::Stop => Ok(Reply::Counted(self.counts)),
            Call::Count => Ok(Reply::Counted(self.counts)),
        }
    }

    /// What is broken by the reply of an entry.
    fn reply_breach(&self, alloc: Global, entry: &Entry) -> Result<Option<Breach>, NoMemory>
        requires rising { IsTrue (rising self.now.rows.items) }
        requires routed { IsRouted entry.now.call }
        ensures { IfOk result (λ o. o ≡ reply_breach_in self.now entry.now) }
    {
        let reply = self.due(alloc, &entry.call, entry.looks.as_slice())?;
        if same_reply(&entry.reply, &reply) {
            Ok(None)
        } else {
            Ok(Some(Breach::Due { reply }))
        }
    }

    // ---- all

    /// What is broken by an entry, beside what its caller may.
    fn entry_breach(&self, alloc: Global, entry: &Entry) -> Result<Option<Breach>, NoMemory>
        requires rising { IsTrue (rising self.now.rows.items) }
        requires called { call_breach_in self.now entry.now.caller entry.now.call ≡ None }
        ensures { IfOk result (λ o. o ≡ breach_in self.now entry.now) }
    {
        let looks = entry.looks.as_slice();
        if let Some(breach) = self.outbox_breach(alloc, &entry.call, looks)? {
            return Ok(Some(breach));
        }
        if let Some(breach) = look_breach(self.rows.as_slice(), looks) {
            return Ok(Some(breach));
        }
        self.reply_breach(alloc, entry)
    }

    /// The first condition that an entry breaks behind the history that the state stands for; None of one that breaks none, with
    /// which the history is legal. Memory is taken for what is due in its place: a few numbers of each row.
    pub fn breach(&self, alloc: Global, entry: &Entry) -> Result<Option<Breach>, NoMemory>
        requires { (about : AboutOf) × (H : List EntryOf) × LegalityStands self.now about H }
        ensures { IfOk result (λ o. (about : AboutOf) (H : List EntryOf) → LegalityStands self.now about H →
            o ≡ breach about H entry.now) }
    {
        match self.call_breach(entry.caller, &entry.call) {
            Some(breach) => Ok(Some(breach)),
            None => self.entry_breach(alloc, entry),
        }
    }
}
