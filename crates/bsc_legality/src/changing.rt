//! Rows that change by an entry: each number that the entry names is looked up, and its row alone changes.
#![tactic(auto)]

ghost use Rattle.std.specs.Prelude.{◌≡◌, ◌<◌, ◌==◌, ◌^◌, [], ◌∷◌, IsTrue, None, Some, if◌then◌else◌, map, nat_lt};
ghost use Rattle.std.specs.List.{list_all};
ghost use Rattle.bsc_history.specs.Ends.{end_by_call, end_by_reply, is_one};
ghost use Rattle.bsc_legality.specs.Following.{NamesOnce, added_to, closed_as, given, once, seen};
ghost use Rattle.bsc_legality.specs.Rows.{rising};

use crate::row::Row;
use crate::rows::place_of;
use bsc_history::{Call, End, Look, Reply};

/// A look is the newest at its connection.
fn look_at(rows: &mut [Row], look: &Look)
    requires { IsTrue (rising rows.old) }
    ensures { rows.new ≡ map (seen (look.now ∷ [])) rows.old }
{
    match place_of(rows, look.conn) {
        Some(place) => {
            let row = &mut rows[place];
            row.looked = look.taken;
        }
        None => {}
    }
}

/// Looks, one after another.
pub(crate) fn look_at_all(rows: &mut [Row], looks: &[Look])
    requires { IsTrue (rising rows.old) }
    ensures { rows.new ≡ map (seen looks.now) rows.old }
{
    for look in looks {
        look_at(rows, look);
    }
}

/// One frame more entered the outbox of a connection.
fn add_to(rows: &mut [Row], conn: u64)
    requires rising { IsTrue (rising rows.old) }
    requires few { IsTrue (list_all (λ r. nat_lt r.entered (2 ^ 53)) rows.old) }
    ensures { rows.new ≡ map (added_to (conn ∷ [])) rows.old }
{
    match place_of(rows, conn) {
        Some(place) => {
            let row = &mut rows[place];
            row.entered += 1;
        }
        None => {}
    }
}

/// One frame more entered the outbox of each of some connections.
fn add_to_all(rows: &mut [Row], to: &[u64])
    requires rising { IsTrue (rising rows.old) }
    requires few { IsTrue (list_all (λ r. nat_lt r.entered (2 ^ 52)) rows.old) }
    requires once { IsTrue (once to.now) }
    ensures { rows.new ≡ map (added_to to.now) rows.old }
{
    for conn in to {
        add_to(rows, *conn);
    }
}

/// A frame entered the outboxes that a reply names.
pub(crate) fn give(rows: &mut [Row], reply: &Reply)
    requires rising { IsTrue (rising rows.old) }
    requires few { IsTrue (list_all (λ r. nat_lt r.entered (2 ^ 52)) rows.old) }
    requires once { NamesOnce reply.now }
    ensures { rows.new ≡ map (given reply.now) rows.old }
{
    match reply {
        Reply::Appended { conn } => add_to(rows, *conn),
        Reply::SentAll { to, .. } => add_to_all(rows, to.as_slice()),
        _ => {}
    }
}

/// A connection ends, unless it has.
fn close_one(rows: &mut [Row], conn: u64, ending: End)
    requires { IsTrue (rising rows.old) }
    ensures { rows.new ≡ map (λ r. closed_as (if conn == r.connection.number then Some ending else None) r) rows.old }
{
    match place_of(rows, conn) {
        Some(place) => {
            let row = &mut rows[place];
            row.ending = row.ending.or(Some(ending));
        }
        None => {}
    }
}

/// The connection given ends, if there is one, unless it has.
fn close_if(rows: &mut [Row], conn: Option<u64>, ending: End)
    requires { IsTrue (rising rows.old) }
    ensures { rows.new ≡ map (λ r. closed_as (if is_one r.connection.number conn then Some ending else None) r) rows.old }
{
    match conn {
        Some(conn) => close_one(rows, conn, ending),
        None => {}
    }
}

/// Each connection ends, unless it has.
fn close_each(rows: &mut [Row], ending: End)
    ensures { rows.new ≡ map (closed_as (Some ending)) rows.old }
{
    for row in rows.iter_mut() {
        row.ending = row.ending.or(Some(ending));
    }
}

/// Whom a call ends.
pub(crate) fn close_by_call(rows: &mut [Row], call: &Call)
    requires { IsTrue (rising rows.old) }
    ensures { rows.new ≡ map (λ r. closed_as (end_by_call r.connection.number call.now) r) rows.old }
{
    match call {
        Call::Leave { conn, .. } => close_one(rows, *conn, End::Left),
        Call::Stop => close_each(rows, End::Stopped),
        _ => {}
    }
}

/// Whom a reply says to have ended.
pub(crate) fn close_by_reply(rows: &mut [Row], reply: &Reply)
    requires { IsTrue (rising rows.old) }
    ensures { rows.new ≡ map (λ r. closed_as (end_by_reply r.connection.number reply.now) r) rows.old }
{
    match reply {
        Reply::Joined { replaced, .. } => close_if(rows, *replaced, End::Replaced),
        Reply::Closed { conn } => close_one(rows, *conn, End::Full),
        _ => {}
    }
}
