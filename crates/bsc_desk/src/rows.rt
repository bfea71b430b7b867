//! Finding rows by the number of a connection, by the address that it holds, and by its device. Rows stand in the order of
//! their numbers.
#![tactic(auto)]

ghost use Rattle.std.specs.Prelude.{◌≡◌, ◌≢◌, ◌==◌, ◌&&◌, true, position, find, Some, vec_len, vec_capacity, IsTrue};
ghost use Rattle.bsc_history.specs.declared.ending.End.TheVariants.{Left};
ghost use Rattle.bsc_octets.specs.Addresses.{same_device, same_vmac};
ghost use Rattle.bsc_desk.specs.Orders.{address_of, in_order};
ghost use Rattle.bsc_desk.specs.Rising.{rises};
ghost use Rattle.bsc_desk.specs.Changes.{EachBecomes, FinishesIf};
ghost use Rattle.bsc_desk.specs.Directories.{gives_way, live_place, open_place};
ghost use Rattle.bsc_desk.specs.Live.{end_in, is_open, is_row};

use crate::desk::Desk;
use crate::row::Row;
use bsc_history::{Connection, End};
use bsc_octets::{DeviceId, Vmac};

/// Whether the row at a place is that of a connection.
fn stands_at(rows: &[Row], conn: u64, place: usize) -> bool
    requires { IsTrue (in_order rises rows.now) }
    ensures { IsTrue result → position (λ r. r.connection.number == conn) rows.now ≡ Some place }
{
    place < rows.len() && rows[place].connection.number == conn
}

/// Whether a row is that of the live connection that holds an address.
fn is_holder(row: &Row, v: Vmac) -> bool
    ensures { result ≡ (is_open row.now && same_vmac row.now.connection.who.vmac v) }
{
    row.is_open() && row.connection.who.vmac == v
}

/// Whether the row at a place is that of the live connection that holds an address.
fn holds_at(rows: &[Row], v: Vmac, place: usize) -> bool
    requires { IsTrue (in_order (gives_way address_of) rows.now) }
    ensures { IsTrue result → position (λ r. is_open r && same_vmac r.connection.who.vmac v) rows.now ≡ Some place }
{
    place < rows.len() && is_holder(&rows[place], v)
}

/// The place of the row of a connection, if none of those that joined between the first row's and it has left.
fn likely_place(rows: &[Row], conn: u64) -> usize {
    match rows.first() {
        Some(first) => conn.saturating_sub(first.connection.number) as usize,
        None => 0,
    }
}

/// The place of the row of a connection.
pub(crate) fn place_of(rows: &[Row], conn: u64) -> Option<usize>
    requires { IsTrue (in_order rises rows.now) }
    ensures { result ≡ position (λ r. r.connection.number == conn) rows.now }
{
    let place = likely_place(rows, conn);
    if stands_at(rows, conn, place) {
        Some(place)
    } else {
        searched_place(rows, conn)
    }
}

/// The place of the row of a connection, by a binary search.
fn searched_place(rows: &[Row], conn: u64) -> Option<usize>
    requires { IsTrue (in_order rises rows.now) }
    ensures { result ≡ position (λ r. r.connection.number == conn) rows.now }
{
    rows.binary_search_by_key(&conn, |row| row.connection.number)
        .ok()
}

/// The place of the row of a connection that is live.
fn open_place(rows: &[Row], conn: u64) -> Option<usize>
    requires { IsTrue (in_order rises rows.now) }
    ensures { result ≡ open_place rows.now conn }
{
    match place_of(rows, conn) {
        Some(place) => if rows[place].is_open() {
            Some(place)
        } else {
            None
        },
        None => None,
    }
}

/// The place of the row of the connection, if it is live.
fn live_place(rows: &[Row], found: Option<Connection>) -> Option<usize>
    requires { IsTrue (in_order rises rows.now) }
    ensures { result ≡ live_place rows.now found }
{
    match found {
        Some(connection) => open_place(rows, connection.number),
        None => None,
    }
}

impl Desk {
    /// The place of the row of the live connection that holds an address.
    pub(crate) fn holder_place(&self, v: Vmac) -> Option<usize>
        ensures { result ≡ position (λ r. is_open r && same_vmac r.connection.who.vmac v) self.now.rows.items }
    {
        live_place(self.rows.as_slice(), self.directory.newest_at(v))
    }

    /// The same, where the hint is that it may be at a place.
    pub(crate) fn holder_near(&self, v: Vmac, hint: usize) -> Option<usize>
        ensures { result ≡ position (λ r. is_open r && same_vmac r.connection.who.vmac v) self.now.rows.items }
    {
        if holds_at(self.rows.as_slice(), v, hint) {
            Some(hint)
        } else {
            self.holder_place(v)
        }
    }

    /// The place of the row of the live connection of a device.
    pub(crate) fn device_place(&self, device: &DeviceId) -> Option<usize>
        ensures { result ≡ position (λ r. is_open r && same_device r.connection.who.device device.now) self.now.rows.items }
    {
        live_place(self.rows.as_slice(), self.directory.newest_of(device))
    }
}

/// How a connection has ended, if it has.
pub(crate) fn end_at(rows: &[Row], conn: u64) -> Option<End>
    requires { IsTrue (in_order rises rows.now) }
    ensures { result ≡ end_in (find (λ r. r.connection.number == conn) rows.now) }
{
    match place_of(rows, conn) {
        Some(place) => rows[place].ending,
        None => None,
    }
}

/// Finishes the outbox of the row at a place with an End.
fn finish_at(rows: &mut Vec<Row>, conn: u64, place: usize, ending: End)
    requires place { position (λ r. r.connection.number == conn) rows.old.items ≡ Some place }
    requires rising { IsTrue (in_order rises rows.old.items) }
    requires named { ending ≢ Left }
    ensures items { EachBecomes (λ r s. FinishesIf (is_row (Some conn) r) ending r s) rows.old.items rows.new.items }
    ensures len { vec_len rows.new ≡ vec_len rows.old }
    ensures capacity { vec_capacity rows.new ≡ vec_capacity rows.old }
{
    let row = &mut rows[place];
    row.finish(ending);
}

/// Finishes the outbox of a connection with an End.
fn finish_one(rows: &mut Vec<Row>, conn: u64, ending: End)
    requires rising { IsTrue (in_order rises rows.old.items) }
    requires named { ending ≢ Left }
    ensures items { EachBecomes (λ r s. FinishesIf (is_row (Some conn) r) ending r s) rows.old.items rows.new.items }
    ensures len { vec_len rows.new ≡ vec_len rows.old }
    ensures capacity { vec_capacity rows.new ≡ vec_capacity rows.old }
{
    match place_of(rows, conn) {
        None => {}
        Some(place) => finish_at(rows, conn, place, ending),
    }
}

/// Finishes the outbox of the connection given, if there is one, with an End.
pub(crate) fn finish(rows: &mut Vec<Row>, conn: Option<u64>, ending: End)
    requires rising { IsTrue (in_order rises rows.old.items) }
    requires named { ending ≢ Left }
    ensures items { EachBecomes (λ r s. FinishesIf (is_row conn r) ending r s) rows.old.items rows.new.items }
    ensures len { vec_len rows.new ≡ vec_len rows.old }
    ensures capacity { vec_capacity rows.new ≡ vec_capacity rows.old }
{
    match conn {
        None => {}
        Some(conn) => finish_one(rows, conn, ending),
    }
}

/// Finishes the outbox of each row with an End.
fn finish_each(rows: &mut [Row], ending: End)
    requires named { ending ≢ Left }
    ensures { EachBecomes (λ r s. FinishesIf true ending r s) rows.old rows.new }
{
    for row in rows.iter_mut() {
        row.finish(ending);
    }
}

/// Finishes the outboxes of all rows with an End.
pub(crate) fn finish_all(rows: &mut Vec<Row>, ending: End)
    requires named { ending ≢ Left }
    ensures items { EachBecomes (λ r s. FinishesIf true ending r s) rows.old.items rows.new.items }
    ensures len { vec_len rows.new ≡ vec_len rows.old }
    ensures capacity { vec_capacity rows.new ≡ vec_capacity rows.old }
{
    finish_each(rows.as_mut_slice(), ending);
}
