//! Finding rows. They stand in the order of their numbers.
#![tactic(auto)]

ghost use Rattle.std.specs.Prelude.{◌≡◌, ◌<◌, ◌==◌, ◌&&◌, ℕ, Bool, find, position, length, IfSome, IsTrue, Some};
ghost use Rattle.std.specs.Option.{option_map};
ghost use Rattle.bsc_octets.specs.Addresses.{same_device, same_vmac};
ghost use Rattle.bsc_history.specs.Outboxes.{vmac_in};
ghost use Rattle.bsc_legality.specs.declared.row.Row.{Row};
ghost use Rattle.bsc_legality.specs.Deciding.{is_of_in};
ghost use Rattle.bsc_legality.specs.Rows.{can_find_at, connection, device_in, end_in, finds_full_at, has_number, holder_in, is_by, is_open, rising, row_of};

use crate::row::Row;
use bsc_history::End;
use bsc_octets::{DeviceId, Vmac};

/// Whether the connection of a row is live.
pub(crate) fn is_open(row: &Row) -> bool
    ensures { result ≡ is_open row.now }
{
    row.ending.is_none()
}

/// Whether the row at a place is that of a connection.
fn stands_at(rows: &[Row], conn: u64, place: usize) -> bool
    requires { IsTrue (rising rows.now) }
    ensures { IsTrue result → position (has_number conn) rows.now ≡ Some place }
{
    place < rows.len() && rows[place].connection.number == conn
}

/// The place of the row of a connection, if none of those that joined between the first row's and it has left.
fn likely_place(rows: &[Row], conn: u64) -> usize {
    match rows.first() {
        Some(first) => conn.saturating_sub(first.connection.number) as usize,
        None => 0,
    }
}

/// The place of the row of a connection, by a binary search.
fn searched_place(rows: &[Row], conn: u64) -> Option<usize>
    requires { IsTrue (rising rows.now) }
    ensures { result ≡ position (has_number conn) rows.now }
{
    rows.binary_search_by_key(&conn, |row| row.connection.number)
        .ok()
}

/// The place of the row of a connection.
pub(crate) fn place_of(rows: &[Row], conn: u64) -> Option<usize>
    requires { IsTrue (rising rows.now) }
    ensures { result ≡ position (has_number conn) rows.now }
{
    let place = likely_place(rows, conn);
    if stands_at(rows, conn, place) {
        Some(place)
    } else {
        searched_place(rows, conn)
    }
}

/// The row at a place, if there is one.
fn row_at(rows: &[Row], place: Option<usize>) -> Option<Row>
    requires { IfSome place (λ i. i < length rows.now) }
    ensures { (p : Row → Bool) → place ≡ position p rows.now → result ≡ find p rows.now }
{
    match place {
        Some(place) => Some(rows[place]),
        None => None,
    }
}

/// The row of a connection.
pub(crate) fn row_of(rows: &[Row], conn: u64) -> Option<Row>
    requires { IsTrue (rising rows.now) }
    ensures { result ≡ row_of rows.now conn }
{
    row_at(rows, place_of(rows, conn))
}

fn holder_place(rows: &[Row], vmac: Vmac) -> Option<usize>
    ensures { result ≡ position (λ r. is_open r && same_vmac r.connection.who.vmac vmac) rows.now }
{
    rows.iter()
        .position(|row| is_open(row) && row.connection.who.vmac == vmac)
}

/// The row of the live connection that holds an address.
pub(crate) fn holder(rows: &[Row], vmac: Vmac) -> Option<Row>
    ensures { result ≡ holder_in rows.now vmac }
{
    row_at(rows, holder_place(rows, vmac))
}

fn device_place(rows: &[Row], device: &DeviceId) -> Option<usize>
    ensures { result ≡ position (λ r. is_open r && same_device r.connection.who.device device.now) rows.now }
{
    rows.iter()
        .position(|row| is_open(row) && row.connection.who.device == *device)
}

/// The row of the live connection of a device.
pub(crate) fn of_device(rows: &[Row], device: &DeviceId) -> Option<Row>
    ensures { result ≡ device_in rows.now device.now }
{
    row_at(rows, device_place(rows, device))
}

/// Whether a row is that of a caller's connection.
fn is_by(row: Option<Row>, caller: u64) -> bool
    ensures { result ≡ is_by row caller }
{
    match row {
        Some(row) => row.connection.caller == caller,
        None => false,
    }
}

/// Whether a connection was joined by a caller, and hasn't left.
pub(crate) fn is_of(rows: &[Row], caller: u64, conn: u64) -> bool
    requires { IsTrue (rising rows.now) }
    ensures { result ≡ is_of_in rows.now caller conn }
{
    is_by(row_of(rows, conn), caller)
}

/// How the connection of a row has ended, if it has.
pub(crate) fn end_in(row: Option<Row>) -> Option<End>
    ensures { result ≡ end_in row }
{
    match row {
        Some(row) => row.ending,
        None => None,
    }
}

/// The address of a row's connection, zero where there is none.
pub(crate) fn vmac_in(row: Option<Row>) -> Vmac
    ensures { result ≡ vmac_in (option_map connection row) }
{
    match row {
        Some(row) => row.connection.who.vmac,
        None => Vmac::ZERO,
    }
}

/// Whether a look can find so many taken.
pub(crate) fn can_find(row: Option<Row>, taken: u64) -> bool
    ensures { result ≡ can_find_at row taken }
{
    match row {
        Some(row) => row.looked <= taken && taken <= row.entered,
        None => false,
    }
}

/// Whether a look that finds so many taken finds the outbox full, which holds `outbox` frames.
pub(crate) fn finds_full(outbox: u32, row: Option<Row>, taken: u64) -> bool
    ensures { result ≡ finds_full_at outbox row taken }
{
    match row {
        Some(row) => row.entered.saturating_sub(taken) == u64::from(outbox),
        None => false,
    }
}
