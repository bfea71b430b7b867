//! The lists of a frame, held against rows and looks: each is walked once.
#![tactic(auto)]

ghost use Rattle.std.specs.Prelude.{◌≡◌, drop, filter, not, IsTrue};
ghost use Rattle.bsc_legality.specs.Deciding.{all_looked, all_skipped, begins, can_all, conns, fares_so, is_long_at, is_meant_with};
ghost use Rattle.bsc_legality.specs.Rows.{number, rising};
ghost use Rattle.bsc_legality.specs.Sameness.{same_numbers};

use crate::row::Row;
use crate::rows::{can_find, finds_full, is_open, row_of};
use bsc_history::Look;

/// Whether so many octets are more than the connection of a row takes.
pub(crate) fn is_long(row: &Row, size: usize) -> bool
    ensures { result ≡ is_long_at size row.now }
{
    usize::from(row.connection.who.max_bvlc) < size
}

/// Whether a row is that of a live connection other than the sender, which takes so many octets.
pub(crate) fn is_looked_at(row: &Row, sender: u64, size: usize) -> bool
    ensures { result ≡ is_meant_with sender (λ r. not (is_long_at size r)) row.now }
{
    is_open(row) && (row.connection.number != sender && !is_long(row, size))
}

/// Whether a row is that of a live connection other than the sender, for which so many octets are too long.
pub(crate) fn is_skipped(row: &Row, sender: u64, size: usize) -> bool
    ensures { result ≡ is_meant_with sender (is_long_at size) row.now }
{
    is_open(row) && (row.connection.number != sender && is_long(row, size))
}

/// Whether a number stands at a place.
fn stands_at(numbers: &[u64], at: usize, number: u64) -> bool
    ensures { result ≡ begins number (drop at numbers.now) }
{
    at < numbers.len() && numbers[at] == number
}

/// Whether a look at a connection stands at a place.
fn is_look_at(looks: &[Look], at: usize, conn: u64) -> bool
    ensures { result ≡ begins conn (drop at (conns looks.now)) }
{
    at < looks.len() && looks[at].conn == conn
}

/// Whether these are looks at the connections that a broadcast looks at.
pub(crate) fn are_looked_at(looks: &[Look], sender: u64, size: usize, rows: &[Row]) -> bool
    ensures { result ≡ same_numbers (conns looks.now) (all_looked sender size rows.now) }
{
    let mut at = 0;
    for row in rows {
        if is_looked_at(row, sender, size) {
            if !is_look_at(looks, at, row.connection.number) {
                return false;
            }
            at += 1;
        }
    }
    at == looks.len()
}

/// Whether these are the connections for which a broadcast is too long.
pub(crate) fn are_skipped(numbers: &[u64], sender: u64, size: usize, rows: &[Row]) -> bool
    ensures { result ≡ same_numbers numbers.now (all_skipped sender size rows.now) }
{
    let mut at = 0;
    for row in rows {
        if is_skipped(row, sender, size) {
            if !stands_at(numbers, at, row.connection.number) {
                return false;
            }
            at += 1;
        }
    }
    at == numbers.len()
}

/// Whether a look finds its outbox full, or doesn't, as is asked.
pub(crate) fn fares_so(full: bool, look: &Look, outbox: u32, rows: &[Row]) -> bool
    requires { IsTrue (rising rows.now) }
    ensures { result ≡ fares_so full outbox rows.now look.now }
{
    let found = finds_full(outbox, row_of(rows, look.conn), look.taken);
    if full { found } else { !found }
}

/// Whether these are the connections whose outboxes the looks find full, or don't, as is asked.
pub(crate) fn have_fared(
    full: bool,
    numbers: &[u64],
    looks: &[Look],
    outbox: u32,
    rows: &[Row],
) -> bool
    requires { IsTrue (rising rows.now) }
    ensures { result ≡ same_numbers numbers.now (conns (filter (fares_so full outbox rows.now) looks.now)) }
{
    let mut at = 0;
    for look in looks {
        if fares_so(full, look, outbox, rows) {
            if !stands_at(numbers, at, look.conn) {
                return false;
            }
            at += 1;
        }
    }
    at == numbers.len()
}

/// Whether each look can find what it found.
pub(crate) fn can_all(rows: &[Row], looks: &[Look]) -> bool
    requires { IsTrue (rising rows.now) }
    ensures { result ≡ can_all rows.now looks.now }
{
    looks
        .iter()
        .all(|look| can_find(row_of(rows, look.conn), look.taken))
}
