//! What a broadcast does at each row.
#![tactic(auto)]

ghost use Rattle.std.specs.Prelude.{◌≡◌, ◌≤◌, ◌<◌, ◌+◌, ◌^◌, List, [], length, vec_len, vec_capacity, None};
ghost use Rattle.bsc_octets.specs.Forwarding.{out};
ghost use Rattle.bsc_history.specs.Counting.{one_if};
ghost use Rattle.bsc_ring.specs.Ends.{pushed};
ghost use Rattle.bsc_desk.specs.declared.fate.Fate.{Fate};
ghost use Rattle.bsc_desk.specs.Copying.{AreCopies, count_of};
ghost use Rattle.bsc_desk.specs.Fates.{AllBefall, Befalls, FewPushed, HasRoom, Tell, count_offered, is_meant, is_offered};

use crate::copies::Copies;
use crate::fate::Fate;
use crate::notes::Notes;
use crate::prepared::Prepared;
use crate::row::Row;

/// Whether a broadcast of `conn` means the row: that of a live connection other than `conn`.
fn is_meant(row: &Row, conn: u64) -> bool
    ensures { result ≡ is_meant conn row.now }
{
    row.is_open() && row.connection.number != conn
}

/// Whether a broadcast of `conn` is offered to the row's outbox.
fn is_offered(row: &Row, conn: u64, frame: &Prepared) -> bool
    ensures { result ≡ is_offered conn (out frame.now.message frame.now.sender) row.now }
{
    is_meant(row, conn) && !row.is_short_of(frame.len())
}

/// To how many outboxes a broadcast is offered.
pub(crate) fn count_offered(rows: &[Row], conn: u64, frame: &Prepared) -> usize
    ensures { result ≡ count_offered conn (out frame.now.message frame.now.sender) rows.now }
{
    rows.iter()
        .filter(|row| is_offered(row, conn, frame))
        .count()
}

/// Offers a broadcast at one row.
fn offer_one(row: &mut Row, conn: u64, frame: &Prepared, copies: &mut Copies) -> Fate
    requires enough { one_if (is_offered conn (out frame.now.message frame.now.sender) row.old) ≤ count_of copies.old }
    requires each { AreCopies (out frame.now.message frame.now.sender) copies.old }
    requires few { length (pushed row.old.inlet) < 2 ^ 63 }
    ensures befalls { Befalls (is_meant conn) None (out frame.now.message frame.now.sender) row.old result row.new }
    ensures each { AreCopies (out frame.now.message frame.now.sender) copies.new }
    ensures len { count_of copies.new + one_if (is_offered conn (out frame.now.message frame.now.sender) row.old) ≡ count_of copies.old }
{
    if !is_meant(row, conn) {
        Fate::Unmeant
    } else if row.is_short_of(frame.len()) {
        Fate::TooLong {
            conn: row.connection.number,
        }
    } else {
        row.offer(copies.next(frame), None)
    }
}

/// Goes through the rows once, and offers the broadcast at each.
fn offer_each(rows: &mut [Row], conn: u64, frame: &Prepared, copies: Copies, notes: Notes) -> Notes
    requires enough { count_of copies ≡ count_offered conn (out frame.now.message frame.now.sender) rows.old }
    requires each { AreCopies (out frame.now.message frame.now.sender) copies }
    requires few { FewPushed rows.old }
    requires room { HasRoom notes (length rows.old) }
    requires empty { Tell notes [] }
    ensures { (fates : List Fate) × AllBefall (is_meant conn) None (out frame.now.message frame.now.sender) rows.old fates rows.new
        × Tell result fates }
{
    let mut left = copies;
    let mut told = notes;
    for row in rows.iter_mut() {
        let fate = offer_one(row, conn, frame, &mut left);
        told.note(fate);
    }
    told
}

/// The same of a vector of rows.
pub(crate) fn offer_all(
    rows: &mut Vec<Row>,
    conn: u64,
    frame: &Prepared,
    copies: Copies,
    notes: Notes,
) -> Notes
    requires enough { count_of copies ≡ count_offered conn (out frame.now.message frame.now.sender) rows.old.items }
    requires each { AreCopies (out frame.now.message frame.now.sender) copies }
    requires few { FewPushed rows.old.items }
    requires room { HasRoom notes (vec_len rows.old) }
    requires empty { Tell notes [] }
    ensures fates { (fates : List Fate) × AllBefall (is_meant conn) None (out frame.now.message frame.now.sender) rows.old.items fates rows.new.items
        × Tell result fates }
    ensures len { vec_len rows.new ≡ vec_len rows.old }
    ensures capacity { vec_capacity rows.new ≡ vec_capacity rows.old }
{
    offer_each(rows.as_mut_slice(), conn, frame, copies, notes)
}
