//! Reading the line of a file that begins at an offset.
ghost use Rattle.std.specs.Prelude.{◌≡◌, ◌≤◌, ◌<◌, ◌+◌, ◌^◌, ◌++◌, [], ℕ, List, length, take, drop, IfOk, OnOk, IfSome, MatchOption, Ok, Err};
ghost use Rattle.bsc_outside.specs.Faults.{HasRisen};
ghost use Rattle.bsc_text.specs.Lines.{line_in};
ghost use Rattle.bsc_journal.specs.declared.journal_record.JournalRecord.{JournalRecord as SaidOf};
ghost use Rattle.bsc_audit.specs.Pieces.{BeginsWith, GivesAt, GivesBad, GivesLine, StandsAt, file_at};
ghost use Rattle.bsc_audit.specs.Together.{IsGoodLine};

use crate::files::bounds::PIECE_LEN;
use crate::files::pieces::Pieces;
use crate::room::room_for;
use bsc_journal::{JournalRecord, MOST_IN_LINE, read_said};
use bsc_octets::NoMemory;
use bsc_outside::Failed;
use bsc_text::{first_lf, line_in};
use std::alloc::Global;

/// Why a line isn't read.
#[derive(Clone, Copy, Debug, PartialEq, Eq)]
pub(crate) enum Stop {
    /// It says nothing, or is too long.
    Bad,
    /// A read failed.
    Failed,
    /// Memory ran out.
    NoMemory,
}

/// Memory for a line, which serves for all lines.
#[derive(Drop)]
pub(crate) struct Room {
    /// What was read of a file from an offset on.
    pub(crate) octets: Vec<u8>,
    /// What one read gives.
    pub(crate) chunk: Vec<u8>,
}

/// Room that was used for no line yet.
pub(crate) fn make_room(alloc: Global) -> Result<Room, NoMemory>
    ensures { IfOk result (λ room. 0 < length room.chunk.items) }
{
    Ok(Room {
        octets: Vec::new(alloc),
        chunk: vec![in alloc; 0; PIECE_LEN]?,
    })
}

/// Reads on behind the octets that a file has from an offset on, and says how many came.
fn read_on<F: Pieces>(files: &mut F, file: usize, at: u64, room: &mut Room) -> Result<usize, Stop>
    requires room { 0 < length room.old.chunk.items }
    requires reach { at + length room.old.octets.items ≤ 2 ^ 63 }
    ensures room { 0 < length room.new.chunk.items }
    ensures reach { IfOk result (λ n. (length room.new.octets.items ≡ length room.old.octets.items + n) × (at + length room.new.octets.items ≤ 2 ^ 63)) }
    ensures stands { IfOk result (λ n. (fs : List (List ℕ)) → F.holds files.new fs →
        StandsAt (file_at fs file) at room.old.octets.items → StandsAt (file_at fs file) at room.new.octets.items) }
    ensures end { result ≡ Ok 0 → (fs : List (List ℕ)) → F.holds files.new fs →
        StandsAt (file_at fs file) at room.old.octets.items → drop at (file_at fs file) ≡ room.new.octets.items }
    ensures bad { result ≡ Err Stop.Bad → ⊥ }
    ensures stays { (fs : List (List ℕ)) → F.holds files.new fs → F.holds files.old fs }
    ensures later { F.faults files.old ≤ F.faults files.new }
    ensures failed { result ≡ Err Stop.Failed → HasRisen (F.faults files.old) (F.faults files.new) }
{
    let from = at + room.octets.len() as u64;
    let Ok(n) = files.read_at(file, from, room.chunk.as_mut_slice()) else {
        return Err(Stop::Failed);
    };
    if room_for(&mut room.octets, n).is_err() {
        return Err(Stop::NoMemory);
    }
    let (given, _) = room.chunk.as_slice().split_at(n);
    if room.octets.extend_from_slice(given).is_err() {
        return Err(Stop::NoMemory);
    }
    Ok(n)
}

/// Reads the piece of a file that begins at an offset, and says how many octets it has: none at the end of the file. They are the
/// first of those in the room.
fn read_piece<F: Pieces>(
    files: &mut F,
    file: usize,
    at: u64,
    room: &mut Room,
) -> Result<usize, Stop>
    requires room { 0 < length room.old.chunk.items }
    requires offset { at ≤ 2 ^ 63 }
    ensures room { 0 < length room.new.chunk.items }
    ensures within { IfOk result (λ n. (n ≤ length room.new.octets.items) × (at + n ≤ 2 ^ 63)) }
    ensures piece { IfOk result (λ n. (fs : List (List ℕ)) → F.holds files.new fs →
        BeginsWith (file_at fs file) at n room.new.octets.items) }
    ensures bad { result ≡ Err Stop.Bad → (fs : List (List ℕ)) → F.holds files.new fs → GivesBad (file_at fs file) at }
    ensures stays { (fs : List (List ℕ)) → F.holds files.new fs → F.holds files.old fs }
    ensures later { F.faults files.old ≤ F.faults files.new }
    ensures failed { result ≡ Err Stop.Failed → HasRisen (F.faults files.old) (F.faults files.new) }
{
    room.octets.clear();
    'reading: loop {
        if let Some(n) = first_lf(room.octets.as_slice()) {
            return Ok(n + 1);
        }
        if room.octets.len() > MOST_IN_LINE + 1 {
            return Err(Stop::Bad);
        }
        let n = match read_on(files, file, at, room) {
            Ok(n) => n,
            Err(stop) => return Err(stop),
        };
        if n == 0 {
            return Ok(room.octets.len());
        }
    }
}

/// What a line says that a piece holds, or that it is bad.
fn said_in(alloc: Global, piece: &[u8]) -> Result<JournalRecord, Stop>
    ensures good { IfOk result (λ s. IsGoodLine (line_in piece.now) s) }
    ensures bad { result ≡ Err Stop.Bad → (s : SaidOf) → IsGoodLine (line_in piece.now) s → ⊥ }
    ensures failed { result ≡ Err Stop.Failed → ⊥ }
{
    let line = line_in(piece);
    if line.len() > MOST_IN_LINE {
        return Err(Stop::Bad);
    }
    match read_said(alloc, line) {
        Ok(Some(said)) => Ok(said),
        Ok(None) => Err(Stop::Bad),
        Err(NoMemory) => Err(Stop::NoMemory),
    }
}

/// What the line of a file says that begins at an offset, and where the one after it begins; None at the end of the file.
pub(crate) fn next_line<F: Pieces>(
    files: &mut F,
    alloc: Global,
    file: usize,
    at: u64,
    room: &mut Room,
) -> Result<Option<(JournalRecord, u64)>, Stop>
    requires room { 0 < length room.old.chunk.items }
    requires offset { at ≤ 2 ^ 63 }
    ensures room { 0 < length room.new.chunk.items }
    ensures on { IfOk result (λ o. IfSome o (λ (s, next). (at < next) × (next ≤ 2 ^ 63))) }
    ensures line { IfOk result (λ o. MatchOption o
        ((fs : List (List ℕ)) → F.holds files.new fs → drop at (file_at fs file) ≡ [])
        (λ (s, next). (fs : List (List ℕ)) → F.holds files.new fs → GivesLine (file_at fs file) at s next)) }
    ensures bad { result ≡ Err Stop.Bad → (fs : List (List ℕ)) → F.holds files.new fs → GivesBad (file_at fs file) at }
    ensures stays { (fs : List (List ℕ)) → F.holds files.new fs → F.holds files.old fs }
    ensures later { F.faults files.old ≤ F.faults files.new }
    ensures failed { result ≡ Err Stop.Failed → HasRisen (F.faults files.old) (F.faults files.new) }
{
    let n = match read_piece(files, file, at, room) {
        Ok(n) => n,
        Err(stop) => return Err(stop),
    };
    if n == 0 {
        return Ok(None);
    }
    let (piece, _) = room.octets.as_slice().split_at(n);
    match said_in(alloc, piece) {
        Ok(said) => Ok(Some((said, at + n as u64))),
        Err(stop) => Err(stop),
    }
}
