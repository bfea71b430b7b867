//! Checking all files, each from its front to its end: whether their lines are good, and the places of each rise.
ghost use Rattle.std.specs.Prelude.{◌≡◌, ◌≤◌, ◌<◌, ◌^◌, ℕ, List, length, IfOk, IfErr, OnOk, MatchOption, Err};
ghost use Rattle.bsc_outside.specs.Faults.{HasRisen};
ghost use Rattle.bsc_journal.specs.declared.journal_record.JournalRecord.{JournalRecord as SaidOf};
ghost use Rattle.bsc_audit.specs.Merging.{AddsFile, AddsFiles, FallsBack, GoesOn, StopsInFile, SumsUp, end_at};
ghost use Rattle.bsc_audit.specs.Pieces.{file_at};
ghost use Rattle.bsc_audit.specs.Together.{FilesAuditTo};

use crate::files::files_end::FilesEnd;
use crate::files::piece_reading::{Room, Stop, next_line};
use crate::files::pieces::Pieces;
use crate::files::sums::{Sums, no_sums, sum_up};
use bsc_journal::JournalRecord;
use std::alloc::Global;

/// The greatest place of a file with one more line, or None where that line's place is less.
fn last_with(last: u64, told: &JournalRecord) -> Option<u64>
    ensures { MatchOption result (FallsBack last told.now) (λ next. GoesOn last next told.now) }
{
    match told {
        JournalRecord::Entry { place, .. } => if *place < last { None } else { Some(*place) },
        JournalRecord::Hub(_) => Some(last),
        JournalRecord::Denial => Some(last),
    }
}

/// Why an audit ends at this line of this file, which isn't read.
fn end_at(stop: Stop, file: usize, line: u64) -> FilesEnd
    ensures { result ≡ end_at stop file line }
{
    match stop {
        Stop::Bad => FilesEnd::BadLine { file, line },
        Stop::Failed => FilesEnd::ReadFault { file },
        Stop::NoMemory => FilesEnd::NoMemory,
    }
}

/// Checks a file, and sums up what its lines say, or says why the audit ends.
fn check_file<F: Pieces>(
    files: &mut F,
    alloc: Global,
    file: usize,
    room: &mut Room,
    sums: &mut Sums,
) -> Result<(), FilesEnd>
    requires room { 0 < length room.old.chunk.items }
    ensures room { 0 < length room.new.chunk.items }
    ensures good { OnOk result ((fs : List (List ℕ)) (before : List SaidOf) → F.holds files.new fs → SumsUp sums.old before →
        AddsFile (file_at fs file) before sums.new) }
    ensures stops { IfErr result (λ e. (fs : List (List ℕ)) → F.holds files.new fs → StopsInFile file (file_at fs file) e) }
    ensures stays { (fs : List (List ℕ)) → F.holds files.new fs → F.holds files.old fs }
    ensures later { F.faults files.old ≤ F.faults files.new }
    ensures fault { (k : ℕ) → result ≡ Err (FilesEnd.ReadFault k) → HasRisen (F.faults files.old) (F.faults files.new) }
{
    let mut at = 0;
    let mut line = 0;
    let mut last = 0;
    'lines: loop {
        let (told, next) = match next_line(files, alloc, file, at, room) {
            Ok(Some(found)) => found,
            Ok(None) => return Ok(()),
            Err(stop) => return Err(end_at(stop, file, line + 1)),
        };
        let Some(greatest) = last_with(last, &told) else {
            return Err(FilesEnd::Unsorted {
                file,
                line: line + 1,
            });
        };
        sum_up(sums, &told);
        last = greatest;
        at = next;
        line += 1;
    }
}

/// Checks so many files, and sums up what their lines say, or says why the audit ends.
pub(crate) fn check_files<F: Pieces>(
    files: &mut F,
    alloc: Global,
    count: usize,
    room: &mut Room,
) -> Result<Sums, FilesEnd>
    requires room { 0 < length room.old.chunk.items }
    ensures room { 0 < length room.new.chunk.items }
    ensures good { IfOk result (λ sums. (fs : List (List ℕ)) → F.holds files.new fs → length fs ≡ count → AddsFiles fs sums) }
    ensures stops { IfErr result (λ e. (fs : List (List ℕ)) → F.holds files.new fs → length fs ≡ count → FilesAuditTo fs e) }
    ensures stays { (fs : List (List ℕ)) → F.holds files.new fs → F.holds files.old fs }
    ensures later { F.faults files.old ≤ F.faults files.new }
    ensures fault { (k : ℕ) → result ≡ Err (FilesEnd.ReadFault k) → HasRisen (F.faults files.old) (F.faults files.new) }
{
    let mut sums = no_sums();
    let mut file = 0;
    'files: while file < count {
        if let Err(end) = check_file(files, alloc, file, room, &mut sums) {
            return Err(end);
        }
        file += 1;
    }
    Ok(sums)
}
