//! Merging files by the places of their entries.
ghost use Rattle.std.specs.Prelude.{◌≡◌, ◌≤◌, ◌<◌, ◌+◌, ◌^◌, ◌++◌, ℕ, List, length, drop, flat_map, option_to_list, IfOk, IfErr, OnOk, IfSome, MatchOption, Err, IsPermutation};
ghost use Rattle.std.specs.BinaryHeap.{heap_items};
ghost use Rattle.std.specs.List.{AllByRecursion};
ghost use Rattle.bsc_history.specs.declared.entry.Entry.{Entry as EntryOf};
ghost use Rattle.bsc_history.specs.declared.limits.About.{About as AboutOf};
ghost use Rattle.bsc_legality.specs.Standing.{LegalityStands};
ghost use Rattle.bsc_outside.specs.Faults.{HasRisen};
ghost use Rattle.bsc_journal.specs.declared.journal_record.JournalRecord.{JournalRecord as SaidOf};
ghost use Rattle.bsc_audit.specs.Merging.{AreHeads, HasEntry, HasNoPlace, HasPlace, HeadIs, IsHeadOf, MergesOn, MergesTo, TakesEntry, TakesNext, TellsNothing, Weighs, end_in, entries_from};
ghost use Rattle.bsc_audit.specs.Pieces.{file_at};
ghost use Rattle.bsc_audit.specs.Together.{FileSays, FilesSay, Placed};

use crate::files::files_end::FilesEnd;
use crate::files::head::Head;
use crate::files::heads::{Heads, add_head, no_heads, take_head};
use crate::files::piece_reading::{Room, Stop, next_line};
use crate::files::pieces::Pieces;
use crate::files::weighing::{Weighing, end_of_weighing, nothing_weighed, weigh};
use bsc_history::{About, Entry};
use bsc_journal::JournalRecord;
use bsc_octets::NoMemory;
use std::alloc::Global;

/// Why an audit ends where a line of this file isn't read that was good before.
fn end_in(stop: Stop, file: usize) -> FilesEnd
    ensures { result ≡ end_in stop file }
{
    match stop {
        Stop::Bad => FilesEnd::Changed { file },
        Stop::Failed => FilesEnd::ReadFault { file },
        Stop::NoMemory => FilesEnd::NoMemory,
    }
}

/// The place of what a line says, where it says an entry.
fn place_in(told: &JournalRecord) -> Option<u64>
    ensures { MatchOption result (HasNoPlace told.now) (λ place. HasPlace place told.now) }
{
    match told {
        JournalRecord::Entry { place, .. } => Some(*place),
        JournalRecord::Hub(_) => None,
        JournalRecord::Denial => None,
    }
}

/// What a line says, where it says an entry.
fn entry_in(told: JournalRecord) -> Option<Entry>
    ensures { MatchOption result (HasNoPlace told) (λ e. HasEntry e told) }
{
    match told {
        JournalRecord::Entry { place: _, entry } => Some(entry),
        JournalRecord::Hub(_) => None,
        JournalRecord::Denial => None,
    }
}

/// Adds the head of a file, where it has one.
fn put_head(heads: &mut Heads, found: Option<Head>) -> Result<(), NoMemory>
    ensures { OnOk result (IsPermutation (option_to_list found ++ heap_items heads.old.heap) (heap_items heads.new.heap)) }
{
    match found {
        Some(head) => add_head(heads, head),
        None => Ok(()),
    }
}

/// Where the next entry of a file stands, from an offset on.
fn find_head<F: Pieces>(
    files: &mut F,
    alloc: Global,
    file: usize,
    from: u64,
    room: &mut Room,
) -> Result<Option<Head>, FilesEnd>
    requires room { 0 < length room.old.chunk.items }
    requires offset { from ≤ 2 ^ 63 }
    ensures room { 0 < length room.new.chunk.items }
    ensures within { IfOk result (λ o. IfSome o (λ h. (h.at ≤ 2 ^ 63) × (h.file ≡ file))) }
    ensures head { IfOk result (λ o. (fs : List (List ℕ)) (said : List SaidOf) → F.holds files.new fs →
        FileSays (drop from (file_at fs file)) said → HeadIs fs file from o) }
    ensures stops { IfErr result (λ e. (fs : List (List ℕ)) (said : List SaidOf) → F.holds files.new fs →
        FileSays (drop from (file_at fs file)) said → TellsNothing e) }
    ensures stays { (fs : List (List ℕ)) → F.holds files.new fs → F.holds files.old fs }
    ensures later { F.faults files.old ≤ F.faults files.new }
    ensures fault { (k : ℕ) → result ≡ Err (FilesEnd.ReadFault k) → HasRisen (F.faults files.old) (F.faults files.new) }
{
    let mut at = from;
    'lines: loop {
        let (told, next) = match next_line(files, alloc, file, at, room) {
            Ok(Some(found)) => found,
            Ok(None) => return Ok(None),
            Err(stop) => return Err(end_in(stop, file)),
        };
        if let Some(place) = place_in(&told) {
            return Ok(Some(Head { place, file, at }));
        }
        at = next;
    }
}

/// The next entries of so many files, each the first of its file.
pub(crate) fn first_heads<F: Pieces>(
    files: &mut F,
    alloc: Global,
    count: usize,
    room: &mut Room,
) -> Result<Heads, FilesEnd>
    requires room { 0 < length room.old.chunk.items }
    ensures room { 0 < length room.new.chunk.items }
    ensures within { IfOk result (λ heads. AllByRecursion (λ h. h.at ≤ 2 ^ 63) (heap_items heads.heap)) }
    ensures heads { IfOk result (λ heads. (fs : List (List ℕ)) (said : List (List SaidOf)) → F.holds files.new fs → length fs ≡ count →
        FilesSay fs said → AreHeads fs count (heap_items heads.heap)) }
    ensures stops { IfErr result (λ e. (fs : List (List ℕ)) (said : List (List SaidOf)) → F.holds files.new fs → length fs ≡ count →
        FilesSay fs said → TellsNothing e) }
    ensures stays { (fs : List (List ℕ)) → F.holds files.new fs → F.holds files.old fs }
    ensures later { F.faults files.old ≤ F.faults files.new }
    ensures fault { (k : ℕ) → result ≡ Err (FilesEnd.ReadFault k) → HasRisen (F.faults files.old) (F.faults files.new) }
{
    let mut heads = no_heads(alloc);
    let mut file = 0;
    'files: while file < count {
        let found = match find_head(files, alloc, file, 0, room) {
            Ok(found) => found,
            Err(end) => return Err(end),
        };
        if put_head(&mut heads, found).is_err() {
            return Err(FilesEnd::NoMemory);
        }
        file += 1;
    }
    Ok(heads)
}

/// The entry that stands at the head of a file, and where the line after it begins.
fn take_entry<F: Pieces>(
    files: &mut F,
    alloc: Global,
    head: &Head,
    room: &mut Room,
) -> Result<(Entry, u64), FilesEnd>
    requires room { 0 < length room.old.chunk.items }
    requires offset { head.now.at ≤ 2 ^ 63 }
    ensures room { 0 < length room.new.chunk.items }
    ensures on { IfOk result (λ (entry, next). next ≤ 2 ^ 63) }
    ensures entry { IfOk result (λ (entry, next). (fs : List (List ℕ)) → F.holds files.new fs → IsHeadOf fs head.now →
        TakesEntry fs head.now entry next) }
    ensures stops { IfErr result (λ e. (fs : List (List ℕ)) → F.holds files.new fs → IsHeadOf fs head.now → TellsNothing e) }
    ensures stays { (fs : List (List ℕ)) → F.holds files.new fs → F.holds files.old fs }
    ensures later { F.faults files.old ≤ F.faults files.new }
    ensures fault { (k : ℕ) → result ≡ Err (FilesEnd.ReadFault k) → HasRisen (F.faults files.old) (F.faults files.new) }
{
    let (told, next) = match next_line(files, alloc, head.file, head.at, room) {
        Ok(Some(found)) => found,
        Ok(None) => return Err(FilesEnd::Changed { file: head.file }),
        Err(stop) => return Err(end_in(stop, head.file)),
    };
    match entry_in(told) {
        Some(entry) => Ok((entry, next)),
        None => Err(FilesEnd::Changed { file: head.file }),
    }
}

/// Takes and weighs the entry at the head of a file, and puts the next one of that file among the heads.
fn merge_one<F: Pieces>(
    files: &mut F,
    alloc: Global,
    head: Head,
    heads: &mut Heads,
    room: &mut Room,
    weighing: &mut Weighing,
) -> Result<(), FilesEnd>
    requires room { 0 < length room.old.chunk.items }
    requires offset { head.at ≤ 2 ^ 63 }
    requires within { AllByRecursion (λ h. h.at ≤ 2 ^ 63) (heap_items heads.old.heap) }
    requires some { (about : AboutOf) × (H : List EntryOf) × LegalityStands weighing.old.legality about H }
    requires few { weighing.old.legality.entries ≤ weighing.old.count }
    requires count { weighing.old.count < 2 ^ 31 }
    ensures room { 0 < length room.new.chunk.items }
    ensures within { OnOk result (AllByRecursion (λ h. h.at ≤ 2 ^ 63) (heap_items heads.new.heap)) }
    ensures some { OnOk result ((about : AboutOf) × (H : List EntryOf) × LegalityStands weighing.new.legality about H) }
    ensures few { OnOk result (weighing.new.legality.entries ≤ weighing.new.count) }
    ensures count { OnOk result (weighing.new.count ≡ weighing.old.count + 1) }
    ensures merged { OnOk result ((fs : List (List ℕ)) (about : AboutOf) (done : List Placed) → F.holds files.new fs →
        TakesNext fs done head (heap_items heads.old.heap) → Weighs weighing.old about done →
        MergesOn fs about done (heap_items heads.new.heap) weighing.new) }
    ensures stops { IfErr result (λ e. (fs : List (List ℕ)) → F.holds files.new fs → IsHeadOf fs head → TellsNothing e) }
    ensures stays { (fs : List (List ℕ)) → F.holds files.new fs → F.holds files.old fs }
    ensures later { F.faults files.old ≤ F.faults files.new }
    ensures fault { (k : ℕ) → result ≡ Err (FilesEnd.ReadFault k) → HasRisen (F.faults files.old) (F.faults files.new) }
{
    let (entry, next) = match take_entry(files, alloc, &head, room) {
        Ok(taken) => taken,
        Err(end) => return Err(end),
    };
    let found = match find_head(files, alloc, head.file, next, room) {
        Ok(found) => found,
        Err(end) => return Err(end),
    };
    if put_head(heads, found).is_err() {
        return Err(FilesEnd::NoMemory);
    }
    weigh(weighing, head.place, &entry);
    Ok(())
}

/// What the entries of so many files come to, of which these are the first, and so many there are in all.
pub(crate) fn merge<F: Pieces>(
    files: &mut F,
    alloc: Global,
    about: &About,
    count: usize,
    entries: u64,
    mut heads: Heads,
    room: &mut Room,
) -> FilesEnd
    requires room { 0 < length room.old.chunk.items }
    requires few { entries ≤ 2 ^ 31 }
    requires within { AllByRecursion (λ h. h.at ≤ 2 ^ 63) (heap_items heads.heap) }
    ensures comes { (fs : List (List ℕ)) → F.holds files.new fs → AreHeads fs count (heap_items heads.heap) → length fs ≡ count →
        length (flat_map (λ f. entries_from f 0) fs) ≡ entries → MergesTo fs about.now result }
    ensures later { F.faults files.old ≤ F.faults files.new }
    ensures stays { (fs : List (List ℕ)) → F.holds files.new fs → F.holds files.old fs }
    ensures fault { (k : ℕ) → result ≡ FilesEnd.ReadFault k → HasRisen (F.faults files.old) (F.faults files.new) }
{
    let Ok(mut weighing) = nothing_weighed(alloc, about) else {
        return FilesEnd::NoMemory;
    };
    'heads: while let Some(head) = take_head(&mut heads) {
        if weighing.count == entries {
            return FilesEnd::Changed { file: head.file };
        }
        if let Err(end) = merge_one(files, alloc, head, &mut heads, room, &mut weighing) {
            return end;
        }
    }
    end_of_weighing(&weighing, count)
}
