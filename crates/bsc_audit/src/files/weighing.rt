//! Entries weighed one after another, in the order of their places.
ghost use Rattle.std.specs.Prelude.{◌≡◌, ◌≤◌, ◌<◌, ◌+◌, ◌^◌, ◌++◌, ◌∷◌, [], ℕ, List, None, length, map, IfOk};
ghost use Rattle.bsc_history.specs.declared.entry.Entry.{Entry as EntryOf};
ghost use Rattle.bsc_history.specs.declared.limits.About.{About as AboutOf};
ghost use Rattle.bsc_legality.specs.Standing.{LegalityStands};
ghost use Rattle.bsc_audit.specs.Merging.{IsJudged, WeighTo, Weighs, missing_then, twice_then};
ghost use Rattle.bsc_audit.specs.Together.{Placed};

use crate::files::files_end::FilesEnd;
use bsc_history::{About, Entry};
use bsc_legality::Legality;
use bsc_octets::NoMemory;
use std::alloc::Global;

/// What the entries come to that were weighed, in the order of their places.
#[derive(Drop)]
pub(crate) struct Weighing {
    /// What the entries so far are judged by, while none is missing, and each is legal.
    pub(crate) legality: Legality,
    /// How many there were.
    pub(crate) count: u64,
    /// The place of the last.
    pub(crate) last: Option<u64>,
    /// The first place that stands more than once.
    pub(crate) twice: Option<u64>,
    /// The first that doesn't stand.
    pub(crate) missing: Option<u64>,
    /// The first of an entry that isn't legal behind those before it.
    pub(crate) illegal: Option<u64>,
}

/// Before the first entry of this hub.
pub(crate) fn nothing_weighed(alloc: Global, about: &About) -> Result<Weighing, NoMemory>
    ensures weighs { IfOk result (λ w. Weighs w about.now []) }
    ensures some { IfOk result (λ w. (a : AboutOf) × (H : List EntryOf) × LegalityStands w.legality a H) }
    ensures few { IfOk result (λ w. w.legality.entries ≤ w.count) }
    ensures none { IfOk result (λ w. w.count ≡ 0) }
{
    Ok(Weighing {
        legality: Legality::make(alloc, about)?,
        count: 0,
        last: None,
        twice: None,
        missing: None,
        illegal: None,
    })
}

/// The first place that follows itself, with one more behind these.
fn twice_with(twice: Option<u64>, last: Option<u64>, place: u64) -> Option<u64>
    ensures { result ≡ twice_then twice last place }
{
    match twice {
        Some(first) => Some(first),
        None => match last {
            Some(last) => if place == last { Some(last) } else { None },
            None => None,
        },
    }
}

/// The first place that so many don't go on with, with one more behind these.
fn missing_with(missing: Option<u64>, count: u64, place: u64) -> Option<u64>
    ensures { result ≡ missing_then missing count place }
{
    match missing {
        Some(first) => Some(first),
        None => if place == count { None } else { Some(count) },
    }
}

/// Judges one more entry, which has the next place where none is missing, unless one before it wasn't legal already.
fn judge_next(
    legality: &mut Legality,
    missing: Option<u64>,
    illegal: Option<u64>,
    place: u64,
    entry: &Entry,
) -> Option<u64>
    requires some { (about : AboutOf) × (H : List EntryOf) × LegalityStands legality.old about H }
    requires few { legality.old.entries < 2 ^ 31 }
    ensures some { (about : AboutOf) × (H : List EntryOf) × LegalityStands legality.new about H }
    ensures few { legality.new.entries ≤ legality.old.entries + 1 }
    ensures judged { (about : AboutOf) (H : List EntryOf) → missing ≡ None → IsJudged about H legality.old illegal → place ≡ length H →
        IsJudged about (H ++ entry.now ∷ []) legality.new result }
{
    if missing.is_some() {
        return illegal;
    }
    if illegal.is_some() {
        return illegal;
    }
    if legality.entry(entry) {
        None
    } else {
        Some(place)
    }
}

/// Weighs one more entry, whose place is no less than those before it.
pub(crate) fn weigh(weighing: &mut Weighing, place: u64, entry: &Entry)
    requires some { (about : AboutOf) × (H : List EntryOf) × LegalityStands weighing.old.legality about H }
    requires few { weighing.old.legality.entries ≤ weighing.old.count }
    requires count { weighing.old.count < 2 ^ 31 }
    ensures some { (about : AboutOf) × (H : List EntryOf) × LegalityStands weighing.new.legality about H }
    ensures few { weighing.new.legality.entries ≤ weighing.new.count }
    ensures count { weighing.new.count ≡ weighing.old.count + 1 }
    ensures weighs { (about : AboutOf) (done : List Placed) → Weighs weighing.old about done →
        Weighs weighing.new about (done ++ record { place = place; entry = entry.now } ∷ []) }
{
    weighing.twice = twice_with(weighing.twice, weighing.last, place);
    weighing.missing = missing_with(weighing.missing, weighing.count, place);
    let missing = weighing.missing;
    let illegal = weighing.illegal;
    let count = weighing.count;
    weighing.illegal = judge_next(&mut weighing.legality, missing, illegal, count, entry);
    weighing.last = Some(place);
    weighing.count = count + 1;
}

/// What all entries come to that so many files have.
pub(crate) fn end_of_weighing(weighing: &Weighing, files: usize) -> FilesEnd
    ensures weighs { (about : AboutOf) (done : List Placed) → Weighs weighing.now about done → WeighTo about done files result }
    ensures read { (k : ℕ) → result ≡ FilesEnd.ReadFault k → ⊥ }
{
    if let Some(place) = weighing.twice {
        return FilesEnd::Twice { place };
    }
    if let Some(place) = weighing.missing {
        return FilesEnd::Missing { place };
    }
    if let Some(place) = weighing.illegal {
        return FilesEnd::Illegal { place };
    }
    FilesEnd::Legal {
        entries: weighing.count,
        files,
    }
}
