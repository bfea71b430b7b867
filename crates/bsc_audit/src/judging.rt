//! Judging journals whose lines are all good: their hub lines, the places of their entries, and the entries in order.
ghost use Rattle.std.specs.Prelude.{◌≡◌, ◌<◌, ◌^◌, ◌↔◌, ◌++◌, ◌∷◌, [], ℕ, List, length, IfOk, IfSome, IsTrue, MatchOption, false};
ghost use Rattle.bsc_history.specs.declared.entry.Entry.{Entry as EntryOf};
ghost use Rattle.bsc_history.specs.declared.limits.About.{About as AboutOf};
ghost use Rattle.bsc_history.specs.Legality.{Legal};
ghost use Rattle.bsc_legality.specs.Breaches.{breach};
ghost use Rattle.bsc_legality.specs.Standing.{LegalityStands};
ghost use Rattle.bsc_journal.specs.Saying.{IsLineOf};
ghost use Rattle.bsc_audit.specs.Hearing.{AreInOrder, HasHeardAll, line_at};
ghost use Rattle.bsc_audit.specs.Explaining.{Explains, TellsBreach, TellsOfEntry};
ghost use Rattle.bsc_audit.specs.Judging.{IsOfWhole, Judges};
ghost use Rattle.bsc_audit.specs.Verdicts.{AuditsTo};

use crate::audit_end::AuditEnd;
use crate::cutting::{after, between};
use crate::heard::Heard;
use crate::places::{Spot, least_missing, least_twice, sort_by_place};
use crate::reasons::{reason_of_entry, reason_of_hubs, reason_of_missing, reason_of_twice};
use crate::taking::Journals;
use crate::verdict::Verdict;
use bsc_history::{About, Entry};
use bsc_journal::read_entry;
use bsc_legality::{Breach, Legality};
use bsc_octets::{NoMemory, Octets};
use std::alloc::Global;

/// The line at a spot.
fn line_at<'a>(octets: &'a [u8], spot: &Spot) -> &'a [u8]
    ensures { result.now ≡ line_at octets.now spot.now }
{
    let front = between(octets, 0, octets.len().min(spot.end as usize));
    after(front, front.len().min(spot.start as usize))
}

/// The entry whose line stands at a spot.
fn entry_at(alloc: Global, octets: &[u8], spot: &Spot) -> Result<Entry, NoMemory>
    requires { (place : ℕ) × (e : EntryOf) × IsLineOf (line_at octets.now spot.now) place e }
    ensures { IfOk result (λ entry. (place : ℕ) (e : EntryOf) →
        IsLineOf (line_at octets.now spot.now) place e → entry ≡ e) }
{
    match read_entry(alloc, line_at(octets, spot))? {
        Some((_, entry)) => Ok(entry),
        None => unreachable!(),
    }
}

/// The first spot, and those after it.
fn first_spot(spots: &[Spot]) -> Option<(Spot, &[Spot])>
    ensures { MatchOption result (spots.now ≡ []) (λ (spot, rest). spots.now ≡ spot ∷ rest.now) }
{
    match spots {
        [spot, rest @ ..] => Some((*spot, rest)),
        [] => None,
    }
}

/// Whether a history is still legal with the entry behind it whose line stands at a spot. It is read again from its line.
fn judge_one(
    alloc: Global,
    octets: &[u8],
    spot: &Spot,
    legality: &mut Legality,
) -> Result<bool, NoMemory>
    requires line { (place : ℕ) × (e : EntryOf) × IsLineOf (line_at octets.now spot.now) place e }
    requires some { (about : AboutOf) × (H : List EntryOf) × LegalityStands legality.old about H }
    requires few { legality.old.entries < 2 ^ 31 }
    ensures legal { IfOk result (λ lawful. (about : AboutOf) (H : List EntryOf) (place : ℕ) (e : EntryOf) →
        LegalityStands legality.old about H → IsLineOf (line_at octets.now spot.now) place e →
        IsTrue lawful ↔ Legal about (H ++ e ∷ [])) }
    ensures stands { IfOk result (λ lawful. (about : AboutOf) (H : List EntryOf) (place : ℕ) (e : EntryOf) →
        LegalityStands legality.old about H → IsLineOf (line_at octets.now spot.now) place e → IsTrue lawful →
        LegalityStands legality.new about (H ++ e ∷ [])) }

    // An entry with which the history isn't legal changes nothing.
    ensures unchanged { IfOk result (λ lawful. lawful ≡ false → legality.new ≡ legality.old) }
{
    let entry = entry_at(alloc, octets, spot)?;
    Ok(legality.entry(&entry))
}

/// The entry whose line stands at a spot, and the condition that it breaks behind a history, if it breaks one.
fn breach_at(
    alloc: Global,
    octets: &[u8],
    spot: &Spot,
    legality: &Legality,
) -> Result<(Entry, Option<Breach>), NoMemory>
    requires line { (place : ℕ) × (e : EntryOf) × IsLineOf (line_at octets.now spot.now) place e }
    requires some { (about : AboutOf) × (H : List EntryOf) × LegalityStands legality.now about H }
    ensures { IfOk result (λ (entry, broken). (about : AboutOf) (H : List EntryOf) (place : ℕ) (e : EntryOf) →
        LegalityStands legality.now about H → IsLineOf (line_at octets.now spot.now) place e →
        (entry ≡ e) × (broken ≡ breach about H e)) }
{
    let entry = entry_at(alloc, octets, spot)?;
    let broken = legality.breach(alloc, &entry)?;
    Ok((entry, broken))
}

/// What is told of the entry whose line stands at a spot, at this place, with which a history isn't legal.
fn why_illegal_at(
    alloc: Global,
    octets: &[u8],
    spot: &Spot,
    legality: &Legality,
    place: u64,
) -> Option<Octets>
    requires line { (p : ℕ) × (e : EntryOf) × IsLineOf (line_at octets.now spot.now) p e }
    requires some { (about : AboutOf) × (H : List EntryOf) × LegalityStands legality.now about H }
    ensures { IfSome result (λ why. (about : AboutOf) (H : List EntryOf) (p : ℕ) (e : EntryOf) →
        LegalityStands legality.now about H → IsLineOf (line_at octets.now spot.now) p e →
        TellsBreach place about H e octets.now why) }
{
    let Ok((entry, broken)) = breach_at(alloc, octets, spot, legality) else {
        return None;
    };
    match broken {
        Some(broken) => reason_of_entry(alloc, octets, place, &entry, &broken),
        None => None,
    }
}

/// What the history comes to whose lines stand at these spots, in order.
fn judge_entries(alloc: Global, about: &About, octets: &[u8], mut spots: &[Spot]) -> Verdict
    requires few { length spots.now < 2 ^ 31 }
    requires some { (H : List EntryOf) × AreInOrder octets.now spots.now H }
    ensures judges { (H : List EntryOf) → AreInOrder octets.now spots.entry.now H → Judges about.now H result.end }
    ensures tells { (H : List EntryOf) → AreInOrder octets.now spots.entry.now H →
        IfSome result.why (λ why. TellsOfEntry about.now H octets.now result.end why) }
{
    let Ok(mut legality) = Legality::make(alloc, about) else {
        return Verdict {
            end: AuditEnd::NoMemory,
            why: None,
        };
    };
    let mut place = 0;
    while let Some((spot, rest)) = first_spot(spots) {
        let Ok(lawful) = judge_one(alloc, octets, &spot, &mut legality) else {
            return Verdict {
                end: AuditEnd::NoMemory,
                why: None,
            };
        };
        if !lawful {
            return Verdict {
                end: AuditEnd::Illegal { place },
                why: why_illegal_at(alloc, octets, &spot, &legality, place),
            };
        }
        place += 1;
        spots = rest;
    }
    Verdict {
        end: AuditEnd::Legal { entries: place },
        why: None,
    }
}

/// What journals come to whose lines are all good.
pub(crate) fn judge(alloc: Global, journals: Journals) -> Verdict
    requires { HasHeardAll journals.octets.items journals.heard }
    ensures comes { AuditsTo journals.octets.items result.end }
    ensures whole { IsOfWhole result.end }
    ensures explains { IfSome result.why (λ why. Explains journals.octets.items result.end why) }
{
    let Journals { octets, heard } = journals;
    let Heard {
        at: _,
        lines: _,
        hubs,
        about,
        mut spots,
    } = heard;
    let Some(about) = about else {
        return Verdict {
            end: AuditEnd::Hubs { lines: hubs },
            why: reason_of_hubs(alloc, &octets),
        };
    };
    if hubs != 1 {
        return Verdict {
            end: AuditEnd::Hubs { lines: hubs },
            why: reason_of_hubs(alloc, &octets),
        };
    }
    sort_by_place(&mut spots);
    if let Some(place) = least_twice(spots.as_slice()) {
        return Verdict {
            end: AuditEnd::Twice { place },
            why: reason_of_twice(alloc, &octets, place),
        };
    }
    if let Some(place) = least_missing(spots.as_slice()) {
        return Verdict {
            end: AuditEnd::Missing { place },
            why: reason_of_missing(alloc, &octets, &spots, place),
        };
    }
    judge_entries(alloc, &about, octets.as_slice(), spots.as_slice())
}
