//! Hearing what lines say.
ghost use Rattle.std.specs.Prelude.{◌≡◌, ◌≤◌, ◌<◌, ◌+◌, [], length, drop, true, OnOk, Ok, Err};
ghost use Rattle.bsc_text.specs.Lines.{has_no_lf};
ghost use Rattle.bsc_journal.specs.declared.journal_record.JournalRecord.{JournalRecord as SaidOf};
ghost use Rattle.bsc_journal.specs.Good.{IsGood};
ghost use Rattle.bsc_audit.specs.Hearing.{Adds, HasHeard, HasHeardAll, HearsPiece, IsBadAnyhow, part};
ghost use Rattle.bsc_audit.specs.Verdicts.{IsFirstBad};

use crate::cutting::{after, between, cannot_fit, is_too_big};
use crate::heard::Heard;
use crate::places::Spot;
use crate::room::room_for_one;
use bsc_journal::{JournalRecord, MOST_IN_ALL, read_said};
use bsc_octets::NoMemory;
use bsc_player::LineFault;
use bsc_text::{first_lf, line_in};
use std::alloc::Global;

/// What was heard before the first line.
pub(crate) fn nothing_heard(alloc: Global) -> Heard
    ensures { HasHeard [] result }
{
    Heard {
        at: 0,
        lines: 0,
        hubs: 0,
        about: None,
        spots: Vec::new(alloc),
    }
}

/// Adds what the next line says. It ends at `end`, and the one after it begins at `next`.
fn add(heard: &mut Heard, said: JournalRecord, end: usize, next: usize) -> Result<(), NoMemory>
    requires after { heard.old.at < next }
    requires within { end ≤ next }
    requires fits { next ≤ MOST_IN_ALL }
    ensures { OnOk result (Adds heard.old heard.new said end next) }
{
    let start = heard.at;
    heard.at = next;
    heard.lines += 1;
    match &said {
        JournalRecord::Hub(about) => {
            heard.hubs += 1;
            heard.about = Some(*about);
            Ok(())
        }
        JournalRecord::Entry { place, .. } => {
            room_for_one(&mut heard.spots)?;
            heard.spots.push(Spot {
                place: *place,
                start: start as u32,
                end: end as u32,
            })?;
            Ok(())
        }
        JournalRecord::Denial => Ok(()),
    }
}

/// Hears the line of the next piece, which ends at `next`.
fn hear(heard: &mut Heard, alloc: Global, octets: &[u8], next: usize) -> Result<(), LineFault>
    requires after { heard.old.at < next }
    requires within { next ≤ length octets.now }
    ensures heard { OnOk result (HearsPiece octets.now heard.old heard.new next) }
    ensures refused { result ≡ Err LineFault.Refused → (s : SaidOf) →
        IsGood heard.old.at (part octets.now heard.old.at next) s → ⊥ }
    ensures unchanged { result ≡ Err LineFault.Refused → heard.new.lines ≡ heard.old.lines }
{
    let piece = between(octets, heard.at, next);
    if is_too_big(heard.at, piece) {
        return Err(LineFault::Refused);
    }
    let line = line_in(piece);
    let Some(said) = read_said(alloc, line)? else {
        return Err(LineFault::Refused);
    };
    let end = heard.at + line.len();
    add(heard, said, end, next)?;
    Ok(())
}

/// Hears all lines of what was read that have their end, and then sees that no more is left of a line than a line may
/// have.
pub(crate) fn hear_whole(heard: &mut Heard, alloc: Global, octets: &[u8]) -> Result<(), LineFault>
    requires { HasHeard octets.now heard.old }
    ensures heard { OnOk result (HasHeard octets.now heard.new) }
    ensures rest { OnOk result (has_no_lf (drop heard.new.at octets.now) ≡ true) }
    ensures fits { OnOk result (length octets.now ≤ MOST_IN_ALL) }
    ensures refused { result ≡ Err LineFault.Refused → IsBadAnyhow (heard.new.lines + 1) octets.now }
{
    while let Some(n) = first_lf(after(octets, heard.at)) {
        let next = heard.at + n + 1;
        if let Err(fault) = hear(heard, alloc, octets, next) {
            return Err(fault);
        }
    }
    if cannot_fit(heard.at, octets.len() - heard.at) {
        return Err(LineFault::Refused);
    }
    Ok(())
}

/// Hears the last line, which has no end, of octets that are all there are.
pub(crate) fn hear_last(heard: &mut Heard, alloc: Global, octets: &[u8]) -> Result<(), LineFault>
    requires heard { HasHeard octets.now heard.old }
    requires rest { has_no_lf (drop heard.old.at octets.now) ≡ true }
    ensures heard { OnOk result (HasHeardAll octets.now heard.new) }
    ensures refused { result ≡ Err LineFault.Refused → IsFirstBad (heard.new.lines + 1) octets.now }
{
    if heard.at == octets.len() {
        return Ok(());
    }
    hear(heard, alloc, octets, octets.len())
}
