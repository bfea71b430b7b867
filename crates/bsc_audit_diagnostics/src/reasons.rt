//! What is told beside each verdict that isn't legal.
ghost use Rattle.std.specs.Prelude.{◌≡◌, IfOk, IfSome};
ghost use Rattle.bsc_audit_diagnostics.specs.Reasons.{TellsHubs, TellsIllegal, TellsMissing, TellsTwice};

use crate::seeking::next_sought;
use crate::sought::Sought;
use crate::texts::{first_text, hubs_text, illegal_text, missing_text, no_hub_text, twice_text};
use bsc_history::Entry;
use bsc_legality::Breach;
use bsc_octets::{NoMemory, Octets};
use std::alloc::Global;

/// Which lines of journals are hub lines, the first two, or that none is. Nothing is told of journals with one.
pub fn why_hubs(alloc: Global, octets: &[u8]) -> Result<Option<Octets>, NoMemory>
    ensures { IfOk result (λ o. IfSome o (λ why. TellsHubs octets.now why)) }
{
    let Some((first, rest)) = next_sought(octets, 1, Sought::Hub) else {
        return Ok(Some(no_hub_text(alloc)?));
    };
    match next_sought(rest, first + 1, Sought::Hub) {
        Some((second, _)) => Ok(Some(hubs_text(alloc, first, second)?)),
        None => Ok(None),
    }
}

/// Which lines of journals have a place, the first two. Nothing is told where there aren't two.
pub fn why_twice(alloc: Global, octets: &[u8], place: u64) -> Result<Option<Octets>, NoMemory>
    ensures { IfOk result (λ o. IfSome o (λ why. TellsTwice place octets.now why)) }
{
    let sought = Sought::Place { place };
    let Some((first, rest)) = next_sought(octets, 1, sought) else {
        return Ok(None);
    };
    match next_sought(rest, first + 1, sought) {
        Some((second, _)) => Ok(Some(twice_text(alloc, place, first, second)?)),
        None => Ok(None),
    }
}

/// The line with the place before one that is missing, and that with the next place that is there. Nothing is told where one of
/// these places has no line.
pub fn why_missing(
    alloc: Global,
    octets: &[u8],
    missing: u64,
    next: u64,
) -> Result<Option<Octets>, NoMemory>
    ensures { IfOk result (λ o. IfSome o (λ why. TellsMissing missing next octets.now why)) }
{
    let Some((line, _)) = next_sought(octets, 1, Sought::Place { place: next }) else {
        return Ok(None);
    };
    if missing == 0 {
        return Ok(Some(first_text(alloc, next, line)?));
    }
    let before = missing - 1;
    let Some((at, _)) = next_sought(octets, 1, Sought::Place { place: before }) else {
        return Ok(None);
    };
    Ok(Some(missing_text(alloc, before, at, next, line)?))
}

/// What is told of the entry at a place, which breaks a condition. Nothing is told where no line has the place.
pub fn why_illegal(
    alloc: Global,
    octets: &[u8],
    place: u64,
    entry: &Entry,
    breach: &Breach,
) -> Result<Option<Octets>, NoMemory>
    ensures { IfOk result (λ o. IfSome o (λ why. TellsIllegal place entry.now breach.now octets.now why)) }
{
    match next_sought(octets, 1, Sought::Place { place }) {
        Some((line, _)) => Ok(Some(illegal_text(alloc, line, entry, breach)?)),
        None => Ok(None),
    }
}
