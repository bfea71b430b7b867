//! What is told beside a verdict, where there is memory for it.
ghost use Rattle.std.specs.Prelude.{◌≡◌, ◌<◌, ℕ, IfSome};
ghost use Rattle.bsc_audit_diagnostics.specs.Reasons.{TellsHubs, TellsIllegal, TellsMissing, TellsTwice};

use crate::places::Spot;
use bsc_audit_diagnostics::{why_hubs, why_illegal, why_missing, why_twice};
use bsc_history::Entry;
use bsc_legality::Breach;
use bsc_octets::{NoMemory, Octets};
use std::alloc::Global;

/// Of hub lines.
pub(crate) fn reason_of_hubs(alloc: Global, octets: &Vec<u8>) -> Option<Octets>
    ensures { IfSome result (λ why. TellsHubs octets.now.items why) }
{
    match why_hubs(alloc, octets.as_slice()) {
        Ok(why) => why,
        Err(NoMemory) => None,
    }
}

/// Of a place that stands more than once.
pub(crate) fn reason_of_twice(alloc: Global, octets: &Vec<u8>, place: u64) -> Option<Octets>
    ensures { IfSome result (λ why. TellsTwice place octets.now.items why) }
{
    match why_twice(alloc, octets.as_slice(), place) {
        Ok(why) => why,
        Err(NoMemory) => None,
    }
}

/// Of a place that doesn't stand, by the spots in the order of their places. Those before it all stand once, so the one that
/// stands in its stead has the next place.
pub(crate) fn reason_of_missing(
    alloc: Global,
    octets: &Vec<u8>,
    spots: &Vec<Spot>,
    place: u64,
) -> Option<Octets>
    ensures { IfSome result (λ why. (next : ℕ) × (place < next) × TellsMissing place next octets.now.items why) }
{
    let spot = spots.as_slice().get(place as usize)?;
    let next = spot.place;
    if next <= place {
        return None;
    }
    match why_missing(alloc, octets.as_slice(), place, next) {
        Ok(why) => why,
        Err(NoMemory) => None,
    }
}

/// Of an entry that breaks a condition.
pub(crate) fn reason_of_entry(
    alloc: Global,
    octets: &[u8],
    place: u64,
    entry: &Entry,
    broken: &Breach,
) -> Option<Octets>
    ensures { IfSome result (λ why. TellsIllegal place entry.now broken.now octets.now why) }
{
    match why_illegal(alloc, octets, place, entry, broken) {
        Ok(why) => why,
        Err(NoMemory) => None,
    }
}
