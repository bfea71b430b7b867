//! Walks over spots in the order of their places.
ghost use Rattle.std.specs.Prelude.{◌≡◌, nat_eq, length, map, MatchOption};
ghost use Rattle.std.specs.List.{IsDistinct, range_with_len};
ghost use Rattle.std.specs.List.Sorted.{IsNonDecreasingBy};
ghost use Rattle.bsc_audit.specs.Places.Places.{IsLeastMissing, IsLeastTwice};
ghost use Rattle.bsc_audit.specs.Places.Walking.{repeated, repeated_after, skipped};

use crate::places::spot::Spot;

/// The first place that follows itself, where `last` stands in front.
fn repeated_after(mut last: u64, mut spots: &[Spot]) -> Option<u64>
    ensures { result ≡ repeated_after last (map (λ s. s.place) spots.entry.now) }
{
    while let [spot, rest @ ..] = spots {
        if spot.place == last {
            return Some(last);
        }
        last = spot.place;
        spots = rest;
    }
    None
}

/// The first place that follows itself.
fn repeated(spots: &[Spot]) -> Option<u64>
    ensures { result ≡ repeated (map (λ s. s.place) spots.now) }
{
    match spots {
        [spot, rest @ ..] => repeated_after(spot.place, rest),
        [] => None,
    }
}

/// The first place, counted from 0, that these don't go on with.
fn skipped(mut spots: &[Spot]) -> Option<u64>
    ensures { result ≡ skipped 0 (map (λ s. s.place) spots.entry.now) }
{
    let mut next = 0;
    while let [spot, rest @ ..] = spots {
        if spot.place != next {
            return Some(next);
        }
        next += 1;
        spots = rest;
    }
    None
}

/// The least place that stands more than once, of spots in the order of their places.
pub fn least_twice(spots: &[Spot]) -> Option<u64>
    requires { IsNonDecreasingBy (λ s. s.place) spots.now }
    ensures { MatchOption result
        (IsDistinct nat_eq (map (λ s. s.place) spots.now))
        (λ p. IsLeastTwice p (map (λ s. s.place) spots.now)) }
{
    repeated(spots)
}

/// The least place that doesn't stand below the greatest that does, of spots in the order of their places, none of
/// which stands twice. Where there is none, the places are all those from 0 on.
pub fn least_missing(spots: &[Spot]) -> Option<u64>
    requires rising { IsNonDecreasingBy (λ s. s.place) spots.now }
    requires once { IsDistinct nat_eq (map (λ s. s.place) spots.now) }
    ensures { MatchOption result
        (map (λ s. s.place) spots.now ≡ range_with_len 0 (length spots.now))
        (λ p. IsLeastMissing p (map (λ s. s.place) spots.now)) }
{
    skipped(spots)
}
