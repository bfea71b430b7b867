//! Spots in the order of their places.
ghost use Rattle.std.specs.List.Sorted.{IsNonDecreasingBy, IsPermutation};

use crate::places::spot::Spot;

/// Puts spots in the order of their places. It takes no memory.
pub fn sort_by_place(spots: &mut Vec<Spot>)
    ensures permutation { IsPermutation spots.old.items spots.new.items }
    ensures rising { IsNonDecreasingBy (λ s. s.place) spots.new.items }
{
    spots.sort_unstable_by_key(|spot| spot.place);
}
