//! The next entries of all files, of which the one of the least place comes first.
ghost use Rattle.std.specs.Prelude.{◌≡◌, ◌≤◌, [], ◌∷◌, OnOk, MatchOption, IsPermutation};
ghost use Rattle.std.specs.BinaryHeap.{IsHeap, heap_items};
ghost use Rattle.std.specs.List.{AllByRecursion};
ghost use Rattle.std.proofs.Props.{props};
ghost use Rattle.bsc_audit.specs.Merging.{head_cmp};

use crate::files::head::Head;
use bsc_octets::NoMemory;
use std::alloc::Global;
use std::collections::BinaryHeap;

/// The next entries of all files. It takes 24 octets for each file that has one.
#[derive(Drop)]
pub(crate) struct Heads {
    pub(crate) heap: BinaryHeap<Head>,
    ghost ordered: { IsHeap head_cmp (heap_items heap) } by { Prim.hlevel props },
}

/// None yet.
pub(crate) fn no_heads(alloc: Global) -> Heads
    ensures { heap_items result.heap ≡ [] }
{
    Heads {
        heap: BinaryHeap::new(alloc),
    }
}

/// Adds one.
pub(crate) fn add_head(heads: &mut Heads, head: Head) -> Result<(), NoMemory>
    ensures { OnOk result (IsPermutation (head ∷ heap_items heads.old.heap) (heap_items heads.new.heap)) }
{
    match heads.heap.push(head) {
        Ok(()) => Ok(()),
        Err(_) => Err(NoMemory),
    }
}

/// Takes out the one of the least place.
pub(crate) fn take_head(heads: &mut Heads) -> Option<Head>
    ensures { MatchOption result
        (heap_items heads.old.heap ≡ [])
        (λ h. IsPermutation (heap_items heads.old.heap) (h ∷ heap_items heads.new.heap)
        × AllByRecursion (λ other. h.place ≤ other.place) (heap_items heads.new.heap)) }
{
    heads.heap.pop()
}
