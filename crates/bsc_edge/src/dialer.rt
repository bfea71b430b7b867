//! Who makes links to peers.
ghost use Rattle.std.specs.Prelude.{◌≡◌, true, ◌≤◌, [], ◌∷◌, Err};
ghost use Rattle.std.specs.List.{list_all};
ghost use Rattle.bsc_edge.specs.declared.fault.LinkFault.{LinkFault};
ghost use Rattle.bsc_edge.specs.Dialling.{dialled, made_in, Takes};
ghost use Rattle.bsc_edge.specs.Told.{Grows};
ghost use Rattle.bsc_outside.specs.Faults.{HasRisen};

use crate::fault::LinkFault;
use crate::kind::Kind;
use std::alloc::Global;

/// Makes links to peers.
pub trait Dialer<L> {
    ghost use Rattle.std.specs.Prelude.{◌≡◌, Bool, true, List, ℕ, None, Option};
    ghost use Rattle.bsc_edge.specs.declared.dialled.Dialled.{Dialled};
    ghost use Rattle.bsc_edge.specs.Told.{all_told};

    /// How many calls failed, up to the greatest `u64`.
    ghost faults: { Self → ℕ };

    /// What it was asked for, and whether a link came, where it tells it.
    ghost calls: { Self → Option (List Dialled) };

    /// The links that it has left, where they are told.
    ghost left: { Self → Option (List L) };

    /// The links that came so far, in order, where they are told.
    ghost came: { Self → Option (List L) } = { λ _. None };

    /// Whether a link is as each is that comes.
    ghost fresh: { L → Bool } = { λ _. true };

    /// Each that came was so when it came.
    ghost came_fresh: { (d : Self) → all_told fresh (came d) ≡ true };

    /// Makes a link of this kind to the peer that the URI names.
    fn dial(&mut self, alloc: Global, uri: &[u8], kind: Kind) -> Result<L, LinkFault>
        ensures told { Grows (calls self.old) (calls self.new) (dialled uri.now kind result ∷ []) }
        ensures left { Takes (left self.old) (left self.new) result }
        ensures came { Grows (came self.old) (came self.new) (made_in result) }
        ensures fresh { list_all fresh (made_in result) ≡ true }
        ensures later { faults self.old ≤ faults self.new }
        ensures failed { result ≡ Err LinkFault.Failed → HasRisen (faults self.old) (faults self.new) };
}
