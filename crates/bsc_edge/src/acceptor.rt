//! Who takes the links that peers make.
ghost use Rattle.std.specs.Prelude.{◌≡◌, true, ◌≤◌, [], ◌∷◌, Some, Err, IsErr, IfOk};
ghost use Rattle.std.specs.List.{list_all};
ghost use Rattle.bsc_edge.specs.declared.fault.LinkFault.{LinkFault};
ghost use Rattle.bsc_edge.specs.Told.{Grows, ToldIs, Stays, Leaves, IsNoLink, arrived_in};
ghost use Rattle.bsc_outside.specs.Faults.{HasRisen};

use crate::Failed;
use crate::arrived::Arrived;
use crate::fault::LinkFault;
use bsc_octets::Vmac;
use std::alloc::Global;

/// Takes the links that peers make.
pub trait Acceptor<L> {
    ghost use Rattle.std.specs.Prelude.{◌≡◌, Bool, true, List, ℕ, None, Option};
    ghost use Rattle.bsc_edge.specs.Told.{all_told};

    /// How many calls failed, up to the greatest `u64`.
    ghost faults: { Self → ℕ };

    /// How many waits ended without a link, up to the greatest `u64`.
    ghost quiets: { Self → ℕ };

    /// The port that it is bound to, if to any, where that is told.
    ghost bound: { Self → Option (Option ℕ) };

    /// The links that it has left, where they are told.
    ghost left: { Self → Option (List L) };

    /// The links that came so far, in order, where they are told.
    ghost came: { Self → Option (List L) } = { λ _. None };

    /// Whether a link is as each is that comes.
    ghost fresh: { L → Bool } = { λ _. true };

    /// Each that came was so when it came.
    ghost came_fresh: { (a : Self) → all_told fresh (came a) ≡ true };

    /// The waits that `next` was asked for, in milliseconds, where they are told.
    ghost waits: { Self → Option (List ℕ) };

    /// The places of the Stops with which it woke all links, in order, where they are told.
    ghost stops: { Self → Option (List ℕ) } = { λ _. None };

    /// Takes the links that come to this TCP port from now on, for the hub or the node at this VMAC.
    fn bind(&mut self, port: u16, owner: Vmac) -> Result<(), Failed>
        ensures bound { IfOk result (λ _. ToldIs (bound self.new) (Some port)) }
        ensures left { Stays (left self.old) (left self.new) }
        ensures came { Stays (came self.old) (came self.new) }
        ensures waits { Stays (waits self.old) (waits self.new) }
        ensures unwoken { stops self.new ≡ stops self.old }
        ensures later { faults self.old ≤ faults self.new }
        ensures failed { IsErr result → HasRisen (faults self.old) (faults self.new) }
        ensures quiets { quiets self.old ≤ quiets self.new };

    /// Waits this long for the next link, in milliseconds.
    fn next(&mut self, alloc: Global, wait_ms: u32) -> Result<Arrived<L>, LinkFault>
        ensures bound { Stays (bound self.old) (bound self.new) }
        ensures left { Leaves (left self.old) (left self.new) result }
        ensures came { Grows (came self.old) (came self.new) (arrived_in result) }
        ensures fresh { list_all fresh (arrived_in result) ≡ true }
        ensures waits { Grows (waits self.old) (waits self.new) (wait_ms ∷ []) }
        ensures unwoken { stops self.new ≡ stops self.old }
        ensures later { faults self.old ≤ faults self.new }
        ensures failed { result ≡ Err LinkFault.Failed → HasRisen (faults self.old) (faults self.new) }
        ensures quiets { quiets self.old ≤ quiets self.new }
        ensures quiet { IsNoLink result → HasRisen (quiets self.old) (quiets self.new) };

    /// The hub of these links is stopped, by the entry at this place of its history: the wait of each link that came ends, or its
    /// next one.
    fn wake_all(&mut self, at: u64)
        ensures woken { Grows (stops self.old) (stops self.new) (at ∷ []) }
        ensures bound { bound self.new ≡ bound self.old }
        ensures left { left self.new ≡ left self.old }
        ensures came { came self.new ≡ came self.old }
        ensures waits { waits self.new ≡ waits self.old }
        ensures same { faults self.new ≡ faults self.old }
        ensures quiets { quiets self.new ≡ quiets self.old };
}
