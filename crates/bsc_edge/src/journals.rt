//! Where journals are begun.
ghost use Rattle.std.specs.Prelude.{◌≡◌, ◌≤◌, true, [], ◌∷◌, Err, IfOk, option_map};
ghost use Rattle.bsc_edge.specs.declared.fault.LinkFault.{LinkFault};
ghost use Rattle.bsc_edge.specs.Asked.{begun_by};
ghost use Rattle.bsc_edge.specs.Told.{Grows};
ghost use Rattle.bsc_outside.specs.Faults.{HasRisen};

use crate::fault::LinkFault;
use bsc_outside::Sink;
use std::alloc::Global;

/// Begins journals: a sink for the lines of each caller of a hub.
pub trait Journals<K: Sink> {
    ghost use Rattle.std.specs.Prelude.{Bool, List, ℕ, None, Option};
    ghost use Rattle.bsc_edge.specs.declared.begun.Begun.{Begun};

    /// How many journals couldn't be begun, and how many of their lines were lost, up to the greatest `u64`.
    ghost faults: { Self → ℕ };

    /// Whether a sink is the journal of a prefix, where there is one, and a number, as far as that is told.
    ghost begins: { Option (List ℕ) → ℕ → K → Type 0 };

    /// The calls that began a journal, with their answers, where they are told.
    ghost calls: { Self → Option (List Begun) } = { λ _. None };

    /// What `count_lost` answered, in order, where that is told.
    ghost lost: { Self → Option (List Bool) } = { λ _. None };

    /// The lengths to which files were limited, in octets, in order, where they are told.
    ghost limits: { Self → Option (List ℕ) } = { λ _. None };

    /// Begins the journal of the pass with a number, under a prefix. What was put into another journal isn't written
    /// over. No put into the new one has failed yet.
    fn begin(&mut self, alloc: Global, prefix: Option<&str>, number: u64) -> Result<K, LinkFault>
        ensures told { Grows (calls self.old) (calls self.new) (begun_by (option_map (λ p. p.now) prefix.entry) number result ∷ []) }
        ensures begun { IfOk result (λ k. begins (option_map (λ p. p.now) prefix.entry) number k) }
        ensures fresh { IfOk result (λ k. K.faults k ≡ 0) }
        ensures later { faults self.old ≤ faults self.new }
        ensures failed { result ≡ Err LinkFault.Failed → HasRisen (faults self.old) (faults self.new) }
        ensures unlost { lost self.new ≡ lost self.old }
        ensures unlimited { limits self.new ≡ limits self.old };

    /// Whether a line of a journal that was begun here was lost since this was last asked. Each counts as a fault.
    fn count_lost(&mut self) -> bool
        ensures told { Grows (lost self.old) (lost self.new) (result ∷ []) }
        ensures begun { calls self.new ≡ calls self.old }
        ensures unlimited { limits self.new ≡ limits self.old }
        ensures later { faults self.old ≤ faults self.new }
        ensures failed { result ≡ true → HasRisen (faults self.old) (faults self.new) };

    /// No file of a journal that is begun from now on is to have more octets than this, but for one line: the journal goes on in
    /// another file.
    fn set_limit(&mut self, octets: u64)
        ensures told { Grows (limits self.old) (limits self.new) (octets ∷ []) }
        ensures begun { calls self.new ≡ calls self.old }
        ensures unlost { lost self.new ≡ lost self.old }
        ensures same { faults self.new ≡ faults self.old };
}
