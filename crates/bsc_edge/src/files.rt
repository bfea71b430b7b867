//! Files that are read whole.
ghost use Rattle.std.specs.Prelude.{◌≡◌, ◌≤◌, [], ◌∷◌, Err, IfOk};
ghost use Rattle.bsc_edge.specs.declared.fault.FileFault.{FileFault};
ghost use Rattle.bsc_edge.specs.Asked.{loaded_by};
ghost use Rattle.bsc_edge.specs.Told.{Grows};
ghost use Rattle.bsc_outside.specs.Faults.{HasRisen};

use crate::fault::FileFault;
use bsc_octets::Octets;
use std::alloc::Global;

/// Where files are read from.
pub trait Files {
    ghost use Rattle.std.specs.Prelude.{List, ℕ, None, Option};
    ghost use Rattle.bsc_edge.specs.declared.loaded.Loaded.{Loaded};

    /// How many loads failed, up to the greatest `u64`.
    ghost faults: { Self → ℕ };

    /// Whether the file at a path has these octets, as far as that is told.
    ghost holds: { Self → List ℕ → List ℕ → Type 0 };

    /// The loads with their answers, in order, where they are told.
    ghost loads: { Self → Option (List Loaded) } = { λ _. None };

    /// Reads the whole file at a path.
    fn load(&mut self, alloc: Global, path: &str) -> Result<Octets, FileFault>
        ensures told { Grows (loads self.old) (loads self.new) (loaded_by path.now result ∷ []) }
        ensures given { IfOk result (λ o. holds self.old path.now o) }

        // What the files hold, they held before: a load writes nothing.
        ensures stays { (other o : List ℕ) → holds self.new other o → holds self.old other o }
        ensures later { faults self.old ≤ faults self.new }
        ensures failed { result ≡ Err FileFault.Failed → HasRisen (faults self.old) (faults self.new) };
}
