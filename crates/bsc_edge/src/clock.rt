//! What tells the time.
ghost use Rattle.std.specs.Prelude.{◌≡◌, ◌≤◌, ◌<◌, ◌^◌, [], ◌∷◌, IfOk};
ghost use Rattle.bsc_edge.specs.Told.{Grows, Stays};

use bsc_octets::NoMemory;
use std::alloc::Global;

/// The greatest reading.
pub(crate) const GREATEST: u64 = (1 << 62) - 1;

/// What tells the time, in milliseconds from some beginning.
pub trait Clock: Sized {
    ghost use Rattle.std.specs.Prelude.{List, ℕ, Option};

    /// How often the time couldn't be read, up to the greatest `u64`.
    ghost faults: { Self → ℕ };

    /// The newest reading, 0 before the first.
    ghost newest: { Self → ℕ };

    /// The readings that were given, where the clock tells them.
    ghost readings: { Self → Option (List ℕ) };

    /// The time. It never falls, and stays below 2^62. Where it can't be read, it is the newest reading again.
    fn now(&mut self) -> u64
        ensures told { Grows (readings self.old) (readings self.new) (result ∷ []) }
        ensures rises { newest self.old ≤ result }
        ensures below { result < 2 ^ 62 }
        ensures newest { newest self.new ≡ result }
        ensures later { faults self.old ≤ faults self.new };

    /// A clock of the same meaning, for another thread.
    fn another(&self, alloc: Global) -> Result<Self, NoMemory>
        ensures told { IfOk result (λ c. Stays (readings self.now) (readings c)) }
        ensures newest { IfOk result (λ c. newest c ≡ newest self.now) };
}
