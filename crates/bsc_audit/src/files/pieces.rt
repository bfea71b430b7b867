//! Files that are read in pieces.
ghost use Rattle.std.specs.Prelude.{◌≤◌, ◌<◌, ◌+◌, ◌^◌, take, length, IsErr, IfOk};
ghost use Rattle.bsc_outside.specs.Faults.{HasRisen};
ghost use Rattle.bsc_audit.specs.Pieces.{GivesAt, file_at};

use bsc_outside::Failed;

/// Files that are read in pieces, by their numbers from 0 on. Only as many may be open at once as whoever implements this allows;
/// a caller reads any of them at any time.
pub trait Pieces {
    ghost use Rattle.std.specs.Prelude.{List, ℕ};

    /// How many reads failed, up to the greatest `u64`.
    ghost faults: { Self → ℕ };

    /// Whether these are the octets of the files, one after another, as far as that is told.
    ghost holds: { Self → List (List ℕ) → Type 0 };

    /// Reads some octets of a file from an offset on into the front of `into`, and says how many; none is the end of the file.
    fn read_at(&mut self, file: usize, offset: u64, into: &mut [u8]) -> Result<usize, Failed>
        requires some { 0 < length into.old }
        requires offset { offset ≤ 2 ^ 63 }
        ensures within { IfOk result (λ n. (n ≤ length into.new) × (offset + n ≤ 2 ^ 63)) }
        ensures given { IfOk result (λ n. (fs : List (List ℕ)) → holds self.new fs → GivesAt (file_at fs file) offset (take n into.new)) }

        // What the files hold, they held before: a read writes nothing.
        ensures stays { (fs : List (List ℕ)) → holds self.new fs → holds self.old fs }
        ensures later { faults self.old ≤ faults self.new }
        ensures failed { IsErr result → HasRisen (faults self.old) (faults self.new) };
}
