//! Who draws random words.
ghost use Rattle.std.specs.Prelude.{◌≤◌, IsErr};
ghost use Rattle.bsc_outside.specs.Faults.{HasRisen};
ghost use Rattle.bsc_node_run.specs.Drawing.{word_in};

use bsc_outside::Failed;

/// Draws random words.
pub trait Words {
    ghost use Rattle.std.specs.Prelude.{Option, ℕ};

    /// What a call gave, a word or none, and what is left then, as far as that is told.
    ghost gives: { Self → Option ℕ → Self → Type 0 };

    /// How many calls failed, up to the greatest `u64`.
    ghost faults: { Self → ℕ };

    /// The next random word.
    fn next(&mut self) -> Result<u64, Failed>
        ensures gives { gives self.old (word_in result) self.new }
        ensures later { faults self.old ≤ faults self.new }
        ensures failed { IsErr result → HasRisen (faults self.old) (faults self.new) };
}
