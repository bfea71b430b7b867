//! What a node waits by between its turns.
ghost use Rattle.std.specs.Prelude.{[], ◌∷◌};
ghost use Rattle.bsc_edge.specs.Told.{Grows};

/// What a node waits by between its turns, for all of its links and its acceptor at once. When a wait ends no clause says.
pub trait Waiter {
    ghost use Rattle.std.specs.Prelude.{List, ℕ, Option};

    /// The waits that were asked for, in milliseconds, where they are told.
    ghost waits: { Self → Option (List ℕ) };

    /// Waits until something may have come, so long at most.
    fn wait(&mut self, most_ms: u32)
        ensures told { Grows (waits self.old) (waits self.new) (most_ms ∷ []) };
}
