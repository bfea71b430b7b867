//! How long a link's stream waits, and who ends the wait.
ghost use Rattle.std.specs.Prelude.{◌≡◌, ◌≤◌, [], ◌∷◌, IsErr, IfOk};
ghost use Rattle.bsc_edge.specs.declared.notice.Notice.{Notice};
ghost use Rattle.bsc_edge.specs.Told.{Grows, Stays};
ghost use Rattle.bsc_outside.specs.Faults.{HasRisen};

use crate::Failed;

/// How long a link's stream waits, and who ends the wait. When a wait ends no clause says.
pub trait Patience {
    ghost use Rattle.std.specs.Prelude.{List, ℕ, None, Option};
    ghost use Rattle.bsc_edge.specs.declared.notice.Notice.{Notice as NoticeType};

    /// How many calls failed, up to the greatest `u64`.
    ghost faults: { Self → ℕ };

    /// The waits that were set, in milliseconds, where they are told.
    ghost waits: { Self → Option (List ℕ) };

    /// Whose connection the link was said to be, whom it was asked to wake, and each wait that was to be set, in order, where that is
    /// told.
    ghost notices: { Self → Option (List NoticeType) } = { λ _. None };

    /// The next reads of the stream wait this long, in milliseconds, all of them together.
    fn set(&mut self, wait_ms: u32) -> Result<(), Failed>
        ensures told { IfOk result (λ _. Grows (waits self.old) (waits self.new) (wait_ms ∷ [])) }
        ensures unset { IsErr result → Stays (waits self.old) (waits self.new) }
        ensures asked { Grows (notices self.old) (notices self.new) (Notice.Asked ∷ []) }
        ensures later { faults self.old ≤ faults self.new }
        ensures failed { IsErr result → HasRisen (faults self.old) (faults self.new) };

    /// Whether it is known, without a call of the system, that a read which doesn't wait would give nothing now. Where it isn't
    /// known, false.
    fn is_idle(&self) -> bool {
        false
    }

    /// The link is this connection's from now on.
    fn set_connection(&mut self, conn: u64)
        ensures told { Stays (waits self.old) (waits self.new) }
        ensures known { Grows (notices self.old) (notices self.new) (Notice.Known conn ∷ []) }
        ensures same { faults self.new ≡ faults self.old };

    /// Ends the wait of the link that is known as this connection's, or its next one.
    fn wake(&mut self, conn: u64)
        ensures told { Stays (waits self.old) (waits self.new) }
        ensures woken { Grows (notices self.old) (notices self.new) (Notice.Woke conn ∷ []) }
        ensures same { faults self.new ≡ faults self.old };
}
