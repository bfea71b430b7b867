//! How many links are still to come.
ghost use Rattle.std.specs.Prelude.{◌≡◌, ◌≢◌, ◌↔◌, ◌+◌, ◌<◌, ◌^◌, ℕ, Option, Some, None, IsTrue};
ghost use Rattle.bsc_serve.specs.Tallies.{CountsUp, Remains, one_unless};

/// How many links are still to come, where that is settled, and how many of those that came have no session, up to the
/// greatest `u64`.
#[derive(Clone, Copy)]
pub(crate) struct Tally {
    pub(crate) remaining: Option<u64>,
    pub(crate) unstarted: u64,
}

impl Tally {
    pub(crate) fn of(sessions: Option<u64>) -> Tally
        ensures remaining { result.remaining ≡ sessions }
        ensures unstarted { result.unstarted ≡ 0 }
        ensures fits { (n : ℕ) → sessions ≡ Some n → n < 2 ^ 64 }
    {
        match sessions {
            Some(n) => Tally {
                remaining: Some(n),
                unstarted: 0,
            },
            None => Tally {
                remaining: None,
                unstarted: 0,
            },
        }
    }

    /// Whether all have come.
    pub(crate) fn is_full(&self) -> bool
        ensures { IsTrue result ↔ (self.now.remaining ≡ Some 0) }
    {
        self.remaining == Some(0)
    }

    /// One has come, whose session was started or not.
    pub(crate) fn count(&mut self, started: bool)
        requires { self.old.remaining ≢ Some 0 }
        ensures remains { (sessions : Option ℕ) (n : ℕ) → Remains sessions n self.old.remaining → Remains sessions (n + 1) self.new.remaining }
        ensures counted { (u : ℕ) → CountsUp self.old.unstarted u → CountsUp self.new.unstarted (u + one_unless started) }
    {
        self.remaining = match self.remaining {
            Some(n) => Some(n - 1),
            None => None,
        };
        if !started {
            self.unstarted = self.unstarted.saturating_add(1);
        }
    }
}
