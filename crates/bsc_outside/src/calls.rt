//! Calls that are counted, some of which fail: what the streams in memory have in common.
ghost use Rattle.std.specs.Prelude.{◌≡◌, ◌≤◌, true, false};
ghost use Rattle.bsc_outside.specs.Faults.{HasRisen};
ghost use Rattle.bsc_outside.specs.Calls.{next_call, is_next_failing};

/// The numbers of the calls that are to fail, and how many calls and faults there have been.
#[derive(Drop)]
pub struct Calls<'a> {
    pub failing: &'a [u64],
    /// How many calls were made, up to the greatest `u64`.
    pub made: u64,
    /// How many faults were answered, up to the greatest `u64`.
    pub faults: u64,
}

impl<'a> Calls<'a> {
    /// A count of calls before the first one.
    pub fn new(failing: &'a [u64]) -> Calls<'a>
        ensures failing { result.failing.now ≡ failing.now }
        ensures made { result.made ≡ 0 }
        ensures faults { result.faults ≡ 0 }
    {
        Calls {
            failing,
            made: 0,
            faults: 0,
        }
    }

    /// Counts a call, and says whether it is to fail.
    pub fn count(&mut self) -> bool
        ensures answer { result ≡ is_next_failing self.old.failing.now self.old.made }
        ensures made { self.new.made ≡ next_call self.old.made }
        ensures faults { self.new.faults ≡ self.old.faults }
        ensures failing { self.new.failing.now ≡ self.old.failing.now }
    {
        self.made = self.made.saturating_add(1);
        self.failing.contains(&self.made)
    }

    /// Counts a fault.
    pub fn fault(&mut self)
        ensures rose { HasRisen self.old.faults self.new.faults }
        ensures later { self.old.faults ≤ self.new.faults }
        ensures made { self.new.made ≡ self.old.made }
        ensures failing { self.new.failing.now ≡ self.old.failing.now }
    {
        self.faults = self.faults.saturating_add(1);
    }
}
