//! Calls of which some fail: what the objects in memory have in common.
ghost use Rattle.std.specs.Prelude.{◌≡◌, ◌≤◌, true};
ghost use Rattle.bsc_outside.specs.Faults.{HasRisen};
ghost use Rattle.bsc_outside.specs.Calls.{next_call, is_next_failing};

/// The numbers of the calls that fail, the first being 1, and how many calls and faults there have been.
#[derive(Debug, Drop)]
pub(crate) struct Calls<'a> {
    pub(crate) failing: &'a [u64],
    pub(crate) made: u64,
    pub(crate) faults: u64,
}

impl<'a> Calls<'a> {
    pub(crate) fn of(failing: &'a [u64]) -> Calls<'a>
        ensures failing { result.failing.now ≡ failing.now }
        ensures made { result.made ≡ 0 }
        ensures faults { result.faults ≡ 0 }
    {
        Calls {
            failing,
            made: 0,
            faults: 0,
        }
    }

    /// Counts a call, and where it is one that fails, its fault.
    pub(crate) fn fails(&mut self) -> bool
        ensures answer { result ≡ is_next_failing self.old.failing.now self.old.made }
        ensures made { self.new.made ≡ next_call self.old.made }
        ensures failing { self.new.failing.now ≡ self.old.failing.now }
        ensures later { self.old.faults ≤ self.new.faults }
        ensures rose { result ≡ true → HasRisen self.old.faults self.new.faults }
    {
        self.made = self.made.saturating_add(1);
        let fails = self.failing.contains(&self.made);
        if fails {
            self.fault();
        }
        fails
    }

    /// Counts a fault.
    pub(crate) fn fault(&mut self)
        ensures rose { HasRisen self.old.faults self.new.faults }
        ensures later { self.old.faults ≤ self.new.faults }
        ensures made { self.new.made ≡ self.old.made }
        ensures failing { self.new.failing.now ≡ self.old.failing.now }
    {
        self.faults = self.faults.saturating_add(1);
    }
}
