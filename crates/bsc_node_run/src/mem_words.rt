//! Random words in memory, of which some calls fail.
ghost use Rattle.std.specs.Prelude.{◌≡◌, false};
ghost use Rattle.bsc_outside.specs.Calls.{next_call, is_next_failing};
ghost use Rattle.bsc_node_run.specs.Drawing.{GivesNext};

use crate::words::Words;
use bsc_outside::Failed;

/// Gives these words, and then fails. The calls with these numbers fail too, the first being 1, and take no word.
#[derive(Debug, Drop)]
pub struct MemWords<'a> {
    gives: &'a [u64],
    failing: &'a [u64],
    made: u64,
    faults: u64,
}

impl<'a> MemWords<'a> {
    pub fn new(gives: &'a [u64], failing: &'a [u64]) -> MemWords<'a>
        ensures gives { result.gives.now ≡ gives.now }
        ensures failing { result.failing.now ≡ failing.now }
        ensures made { result.made ≡ 0 }
        ensures faults { result.faults ≡ 0 }
    {
        MemWords {
            gives,
            failing,
            made: 0,
            faults: 0,
        }
    }

    /// Counts a call, and says whether it is one that fails.
    fn fails(&mut self) -> bool
        ensures answer { result ≡ is_next_failing self.old.failing.now self.old.made }
        ensures made { self.new.made ≡ next_call self.old.made }
        ensures failing { self.new.failing.now ≡ self.old.failing.now }
        ensures gives { self.new.gives.now ≡ self.old.gives.now }
        ensures faults { self.new.faults ≡ self.old.faults }
    {
        self.made = self.made.saturating_add(1);
        self.failing.contains(&self.made)
    }

    /// The first of the words that are left, which is taken.
    fn take(&mut self) -> Option<u64>
        ensures gives { GivesNext false self.old.gives.now result self.new.gives.now }
        ensures made { self.new.made ≡ self.old.made }
        ensures failing { self.new.failing.now ≡ self.old.failing.now }
        ensures faults { self.new.faults ≡ self.old.faults }
    {
        match self.gives {
            [first, rest @ ..] => {
                let word = *first;
                self.gives = rest;
                Some(word)
            }
            [] => None,
        }
    }
}

impl Words for MemWords<'_> {
    // Exactly the calls of the list give no word and take none, and any other gives the first that is left.
    ghost gives = { λ before word after. GivesNext (is_next_failing before.failing.now before.made) before.gives.now word after.gives.now
        × (after.made ≡ next_call before.made) × (after.failing.now ≡ before.failing.now) };

    ghost faults = { λ w. w.faults };

    fn next(&mut self) -> Result<u64, Failed> {
        if !self.fails() {
            if let Some(word) = self.take() {
                return Ok(word);
            }
        }
        self.faults = self.faults.saturating_add(1);
        Err(Failed)
    }
}
