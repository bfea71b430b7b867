//! How many entries a desk has made, and what they count.
#![tactic(auto)]

ghost use Rattle.std.specs.Prelude.{◌≡◌, ◌<◌, ◌+◌, ◌*◌, ◌^◌};
ghost use Rattle.bsc_history.specs.declared.limits.TheConstants.{MOST_ROWS};
ghost use Rattle.bsc_history.specs.Counting.{one_if, plus};
ghost use Rattle.bsc_desk.specs.Tallies.{AreAtMost, no_counts};

use bsc_history::Counts;

/// How many entries a desk has made, and what they count.
#[derive(Drop)]
pub struct Tally {
    pub(crate) made: u64,
    pub(crate) counts: Counts,
    // An entry counts at most `MOST_ROWS` of a kind: a broadcast has no more receivers.
    ghost bounded: { AreAtMost counts (made * MOST_ROWS) },
}

/// What counts nothing.
pub(crate) const NOTHING: Counts = Counts {
    joined: 0,
    replaced: 0,
    refused: 0,
    unicasts: 0,
    broadcasts: 0,
    appended: 0,
    dropped: 0,
    full: 0,
    missed: 0,
};

/// 1 where a test passes, to be counted.
pub(crate) fn one_if(passes: bool) -> u64
    ensures { result ≡ one_if passes }
{
    if passes { 1 } else { 0 }
}

impl Tally {
    /// No entries.
    pub(crate) fn new() -> Tally
        ensures made { result.made ≡ 0 }
        ensures counts { result.counts ≡ no_counts }
    {
        Tally {
            made: 0,
            counts: NOTHING,
        }
    }

    /// One entry more, which counts `more`.
    pub(crate) fn add(&mut self, more: Counts)
        requires few { self.old.made < 2 ^ 53 }
        requires small { AreAtMost more MOST_ROWS }
        ensures made { self.new.made ≡ self.old.made + 1 }
        ensures counts { self.new.counts ≡ plus self.old.counts more }
    {
        let counts = self.counts;
        self.made += 1;
        self.counts = Counts {
            joined: counts.joined + more.joined,
            replaced: counts.replaced + more.replaced,
            refused: counts.refused + more.refused,
            unicasts: counts.unicasts + more.unicasts,
            broadcasts: counts.broadcasts + more.broadcasts,
            appended: counts.appended + more.appended,
            dropped: counts.dropped + more.dropped,
            full: counts.full + more.full,
            missed: counts.missed + more.missed,
        };
    }
}
