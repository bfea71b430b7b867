//! Lines that go from an input into a ring.
ghost use Rattle.std.specs.Prelude.{◌≡◌, ◌≤◌, ◌^◌, length, None};
ghost use Rattle.bsc_ring.specs.Ends.{ending_of, pushed};

use crate::cutter::Cutter;
use bsc_ring::Inlet;

/// Lines that go from an input into a ring: those that were cut are in the ring.
#[derive(Drop)]
pub struct LineFeed {
    pub(crate) cutter: Cutter,
    pub(crate) inlet: Inlet,
    /// How many lines went in.
    pub(crate) count: u64,
    ghost same: { pushed inlet ≡ cutter.lines.items },
    ghost open: { ending_of inlet ≡ None },
    ghost counts: { count ≡ length (pushed inlet) },
    ghost few: { count ≤ 2 ^ 62 },
}
