//! Rows.
ghost use Rattle.std.specs.Prelude.{◌≡◌};
ghost use Rattle.bsc_ring.specs.Ends.{ending_of};

use bsc_history::{Connection, End};
use bsc_ring::Inlet;

/// A connection that hasn't left, with its inlet.
#[derive(Drop)]
pub struct Row {
    pub(crate) connection: Connection,
    pub(crate) inlet: Inlet,
    /// How the connection has ended, if it has.
    pub(crate) ending: Option<End>,
    // An inlet tells its End to contracts alone, so the row has its own.
    ghost tied: { ending_of inlet ≡ ending },
}
