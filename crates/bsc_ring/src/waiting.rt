//! How much waits in a ring.
ghost use Rattle.std.specs.Prelude.{◌≡◌, ◌≤◌, length};
ghost use Rattle.bsc_ring.specs.Ends.{SameInlet, known_taken, pushed};

use crate::ends::Inlet;
use crate::steps::load_head;

impl Inlet {
    /// How many of the items that were pushed aren't taken yet, as one load of the head finds it. More may be taken
    /// meanwhile. Nothing changes, and no push knows of this load.
    pub fn waiting(&mut self) -> u64
        ensures same { SameInlet self.old self.new }
        ensures known { known_taken self.new ≡ known_taken self.old }
        ensures few { result ≤ length (pushed self.old) }
    {
        let taken = load_head(&self.table, &mut self.seat);
        self.sent.saturating_sub(taken)
    }
}
