//! The inbox at a ring's outlet.
ghost use Rattle.std.specs.Prelude.{◌≡◌, [], ◌∷◌, ◌++◌, true, false};
ghost use Rattle.bsc_ring.specs.Ends.{given, known_pushed, knows_all};
ghost use Rattle.bsc_input.specs.Given.{EndsRightly, lines_taken};

use crate::inbox::{LineInbox, Taken};
use bsc_history::End;
use bsc_past::Past;
use bsc_ring::{Outlet, Take};

/// The inbox at a ring's outlet: its lines are those that the ring gives.
#[derive(Drop)]
pub struct RingInbox {
    outlet: Outlet,
    failed: bool,
    taken: Past<Taken>,
    ghost gave: { lines_taken taken.items ≡ given outlet },
}

impl RingInbox {
    /// The inbox at this outlet, of which nothing was taken yet.
    pub fn new(outlet: Outlet) -> RingInbox
        requires { given outlet ≡ [] }
        ensures taken { result.taken.items ≡ [] }
        ensures outlet { result.outlet ≡ outlet }
        ensures failed { result.failed ≡ false }
    {
        RingInbox {
            outlet,
            failed: false,
            taken: Past::new(),
        }
    }

    /// Whether the input ended since it couldn't be read any further, as far as that was taken.
    pub fn has_failed(&self) -> bool
        ensures { result ≡ self.now.failed }
    {
        self.failed
    }
}

/// What a take of the ring comes to.
fn taken_of(take: Take) -> (Taken, bool)
    ensures { EndsRightly take result.0 result.1 }
{
    match take {
        Take::Frame(line) => (Taken::Line(line), false),
        Take::Empty => (Taken::Nothing, false),
        Take::Closed(End::Stopped) => (Taken::End, false),
        Take::Closed(_) => (Taken::End, true),
    }
}

impl LineInbox for RingInbox {
    ghost taken = { λ i. i.taken.items };

    fn take(&mut self) -> Taken
        ensures told { self.new.taken.items ≡ self.old.taken.items ++ result ∷ [] }

        // The end is told only where all that was ever put into the ring was taken.
        ensures all { result ≡ Taken.End → (knows_all self.new.outlet ≡ true) × (known_pushed self.new.outlet ≡ given self.new.outlet) }
    {
        let (taken, failed) = taken_of(self.outlet.take());
        self.failed = failed;
        self.taken.add(&taken);
        taken
    }
}
