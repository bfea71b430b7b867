//! What a session was served with, when it was let go.
ghost use Rattle.std.specs.Prelude.{◌≡◌};

use std::snapshot::Snapshot;

/// What the link, the clock and the journal of a session were when they were let go. It has no octets, and stands for contracts
/// alone. It is made by letting them go and in no other way, so nothing was done with them since.
#[derive(Drop)]
pub struct Last<L, C, N> {
    link: Snapshot<L>,
    clock: Snapshot<C>,
    journal: Snapshot<N>,
}

impl<L: Drop, C: Drop, N: Drop> Last<L, C, N> {
    /// Lets them go.
    pub(crate) fn of(link: L, clock: C, journal: N) -> Last<L, C, N>
        ensures link { result.link.value ≡ link }
        ensures clock { result.clock.value ≡ clock }
        ensures journal { result.journal.value ≡ journal }
    {
        Last {
            link: Snapshot::of(&link),
            clock: Snapshot::of(&clock),
            journal: Snapshot::of(&journal),
        }
    }
}
