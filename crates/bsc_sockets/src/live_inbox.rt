//! The lines that a node is asked by as it runs, and what rouses it for them.
ghost use Rattle.std.specs.Prelude.{◌≡◌, [], ◌∷◌, ◌++◌, true, IfOk};
ghost use Rattle.bsc_ring.specs.Ends.{given, known_pushed, knows_all};

use bsc_input::{LineInbox, LiveInput, RingInbox, Rouser, Taken};
use bsc_live::{Seat, SeatWaker, Watch};
use bsc_ring::Outlet;
use std::alloc::Global;
use std::io;
use std::sync::Arc;

/// The inbox of a node whose lines another thread reads. It has a seat at the watch where the node waits: while more lines may be
/// there the node doesn't wait, and one that has taken all sleeps until it is roused.
#[derive(Drop)]
pub struct LiveInbox {
    ring: RingInbox,
    seat: Seat,
}

/// Rouses the node that takes the lines, from the thread that reads them.
#[derive(Drop)]
pub struct LineRouser {
    waker: SeatWaker,
}

impl LiveInbox {
    /// The inbox at this outlet, whose node waits at this watch, and what rouses it.
    pub(crate) fn new(
        alloc: Global,
        outlet: Outlet,
        watch: &Arc<Watch>,
    ) -> io::Result<(LiveInbox, LineRouser)>
        requires { given outlet ≡ [] }
        ensures taken { IfOk result (λ (inbox, _). inbox.ring.taken.items ≡ []) }
        ensures outlet { IfOk result (λ (inbox, _). inbox.ring.outlet ≡ outlet) }
    {
        let (seat, waker) = Seat::with_waker(alloc, watch)?;
        let ring = RingInbox::new(outlet);
        Ok((LiveInbox { ring, seat }, LineRouser { waker }))
    }
}

impl LineInbox for LiveInbox {
    ghost taken = { λ i. i.ring.taken.items };

    fn take(&mut self) -> Taken
        ensures told { self.new.ring.taken.items ≡ self.old.ring.taken.items ++ result ∷ [] }

        // The end is told only where all that was ever put into the ring was taken.
        ensures all { result ≡ Taken.End → (knows_all self.new.ring.outlet ≡ true) × (known_pushed self.new.ring.outlet ≡ given self.new.ring.outlet) }
    {
        let taken = self.ring.take();
        // Another line may stand behind one. Where none was there, whoever puts the next one rouses this seat behind that.
        self.seat.set_hot(matches!(taken, Taken::Line(_)));
        taken
    }
}

impl LiveInput for LiveInbox {
    ghost failed = { λ i. i.ring.failed };

    fn has_failed(&self) -> bool {
        self.ring.has_failed()
    }
}

impl Rouser for LineRouser {
    fn rouse(&self) {
        self.waker.wake();
    }
}
