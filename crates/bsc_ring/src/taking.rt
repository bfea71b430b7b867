//! What an outlet does.
ghost use Rattle.std.specs.Prelude.{◌≡◌, length};
ghost use Rattle.bsc_ring.specs.Ends.{Took, empties_of, given, outlet_mark};

use crate::ends::Outlet;
use crate::next_slot::slot_after;
use crate::steps::{load_end, take_next};
use crate::take::Take;

impl Outlet {
    /// Takes the oldest item that wasn't taken yet. The end word is loaded before the tail, so that a `Closed`
    /// misses no item.
    pub fn take(&mut self) -> Take
        ensures took { Took self.old result self.new }
        ensures mark { outlet_mark self.new ≡ outlet_mark self.old }
    {
        let ending = load_end(&self.table, &mut self.seat);
        let next = take_next(
            &self.table,
            &mut self.seat,
            self.capacity,
            self.taken,
            self.slot,
        );
        match next {
            Some(frame) => {
                self.slot = slot_after(self.slot, self.capacity);
                self.taken += 1;
                Take::Frame(frame)
            }
            None => match ending {
                Some(end) => Take::Closed(end),
                None => {
                    self.empties = self.empties.saturating_add(1);
                    Take::Empty
                }
            },
        }
    }

    /// How many items were taken.
    pub fn taken(&self) -> u64
        ensures { result ≡ length (given self.now) }
    {
        self.taken
    }

    /// How many takes answered `Empty`. The count stays at the greatest number of its type once it is there.
    pub fn empties(&self) -> u64
        ensures { result ≡ empties_of self.now }
    {
        self.empties
    }
}
