//! What an inlet does.
ghost use Rattle.std.specs.Prelude.{◌≡◌, ◌≢◌, ◌+◌, ◌<◌, ◌^◌, ◌++◌, [], ◌∷◌, length, IfOk, IfErr, OnOk, Some, None};
ghost use Rattle.bsc_history.specs.declared.ending.End.TheVariants.{Left};
ghost use Rattle.bsc_ring.specs.Ends.{Loaded, capacity_of, ending_of, inlet_mark, known_taken, loads, pushed};

use crate::ends::Inlet;
use crate::next_slot::slot_after;
use crate::steps::{put_in, store_end};
use bsc_history::End;
use bsc_octets::Octets;

impl Inlet {
    /// Puts a frame behind the others, and answers how many items were taken, as this call's load of the
    /// head found it. A full ring refuses: the frame and that number come back.
    #[tactic(auto, using(crate::proofs::Counting::newest_last, crate::proofs::Counting::length_more))]
    pub fn push(&mut self, frame: Octets) -> Result<u64, (Octets, u64)>
        requires open { ending_of self.old ≡ None }
        requires in_range { length (pushed self.old) < 2 ^ 63 }

        // It loads the head once, and the number that is found is the one that is answered.
        ensures load { IfOk result (λ head. Loaded self.old head self.new) }
        ensures load_refused { IfErr result (λ (_, head). Loaded self.old head self.new) }

        // It is refused exactly where by this load the items that aren't taken are as many as the capacity.
        ensures room { IfOk result (λ head. length (pushed self.old) < head + capacity_of self.old) }
        ensures full { IfErr result (λ (_, head).
            length (pushed self.old) ≡ head + capacity_of self.old) }

        // The frame is the newest item then, or comes back.
        ensures adds { OnOk result (pushed self.new ≡ pushed self.old ++ frame ∷ []) }
        ensures refuses { IfErr result (λ (back, _).
            (back ≡ frame) × (pushed self.new ≡ pushed self.old)) }

        ensures mark { inlet_mark self.new ≡ inlet_mark self.old }
        ensures same { (capacity_of self.new ≡ capacity_of self.old) × (ending_of self.new ≡ None) }
    {
        let put = put_in(
            &self.table,
            &mut self.seat,
            self.capacity,
            self.sent,
            self.slot,
            frame,
        );
        match put {
            Ok(head) => {
                self.slot = slot_after(self.slot, self.capacity);
                self.sent += 1;
                Ok(head)
            }
            Err(refusal) => Err(refusal),
        }
    }

    /// Says that no more is pushed, and why.
    pub fn finish(&mut self, ending: End)
        requires open { ending_of self.old ≡ None }
        requires named { ending ≢ Left }
        ensures ended { ending_of self.new ≡ Some ending }
        ensures items { pushed self.new ≡ pushed self.old }
        ensures loads { (loads self.new ≡ loads self.old) × (known_taken self.new ≡ known_taken self.old) }
        ensures mark { inlet_mark self.new ≡ inlet_mark self.old }
        ensures same { capacity_of self.new ≡ capacity_of self.old }
    {
        store_end(&self.table, &mut self.seat, ending);
    }
}
