//! An inbox in memory.
ghost use Rattle.std.specs.Prelude.{◌≡◌, [], false, true};

use crate::inbox::inbox::LineInbox;
use crate::inbox::live_input::LiveInput;
use crate::inbox::taken::Taken;
use bsc_past::Past;
use std::collections::VecDeque;

/// An inbox in memory: what is taken of it is this, in its order, and then nothing.
#[derive(Drop)]
pub struct MemInbox {
    waiting: VecDeque<Taken>,
    /// Whether its input couldn't be read any further where it ends.
    is_cut: bool,
    failed: bool,
    taken: Past<Taken>,
}

impl MemInbox {
    /// An inbox in which this waits, and of which nothing was taken yet.
    pub fn new(waiting: Vec<Taken>) -> MemInbox
        ensures waiting { result.waiting.items ≡ waiting.items }
        ensures taken { result.taken.items ≡ [] }
        ensures whole { result.is_cut ≡ false }
        ensures going { result.failed ≡ false }
    {
        MemInbox {
            waiting: VecDeque::from(waiting),
            is_cut: false,
            failed: false,
            taken: Past::new(),
        }
    }

    /// The same of an input that can't be read any further where it ends.
    pub fn cut(waiting: Vec<Taken>) -> MemInbox
        ensures waiting { result.waiting.items ≡ waiting.items }
        ensures taken { result.taken.items ≡ [] }
        ensures cut { result.is_cut ≡ true }
        ensures going { result.failed ≡ false }
    {
        let mut inbox = MemInbox::new(waiting);
        inbox.is_cut = true;
        inbox
    }

    /// How much waits.
    pub fn left(&self) -> usize {
        self.waiting.len()
    }
}

impl LineInbox for MemInbox {
    ghost use Rattle.std.specs.Prelude.{◌≡◌, [], ◌∷◌, ◌++◌, ◌&&◌, None, Some, length};
    ghost use Rattle.bsc_input.specs.Inbox.Waiting.{Gives, is_end};

    ghost taken = { λ i. i.taken.items };

    fn take(&mut self) -> Taken
        ensures told { self.new.taken.items ≡ self.old.taken.items ++ result ∷ [] }

        // What stands first is taken.
        ensures gives { Gives self.old.waiting.items self.new.waiting.items result }

        // It has failed once the end of an input was taken that couldn't be read any further.
        ensures failed { self.new.failed ≡ (self.old.is_cut && is_end result) }
    {
        let taken = match self.waiting.pop_front() {
            Some(taken) => taken,
            None => Taken::Nothing,
        };
        self.failed = self.is_cut && matches!(taken, Taken::End);
        self.taken.add(&taken);
        taken
    }
}

impl LiveInput for MemInbox {
    ghost failed = { λ i. i.failed };

    fn has_failed(&self) -> bool {
        self.failed
    }
}
