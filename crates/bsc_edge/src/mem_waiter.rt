//! Waits between turns in memory.
ghost use Rattle.std.specs.Prelude.{◌≡◌, [], Some};
ghost use Rattle.bsc_edge.specs.Notes.{noted};

use crate::notes::note;
use crate::waiter::Waiter;
use std::alloc::Global;

/// Waits for nothing, and tells the waits that were asked for while there is memory for it.
#[derive(Debug, Drop)]
pub struct MemWaiter {
    waits: Option<Vec<u32>>,
}

impl MemWaiter {
    pub fn new(alloc: Global) -> MemWaiter
        ensures { noted result.waits ≡ Some [] }
    {
        MemWaiter {
            waits: Some(Vec::new(alloc)),
        }
    }

    /// The waits that were asked for; None where there was no memory to note them.
    pub fn waits(&self) -> Option<&[u32]> {
        match &self.waits {
            Some(waits) => Some(waits.as_slice()),
            None => None,
        }
    }
}

impl Waiter for MemWaiter {
    ghost waits = { λ w. noted w.waits };

    fn wait(&mut self, most_ms: u32) {
        note(&mut self.waits, Ok(most_ms));
    }
}
