//! Waits in memory.
ghost use Rattle.std.specs.Prelude.{◌≡◌, ◌≤◌, true, [], Some};
ghost use Rattle.bsc_edge.specs.Notes.{noted};

use crate::Failed;
use crate::calls::Calls;
use crate::notes::note;
use crate::patience::Patience;
use std::alloc::Global;

/// Waits for nothing, and tells the waits that were set while there is memory for it. The sets with these numbers fail.
#[derive(Debug, Drop)]
pub struct MemPatience<'a> {
    calls: Calls<'a>,
    waits: Option<Vec<u32>>,
}

impl<'a> MemPatience<'a> {
    pub fn new(alloc: Global, failing: &'a [u64]) -> MemPatience<'a>
        ensures failing { result.calls.failing.now ≡ failing.now }
        ensures waits { noted result.waits ≡ Some [] }
    {
        MemPatience {
            calls: Calls::of(failing),
            waits: Some(Vec::new(alloc)),
        }
    }

    /// The waits that were set; None where there was no memory to note them.
    pub fn waits(&self) -> Option<&[u32]> {
        match &self.waits {
            Some(waits) => Some(waits.as_slice()),
            None => None,
        }
    }
}

impl Patience for MemPatience<'_> {
    ghost faults = { λ p. p.calls.faults };

    ghost waits = { λ p. noted p.waits };

    fn set(&mut self, wait_ms: u32) -> Result<(), Failed> {
        if self.calls.fails() {
            return Err(Failed);
        }
        note(&mut self.waits, Ok(wait_ms));
        Ok(())
    }

    fn set_connection(&mut self, _conn: u64) {}

    fn wake(&mut self, _conn: u64) {}
}
