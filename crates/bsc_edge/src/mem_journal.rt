//! A journal in memory.
ghost use Rattle.std.specs.Prelude.{Some};

use bsc_octets::Octets;
use bsc_outside::{Failed, MemSink, Sink};

/// A journal in memory: the prefix and the number for which it was begun, and what was written.
#[derive(Drop)]
pub struct MemJournal<'a> {
    pub prefix: Option<Octets>,
    pub number: u64,
    pub sink: MemSink<'a>,
}

impl Sink for MemJournal<'_> {
    ghost faults = { λ j. j.sink.calls.faults };

    ghost held = { λ j. Some j.sink.held.items };

    fn write(&mut self, from: &[u8]) -> Result<(), Failed> {
        self.sink.write(from)
    }
}
