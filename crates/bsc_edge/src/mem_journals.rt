//! Journals in memory, of which some calls fail.
ghost use Rattle.std.specs.Prelude.{◌≡◌, [], Ok, IfOk, option_map};

use crate::calls::Calls;
use crate::fault::LinkFault;
use crate::journals::Journals;
use crate::mem_journal::MemJournal;
use bsc_octets::{NoMemory, Octets};
use bsc_outside::MemSink;
use std::alloc::Global;

/// Journals in memory, each with room for so many octets, with a prefix or without. The calls of `begin` whose numbers
/// are in a list fail, and of each journal the writes whose numbers are in another. They count no lost line, and limit no file.
#[derive(Drop)]
pub struct MemJournals<'a> {
    room: usize,
    calls: Calls<'a>,
    unwritten: &'a [u64],
}

impl<'a> MemJournals<'a> {
    pub fn new(room: usize, failing: &'a [u64], unwritten: &'a [u64]) -> MemJournals<'a>
        ensures room { result.room ≡ room }
        ensures failing { result.calls.failing.now ≡ failing.now }
        ensures made { result.calls.made ≡ 0 }
        ensures unwritten { result.unwritten.now ≡ unwritten.now }
    {
        MemJournals {
            room,
            calls: Calls::of(failing),
            unwritten,
        }
    }
}

/// A prefix, in memory of its own.
fn copy_of(alloc: Global, prefix: Option<&str>) -> Result<Option<Octets>, NoMemory>
    ensures { IfOk result (λ o. o ≡ option_map (λ p. p.now) prefix.entry) }
{
    match prefix {
        Some(prefix) => Ok(Some(Octets::from_vec(Vec::from_slice(alloc, prefix.as_bytes())?))),
        None => Ok(None),
    }
}

impl<'a> Journals<MemJournal<'a>> for MemJournals<'a> {
    ghost faults = { λ j. j.calls.faults };

    ghost begins = { λ prefix number k. (k.prefix ≡ prefix) × (k.number ≡ number) × (k.sink.held.items ≡ []) };

    fn begin(
        &mut self,
        alloc: Global,
        prefix: Option<&str>,
        number: u64,
    ) -> Result<MemJournal<'a>, LinkFault> {
        if self.calls.fails() {
            return Err(LinkFault::Failed);
        }
        let Ok(prefix) = copy_of(alloc, prefix) else {
            return Err(LinkFault::NoMemory);
        };
        match MemSink::make(alloc, self.room, self.unwritten) {
            Ok(sink) => Ok(MemJournal {
                prefix,
                number,
                sink,
            }),
            Err(_) => Err(LinkFault::NoMemory),
        }
    }

    fn count_lost(&mut self) -> bool {
        false
    }

    fn set_limit(&mut self, _octets: u64) {}
}
