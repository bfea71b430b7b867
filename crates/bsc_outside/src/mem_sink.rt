//! A sink in memory, of which some writes fail.
ghost use Rattle.std.specs.Prelude.{◌≡◌, ◌≤◌, ◌<◌, ◌+◌, ◌++◌, take, length, vec_capacity, true, false, [], Some, IsErr, IsOk, IfOk, OnOk, OnErr};
ghost use Rattle.std.specs.Io.KnownBytes.{Appends};
ghost use Rattle.bsc_outside.specs.Faults.{HasRisen, PutsPrefix};
ghost use Rattle.bsc_outside.specs.Calls.{next_call, is_next_failing};

use crate::calls::Calls;
use crate::stream::{Failed, Sink};
use bsc_octets::NoMemory;
use std::alloc::Global;

/// A sink that keeps what is written in memory of its own, and tells it. The memory is taken when the sink is
/// made: `room` octets. A write whose number is in a list fails and puts nothing, and the first write has the
/// number 1. A write that needs more room than is left fails too, and fills the room with its first octets.
#[derive(Drop)]
pub struct MemSink<'a> {
    held: Vec<u8>,
    room: usize,
    calls: Calls<'a>,
    ghost fits: { length held.items ≤ room },
    ghost reserved: { room ≤ vec_capacity held },
}

impl<'a> MemSink<'a> {
    /// A sink with room for so many octets, of which the writes with these numbers fail.
    pub fn make(alloc: Global, room: usize, failing: &'a [u64]) -> Result<MemSink<'a>, NoMemory>
        ensures held { IfOk result (λ s. s.held.items ≡ []) }
        ensures room { IfOk result (λ s. s.room ≡ room) }
        ensures failing { IfOk result (λ s. s.calls.failing.now ≡ failing.now) }
        ensures made { IfOk result (λ s. s.calls.made ≡ 0) }
        ensures faults { IfOk result (λ s. s.calls.faults ≡ 0) }
    {
        Ok(MemSink {
            held: Vec::with_capacity(alloc, room)?,
            room,
            calls: Calls::new(failing),
        })
    }

    /// The octets that were written.
    pub fn held(&self) -> &[u8]
        ensures { result.now ≡ self.now.held.items }
    {
        self.held.as_slice()
    }

    /// Puts octets for which there is room.
    fn put(&mut self, octets: &[u8])
        requires { length self.old.held.items + length octets.now ≤ self.old.room }
        ensures held { self.new.held.items ≡ self.old.held.items ++ octets.now }
        ensures room { self.new.room ≡ self.old.room }
        ensures calls { self.new.calls ≡ self.old.calls }
    {
        match self.held.extend_from_slice(octets) {
            Ok(()) => (),
            Err(_) => unreachable!(),
        }
    }
}

impl Sink for MemSink<'_> {
    ghost faults = { λ s. s.calls.faults };

    ghost held = { λ s. Some s.held.items };

    fn write(&mut self, from: &[u8]) -> Result<(), Failed>
        ensures later { self.old.calls.faults ≤ self.new.calls.faults }
        ensures failed { IsErr result → HasRisen self.old.calls.faults self.new.calls.faults }
        ensures ok { OnOk result (Appends (Some self.old.held.items) (Some self.new.held.items) from.now) }
        ensures err { OnErr result (PutsPrefix (Some self.old.held.items) (Some self.new.held.items) from.now) }

        // A write of the list puts nothing.
        ensures listed { is_next_failing self.old.calls.failing.now self.old.calls.made ≡ true →
            IsErr result × (self.new.held.items ≡ self.old.held.items) }

        // Any other fails exactly where there is too little room, and fills it then.
        ensures fits { is_next_failing self.old.calls.failing.now self.old.calls.made ≡ false →
            length self.old.held.items + length from.now ≤ self.old.room → IsOk result }
        ensures full { is_next_failing self.old.calls.failing.now self.old.calls.made ≡ false →
            self.old.room < length self.old.held.items + length from.now →
            IsErr result × (self.new.held.items ≡ take self.old.room (self.old.held.items ++ from.now)) }
        ensures made { self.new.calls.made ≡ next_call self.old.calls.made }
        ensures failing { self.new.calls.failing.now ≡ self.old.calls.failing.now }
        ensures room { self.new.room ≡ self.old.room }
    {
        if self.calls.count() {
            self.calls.fault();
            return Err(Failed);
        }
        let n = self.room - self.held.len();
        if from.len() <= n {
            self.put(from);
            return Ok(());
        }
        let (front, _) = from.split_at(n);
        self.put(front);
        self.calls.fault();
        Err(Failed)
    }
}
