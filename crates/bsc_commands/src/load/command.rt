//! The command.
ghost use Rattle.std.specs.Prelude.{◌≡◌, ◌≤◌, ◌⊎◌, None, Ok, Some};
ghost use Rattle.bsc_outside.specs.Faults.{HasRisen};
ghost use Rattle.bsc_player.specs.Faults.{RisesIf};
ghost use Rattle.bsc_player.specs.LastLines.{RanOut};
ghost use Rattle.bsc_commands.specs.Load.Lines.{SaysLoad};
ghost use Rattle.bsc_commands.specs.Load.Loaded.{RunsLoad};

use crate::load::texts::load_text;
use bsc_hub::Kept;
use bsc_load::{LoadEnd, LoadStop, WORKERS, load};
use bsc_outside::Sink;
use bsc_player::{end_with, out_of_memory};
use std::alloc::Global;
use std::sync::Wait;
use std::thread::Threads;

/// Writes what a workload came to that came to its end.
fn tell_end<K: Sink>(alloc: Global, sink: &mut K, end: LoadEnd) -> u8
    ensures says { SaysLoad (Ok end) result (K.held sink.old) (K.held sink.new) }
    ensures failed { (result ≡ 0) ⊎ (result ≡ 7) ⊎ ((result ≡ 4) × HasRisen (K.faults sink.old) (K.faults sink.new)) }
    ensures later { K.faults sink.old ≤ K.faults sink.new }
{
    match load_text(alloc, &end) {
        Ok(text) => end_with(sink, text.as_slice(), 0),
        Err(_) => out_of_memory(sink),
    }
}

/// Writes what a workload came to, and gives its status.
fn tell<K: Sink>(alloc: Global, sink: &mut K, end: Result<LoadEnd, LoadStop>) -> u8
    ensures says { SaysLoad end result (K.held sink.old) (K.held sink.new) }
    ensures write { RisesIf result 4 (K.faults sink.old) (K.faults sink.new) }
    ensures statuses { (result ≡ 0) ⊎ (result ≡ 4) ⊎ (result ≡ 7) ⊎ (result ≡ 9) }
    ensures later { K.faults sink.old ≤ K.faults sink.new }
{
    match end {
        Ok(end) => tell_end(alloc, sink, end),
        Err(LoadStop::NoMemory) => out_of_memory(sink),
        Err(LoadStop::Short { .. }) => end_with(sink, b"fault load\n", 9),
        Err(LoadStop::Stopped { .. }) => end_with(sink, b"fault load\n", 9),
    }
}

/// Runs the command `load`: makes a hub, puts it and its first pass into `kept`, runs so many workers on it, 1 to
/// `WORKERS`, and writes what that came to.
pub fn run_load<R: Threads + Wait + Sync, K: Sink>(
    rt: &R,
    alloc: Global,
    workers: u32,
    sink: &mut K,
    kept: &mut Kept,
) -> u8
    requires workers { (1 ≤ workers) × (workers ≤ WORKERS) }
    requires kept { kept.old.hub ≡ None }

    // Once a hub is made, it and its pass are kept, and this is what became of it and what was written of it.
    ensures runs { (hub : _) → kept.new.hub ≡ Some hub → RunsLoad workers kept.new hub result (K.held sink.old) (K.held sink.new) }

    // Where none is made there was no memory.
    ensures unmade { kept.new.hub ≡ None → RanOut result (K.held sink.old) (K.held sink.new) }
    ensures write { RisesIf result 4 (K.faults sink.old) (K.faults sink.new) }
    ensures statuses { (result ≡ 0) ⊎ (result ≡ 4) ⊎ (result ≡ 7) ⊎ (result ≡ 9) }
    ensures later { K.faults sink.old ≤ K.faults sink.new }
{
    let end = load(rt, alloc, workers, kept);
    tell(alloc, sink, end)
}
