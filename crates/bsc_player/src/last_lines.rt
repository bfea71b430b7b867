//! The last line of a run that plays an input, and the status that it ends with.
ghost use Rattle.std.specs.Prelude.{◌≡◌, ◌≤◌, ◌⊎◌, string_bytes, IfOk};
ghost use Rattle.bsc_outside.specs.Faults.{HasRisen, PutsPrefix};
ghost use Rattle.bsc_player.specs.LastLines.{script_line, memory_line, EndsWith, RanOut, EndsTo};
ghost use Rattle.bsc_player.specs.Statuses.{IsMishap};

use crate::play_end::PlayEnd;
use bsc_octets::NoMemory;
use bsc_outside::Sink;
use std::alloc::Global;

/// Tries the last line of a run that ran out of memory, and doesn't look at the answer. The status is 7.
pub fn out_of_memory<K: Sink>(sink: &mut K) -> u8
    ensures status { result ≡ 7 }
    ensures tried { PutsPrefix (K.held sink.old) (K.held sink.new) memory_line }
    ensures later { K.faults sink.old ≤ K.faults sink.new }
{
    let _ = sink.write(b"fault memory\n");
    7
}

/// Writes the last line of a run that ends with this status. Where that write fails, the status is 4.
pub fn end_with<K: Sink>(sink: &mut K, line: &[u8], status: u8) -> u8
    ensures ends { EndsWith result status (K.held sink.old) (K.held sink.new) line.now }
    ensures failed { (result ≡ status)
        ⊎ ((result ≡ 4) × HasRisen (K.faults sink.old) (K.faults sink.new)) }
    ensures later { K.faults sink.old ≤ K.faults sink.new }
{
    match sink.write(line) {
        Ok(()) => status,
        Err(_) => 4,
    }
}

/// The last line of a run whose input is refused at this line.
fn script_line(alloc: Global, line: u64) -> Result<String, NoMemory>
    ensures { IfOk result (λ text. string_bytes text ≡ script_line line) }
{
    Ok(format!(in alloc; "fault script line {line}\n")?)
}

/// Ends a run whose input is refused at this line.
fn refuse_line<K: Sink>(alloc: Global, sink: &mut K, line: u64) -> u8
    ensures ends { EndsWith result 2 (K.held sink.old) (K.held sink.new) (script_line line)
        ⊎ RanOut result (K.held sink.old) (K.held sink.new) }
    ensures failed { (result ≡ 2) ⊎ (result ≡ 7)
        ⊎ ((result ≡ 4) × HasRisen (K.faults sink.old) (K.faults sink.new)) }
    ensures later { K.faults sink.old ≤ K.faults sink.new }
{
    match script_line(alloc, line) {
        Ok(text) => end_with(sink, text.as_bytes(), 2),
        Err(NoMemory) => out_of_memory(sink),
    }
}

/// Ends a run whose play ended so: writes its last line, where it has one, and gives its status.
pub fn end_play<K: Sink>(alloc: Global, sink: &mut K, end: PlayEnd) -> u8
    ensures ends { EndsTo end result (K.held sink.old) (K.held sink.new) }
    ensures read { result ≡ 3 → end ≡ PlayEnd.ReadFault }
    ensures write { result ≡ 4 →
        (end ≡ PlayEnd.WriteFault) ⊎ HasRisen (K.faults sink.old) (K.faults sink.new) }
    ensures statuses { (result ≡ 0) ⊎ (result ≡ 2) ⊎ IsMishap result }
    ensures later { K.faults sink.old ≤ K.faults sink.new }
{
    match end {
        PlayEnd::Done => 0,
        PlayEnd::BadLine { line } => refuse_line(alloc, sink, line),
        PlayEnd::ReadFault => end_with(sink, b"fault read\n", 3),
        PlayEnd::WriteFault => 4,
        PlayEnd::NoMemory => out_of_memory(sink),
    }
}
