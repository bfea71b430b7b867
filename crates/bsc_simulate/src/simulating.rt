//! Scripts of networks, played.
ghost use Rattle.std.specs.Prelude.{◌≡◌, ◌≤◌, ◌++◌, ℕ, List, Some};
ghost use Rattle.bsc_player.specs.Ends.{PlaysOut};
ghost use Rattle.bsc_player.specs.Faults.{RisesIf};
ghost use Rattle.bsc_text.specs.Gave.{OfReads};
ghost use Rattle.bsc_network_script.specs.Scripts.{simulate_of};
ghost use Rattle.bsc_network_script_laws.specs.Laws.{TellsWhatWasSent};

use crate::simulation::Simulation;
use bsc_octets::NoMemory;
use bsc_outside::{Sink, Source};
use bsc_player::{PlayEnd, play_lines};
use std::alloc::Global;

/// Plays a script from before its first line.
fn play_network<S: Source, K: Sink>(alloc: Global, source: &mut S, sink: &mut K) -> PlayEnd
    ensures simulated { (o t : List ℕ) → S.left source.old ≡ Some o → K.held sink.old ≡ Some t →
        PlaysOut simulate_of result o t (S.left source.new) (K.held sink.new) }
    ensures took { (t : List ℕ) → K.held sink.old ≡ Some t → OfReads (S.reads source.old) (S.reads source.new)
        (λ o rest. PlaysOut simulate_of result o t (Some rest) (K.held sink.new)) }
    ensures read_fault { RisesIf result PlayEnd.ReadFault (S.faults source.old) (S.faults source.new) }
    ensures write_fault { RisesIf result PlayEnd.WriteFault (K.faults sink.old) (K.faults sink.new) }
    ensures reads_later { S.faults source.old ≤ S.faults source.new }
    ensures writes_later { K.faults sink.old ≤ K.faults sink.new }
{
    match Simulation::make(alloc) {
        Ok(mut simulation) => play_lines(alloc, &mut simulation, source, sink),
        Err(NoMemory) => PlayEnd::NoMemory,
    }
}

/// Plays the script of a network that a source gives, and writes its text to a sink.
///
/// It goes as `play_lines` of `bsc_player` does: a script that is typed is answered line by line, and what was collected is
/// written before the play ends, however it ends. A script that adds no hub is refused at the number after its last line.
pub fn simulate<S: Source, K: Sink>(alloc: Global, source: &mut S, sink: &mut K) -> PlayEnd
    ensures simulated { (o t : List ℕ) → S.left source.old ≡ Some o → K.held sink.old ≡ Some t →
        PlaysOut simulate_of result o t (S.left source.new) (K.held sink.new) }
    ensures took { (t : List ℕ) → K.held sink.old ≡ Some t → OfReads (S.reads source.old) (S.reads source.new)
        (λ o rest. PlaysOut simulate_of result o t (Some rest) (K.held sink.new)) }

    // Each delivery that is written comes from the Send at its place, and no two are of one Send and to one node.
    ensures delivers { (o t : List ℕ) → S.left source.old ≡ Some o → K.held sink.old ≡ Some t →
        (text : List ℕ) × (K.held sink.new ≡ Some (t ++ text)) × TellsWhatWasSent o text }
    ensures took_delivers { (t : List ℕ) → K.held sink.old ≡ Some t → OfReads (S.reads source.old) (S.reads source.new)
        (λ o rest. (text : List ℕ) × (K.held sink.new ≡ Some (t ++ text)) × TellsWhatWasSent o text) }

    // Faults of the source and the sink are counted.
    ensures read_fault { RisesIf result PlayEnd.ReadFault (S.faults source.old) (S.faults source.new) }
    ensures write_fault { RisesIf result PlayEnd.WriteFault (K.faults sink.old) (K.faults sink.new) }
    ensures reads_later { S.faults source.old ≤ S.faults source.new }
    ensures writes_later { K.faults sink.old ≤ K.faults sink.new }
{
    play_network(alloc, source, sink)
}
