//! Scripts, played.
ghost use Rattle.std.specs.Prelude.{◌≡◌, ◌≤◌, ℕ, List, Some};
ghost use Rattle.bsc_player.specs.Ends.{PlaysOut};
ghost use Rattle.bsc_player.specs.Faults.{RisesIf};
ghost use Rattle.bsc_text.specs.Gave.{OfReads};
ghost use Rattle.bsc_script.specs.Scripts.{replay_of};

use bsc_outside::{Sink, Source};
use bsc_player::{PlayEnd, play_lines};
use bsc_script::Script;
use std::alloc::Global;

/// Replays the script that a source gives, and writes its text to a sink.
///
/// It goes as `play_lines` of `bsc_player` does: a script that is typed is answered line by line, and what was
/// collected is written before the replay ends, however it ends. A script that makes no hub is refused at the
/// number after its last line.
pub fn replay<S: Source, K: Sink>(alloc: Global, source: &mut S, sink: &mut K) -> PlayEnd
    ensures replayed { (o t : List ℕ) → S.left source.old ≡ Some o → K.held sink.old ≡ Some t →
        PlaysOut replay_of result o t (S.left source.new) (K.held sink.new) }
    ensures took { (t : List ℕ) → K.held sink.old ≡ Some t → OfReads (S.reads source.old) (S.reads source.new)
        (λ o rest. PlaysOut replay_of result o t (Some rest) (K.held sink.new)) }
    ensures read_fault { RisesIf result PlayEnd.ReadFault (S.faults source.old) (S.faults source.new) }
    ensures write_fault { RisesIf result PlayEnd.WriteFault (K.faults sink.old) (K.faults sink.new) }
    ensures reads_later { S.faults source.old ≤ S.faults source.new }
    ensures writes_later { K.faults sink.old ≤ K.faults sink.new }
{
    let mut language = Script::new();
    play_lines(alloc, &mut language, source, sink)
}
