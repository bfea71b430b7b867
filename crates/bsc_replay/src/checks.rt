//! The language of `check`.
ghost use Rattle.std.specs.Prelude.{◌≡◌, ◌≤◌, ℕ, List, ⊤, Some, None};
ghost use Rattle.bsc_player.specs.Ends.{PlaysOut, AcceptsLines};
ghost use Rattle.bsc_player.specs.Faults.{RisesIf};
ghost use Rattle.bsc_text.specs.Gave.{OfReads};
ghost use Rattle.bsc_replay.specs.Checks.{checking, check_of};

use crate::answering::put_verdict;
use crate::line::{Line, read_line};
use bsc_checks::judge;
use bsc_outside::{Sink, Source};
use bsc_player::{Language, LineFault, PlayEnd, play_lines};
use std::alloc::Global;

/// The language of `check`.
#[derive(Drop)]
struct Checks;

impl Language for Checks {
    ghost State = { ⊤ };

    ghost means = { checking };

    ghost stands_for = { λ it s. ⊤ };

    fn carry_out(
        &mut self,
        alloc: Global,
        line: &[u8],
        text: &mut Vec<u8>,
    ) -> Result<(), LineFault> {
        match read_line(alloc, line) {
            Ok(Line::Nothing) => Ok(()),
            Ok(
                Line::Question {
                    place,
                    max,
                    message,
                },
            ) => {
                let verdict = judge(alloc, message.as_slice(), &place, max)?;
                put_verdict(text, alloc, &verdict)?;
                Ok(())
            }
            Err(fault) => Err(fault),
        }
    }

    fn may_end(&self) -> bool {
        true
    }
}

/// Answers each line of `check` that a source gives with the verdict on its message, and writes the answers to
/// a sink.
///
/// It goes as `play_lines` of `bsc_player` does: a line that is typed is answered at once, and an input may end
/// anywhere.
pub fn check<S: Source, K: Sink>(alloc: Global, source: &mut S, sink: &mut K) -> PlayEnd
    ensures checked { (o t : List ℕ) → S.left source.old ≡ Some o → K.held sink.old ≡ Some t →
        PlaysOut check_of result o t (S.left source.new) (K.held sink.new) }
    ensures took { (t : List ℕ) → K.held sink.old ≡ Some t → OfReads (S.reads source.old) (S.reads source.new)
        (λ o rest. PlaysOut check_of result o t (Some rest) (K.held sink.new)) }

    // An input may end anywhere: where its lines are accepted, none is refused.
    ensures accepts { (o : List ℕ) → AcceptsLines check_of o → (check_of o).refused ≡ None }
    ensures read_fault { RisesIf result PlayEnd.ReadFault (S.faults source.old) (S.faults source.new) }
    ensures write_fault { RisesIf result PlayEnd.WriteFault (K.faults sink.old) (K.faults sink.new) }
    ensures reads_later { S.faults source.old ≤ S.faults source.new }
    ensures writes_later { K.faults sink.old ≤ K.faults sink.new }
{
    let mut language = Checks;
    play_lines(alloc, &mut language, source, sink)
}
