//! The commands that play their input.
ghost use Rattle.std.specs.Prelude.{◌≡◌, ◌≢◌, ◌≤◌, ℕ, List, Some};
ghost use Rattle.bsc_player.specs.Ends.{PlaysOut};
ghost use Rattle.bsc_player.specs.Faults.{RisesIf};
ghost use Rattle.bsc_player.specs.Statuses.{IsStatus, StatusSays, StatusSaysOfReads, play_world, read_world};
ghost use Rattle.bsc_text.specs.Gave.{OfReads};
ghost use Rattle.bsc_commands.specs.Commands.{played_by};

use bsc_outside::{Sink, Source};
use bsc_player::end_play;
use bsc_replay::{ReplayEnd, check, replay};
use bsc_simulate::simulate;
use std::alloc::Global;

/// A command that plays its input.
#[derive(Clone, Copy, Debug, PartialEq, Eq)]
pub enum Command {
    /// `replay`: plays a script.
    Replay,
    /// `simulate`: plays the script of a network.
    Simulate,
    /// `check`: answers lines with the verdicts on messages.
    Check,
}

/// Plays a source by a command.
fn play_command<S: Source, K: Sink>(
    alloc: Global,
    command: Command,
    source: &mut S,
    sink: &mut K,
) -> ReplayEnd
    ensures played { (o t : List ℕ) → S.left source.old ≡ Some o → K.held sink.old ≡ Some t →
        PlaysOut (played_by command) result o t (S.left source.new) (K.held sink.new) }
    ensures took { (t : List ℕ) → K.held sink.old ≡ Some t → OfReads (S.reads source.old) (S.reads source.new)
        (λ o rest. PlaysOut (played_by command) result o t (Some rest) (K.held sink.new)) }
    ensures read_fault { RisesIf result ReplayEnd.ReadFault (S.faults source.old) (S.faults source.new) }
    ensures write_fault { RisesIf result ReplayEnd.WriteFault (K.faults sink.old) (K.faults sink.new) }
    ensures reads_later { S.faults source.old ≤ S.faults source.new }
    ensures writes_later { K.faults sink.old ≤ K.faults sink.new }
{
    match command {
        Command::Replay => replay(alloc, source, sink),
        Command::Simulate => simulate(alloc, source, sink),
        Command::Check => check(alloc, source, sink),
    }
}

/// Runs a command that plays its input, and answers the status.
///
/// | status | cause | last line written |
/// |---|---|---|
/// | 0 | the input was read to its end and its text was written | none of its own |
/// | 2 | line n of the input is refused | `fault script line n` |
/// | 3 | a read of the source failed | `fault read` |
/// | 4 | a write to the sink failed, also one of a last line | none |
/// | 7 | memory ran out | `fault memory`, tried once |
pub fn play<S: Source, K: Sink>(alloc: Global, command: Command, source: &mut S, sink: &mut K) -> u8
    // What the status says of the input: what was read, and what was written.
    ensures played { StatusSays (played_by command) (play_world S.left S.faults K.held source.old sink.old)
        (play_world S.left S.faults K.held source.new sink.new) result }
    ensures took { StatusSaysOfReads (played_by command) (read_world S.reads S.faults K.held source.old sink.old)
        (read_world S.reads S.faults K.held source.new sink.new) result }

    // Faults of the source and the sink are counted.
    ensures read { RisesIf result 3 (S.faults source.old) (S.faults source.new) }
    ensures write { RisesIf result 4 (K.faults sink.old) (K.faults sink.new) }
    ensures reads_later { S.faults source.old ≤ S.faults source.new }
    ensures writes_later { K.faults sink.old ≤ K.faults sink.new }
    ensures statuses { IsStatus result × (result ≢ 1) }
{
    let end = play_command(alloc, command, source, sink);
    end_play(alloc, sink, end)
}
