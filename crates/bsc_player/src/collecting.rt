//! The text that a play has collected, and how it is handed over.
ghost use Rattle.std.specs.Prelude.{◌≡◌, ◌≢◌, ◌≤◌, ◌<◌, ◌⊎◌, [], vec_len, OnOk, OnErr, IsErr};
ghost use Rattle.std.specs.Io.KnownBytes.{Appends};
ghost use Rattle.bsc_outside.specs.Faults.{HasRisen, PutsPrefix};
ghost use Rattle.bsc_player.specs.Collecting.{HandsOver, StopsAs, end_of};

use crate::play_end::PlayEnd;
use bsc_outside::{Failed, Sink};

/// So much collected text is written at once, although the input goes on: 1 MiB.
const FULL_TEXT_LEN: usize = 1_048_576;

/// Writes the text that is collected, in one write, and collects anew.
pub fn hand_over<K: Sink>(sink: &mut K, text: &mut Vec<u8>) -> Result<(), Failed>
    ensures over { OnOk result (Appends (K.held sink.old) (K.held sink.new) text.old.items) }
    ensures empty { OnOk result (text.new.items ≡ []) }
    ensures none { OnOk result (vec_len text.new ≡ 0) }
    ensures part { OnErr result (PutsPrefix (K.held sink.old) (K.held sink.new) text.old.items) }
    ensures failed { IsErr result → HasRisen (K.faults sink.old) (K.faults sink.new) }
    ensures later { K.faults sink.old ≤ K.faults sink.new }
{
    if text.is_empty() {
        return Ok(());
    }
    sink.write(text.as_slice())?;
    text.clear();
    Ok(())
}

/// Writes the text that is collected where it is a lot, so that it doesn't grow with the input.
pub fn relieve<K: Sink>(sink: &mut K, text: &mut Vec<u8>) -> Result<(), Failed>
    ensures over { OnOk result
        (HandsOver (K.held sink.old) (K.held sink.new) text.old.items text.new.items) }
    ensures little { OnOk result (vec_len text.new < FULL_TEXT_LEN) }
    ensures part { OnErr result (PutsPrefix (K.held sink.old) (K.held sink.new) text.old.items) }
    ensures failed { IsErr result → HasRisen (K.faults sink.old) (K.faults sink.new) }
    ensures later { K.faults sink.old ≤ K.faults sink.new }
{
    if text.len() < FULL_TEXT_LEN {
        return Ok(());
    }
    hand_over(sink, text)
}

/// Writes the text that is collected, and says how the play ends: as `end` says, or because that write failed.
pub fn stop<K: Sink>(sink: &mut K, text: &mut Vec<u8>, end: PlayEnd) -> PlayEnd
    ensures stopped { StopsAs result end (K.held sink.old) (K.held sink.new) text.old.items }
    ensures failed { (result ≡ end)
        ⊎ ((result ≡ PlayEnd.WriteFault) × HasRisen (K.faults sink.old) (K.faults sink.new)) }
    ensures later { K.faults sink.old ≤ K.faults sink.new }
{
    match hand_over(sink, text) {
        Ok(()) => end,
        Err(Failed) => PlayEnd::WriteFault,
    }
}

/// How an input ends whose lines were all accepted, and whose next line would have this number.
pub fn end_of(may_end: bool, number: u64) -> PlayEnd
    ensures is { result ≡ end_of may_end number }
    ensures read { result ≢ PlayEnd.ReadFault }
    ensures write { result ≢ PlayEnd.WriteFault }
{
    if may_end {
        PlayEnd::Done
    } else {
        PlayEnd::BadLine { line: number }
    }
}
