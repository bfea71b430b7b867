//! Plays a whole input.
ghost use Rattle.std.specs.Prelude.{◌≡◌, ◌≤◌, ◌<◌, ℕ, List, vec_len, Some, OnOk, OnErr};
ghost use Rattle.bsc_player.specs.Faults.{RisesIf};
ghost use Rattle.bsc_player.specs.Playing.{played_of};
ghost use Rattle.bsc_player.specs.Languages.{StepsTo};
ghost use Rattle.bsc_player.specs.Ends.{PlaysOut};
ghost use Rattle.bsc_text.specs.Gave.{OfReads};

use crate::collecting::{end_of, hand_over, relieve, stop};
use crate::language::{Language, LineFault};
use crate::play_end::PlayEnd;
use bsc_octets::Octets;
use bsc_outside::{Failed, Sink, Source};
use bsc_text::{Feed, NextLine};
use std::alloc::Global;
use std::mem;

/// Plays a line: carries it out, and puts its text behind the text that is collected. `room` is for the
/// text of one line, so that a line that isn't carried out leaves nothing behind.
fn play<L: Language>(
    alloc: Global,
    language: &mut L,
    line: &Octets,
    text: &mut Vec<u8>,
    room: &mut Vec<u8>,
) -> Result<(), LineFault>
    requires { (s : L.State) × L.stands_for language.old s }
    ensures played { (s : L.State) → L.stands_for language.old s →
        StepsTo (L.stands_for language.new) result text.old.items text.new.items (L.means.step s line.now) }
    ensures kept { OnErr result (text.new.items ≡ text.old.items) }
    ensures some { OnOk result ((s : L.State) × L.stands_for language.new s) }
{
    room.clear();
    language.carry_out(alloc, line.as_slice(), room)?;
    if text.extend_from_slice(room.as_slice()).is_err() {
        return Err(LineFault::NoMemory);
    }
    Ok(())
}

/// Plays the lines that a source gives, in this language, and writes their text to a sink.
///
/// It reads a piece of up to 64 KiB, carries out the whole lines that it then has, and writes their text in
/// one write before it reads again (or in more, where it is more than 1 MiB). So an input that is typed is
/// answered line by line. It goes on until a line is refused, a read or a write fails, memory runs out, or
/// the input ends, and writes what it has collected before it ends. An input of more than 2^40 octets is
/// refused at the line that goes past them, so it returns.
pub fn play_lines<L: Language, S: Source, K: Sink>(
    alloc: Global,
    language: &mut L,
    source: &mut S,
    sink: &mut K,
) -> PlayEnd
    requires some { (s : L.State) × L.stands_for language.old s }
    ensures played { (s : L.State) (o t : List ℕ) → L.stands_for language.old s →
        S.left source.old ≡ Some o → K.held sink.old ≡ Some t →
        PlaysOut (played_of L.means s) result o t (S.left source.new) (K.held sink.new) }

    // The same of what the reads gave and of whatever is left behind it, as no source can tell what is still to come.
    ensures took { (s : L.State) (t : List ℕ) → L.stands_for language.old s → K.held sink.old ≡ Some t →
        OfReads (S.reads source.old) (S.reads source.new)
        (λ o rest. PlaysOut (played_of L.means s) result o t (Some rest) (K.held sink.new)) }

    // Faults of the source and the sink are counted.
    ensures read_fault { RisesIf result PlayEnd.ReadFault (S.faults source.old) (S.faults source.new) }
    ensures write_fault { RisesIf result PlayEnd.WriteFault (K.faults sink.old) (K.faults sink.new) }
    ensures reads_later { S.faults source.old ≤ S.faults source.new }
    ensures writes_later { K.faults sink.old ≤ K.faults sink.new }
{
    let mut feed = match Feed::make(alloc) {
        Ok(feed) => feed,
        Err(_) => return PlayEnd::NoMemory,
    };
    let mut number = 1;
    let mut text = Vec::new(alloc);
    let mut room = Vec::new(alloc);
    let mut before = Vec::new(alloc);
    loop {
        match feed.next_line(mem::replace(&mut before, Vec::new(alloc))) {
            NextLine::Line(line) => {
                match play(alloc, language, &line, &mut text, &mut room) {
                    Ok(()) => (),
                    Err(LineFault::Refused) => {
                        return stop(sink, &mut text, PlayEnd::BadLine { line: number });
                    }
                    Err(LineFault::NoMemory) => {
                        return stop(sink, &mut text, PlayEnd::NoMemory);
                    }
                }
                number += 1;
                before = line.into_vec();
                if let Err(Failed) = relieve(sink, &mut text) {
                    return PlayEnd::WriteFault;
                }
            }
            NextLine::More => {
                if let Err(Failed) = hand_over(sink, &mut text) {
                    return PlayEnd::WriteFault;
                }
                if let Err(Failed) = feed.fill(source) {
                    return PlayEnd::ReadFault;
                }
            }
            NextLine::End => return stop(sink, &mut text, end_of(language.may_end(), number)),
            NextLine::Refused => {
                return stop(sink, &mut text, PlayEnd::BadLine { line: number });
            }
            NextLine::NoMemory => return stop(sink, &mut text, PlayEnd::NoMemory),
        }
    }
}
