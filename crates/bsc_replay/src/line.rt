//! What a line of `check` says.
ghost use Rattle.std.specs.Prelude.{◌≡◌, IfOk, Some, None, Err};
ghost use Rattle.bsc_text.specs.Words.{words_of};
ghost use Rattle.bsc_text.specs.Grammar.{octets_of_words};
ghost use Rattle.bsc_replay.specs.Asking.{phase_of_word, place_in, max_of_word, question_of, question_of_words, line_of};

use crate::places::{read_max, read_phase, read_place};
use bsc_checks::Place;
use bsc_octets::Octets;
use bsc_player::LineFault;
use bsc_text::{OctetsFault, begins_comment, next_word, read_octets};
use std::alloc::Global;

/// A line of `check`.
#[derive(Debug, Drop)]
pub enum Line {
    /// An empty line, or a comment.
    Nothing,
    /// What becomes of this message at this place, where messages have at most `max` octets?
    Question {
        place: Place,
        max: u16,
        message: Octets,
    },
}

/// The place that two words are, PLACE and PHASE.
fn place_in(place: &[u8], phase: &[u8]) -> Option<Place>
    ensures { result ≡ place_in place.now (phase_of_word phase.now) }
{
    let phase = read_phase(phase)?;
    read_place(place, phase)
}

/// The octets that the last words of a line write.
fn message_in(alloc: Global, words: &[u8]) -> Result<Octets, LineFault>
    ensures read { IfOk result (λ o. octets_of_words (words_of words.now) ≡ Some o) }
    ensures refused { result ≡ Err LineFault.Refused → octets_of_words (words_of words.now) ≡ None }
{
    match read_octets(alloc, words) {
        Ok(octets) => Ok(octets),
        Err(OctetsFault::Refused) => Err(LineFault::Refused),
        Err(OctetsFault::NoMemory) => Err(LineFault::NoMemory),
    }
}

/// A question of a place and a greatest length, where they are some, and of the octets that words write.
fn ask(
    alloc: Global,
    place: Option<Place>,
    max: Option<u16>,
    words: &[u8],
) -> Result<Line, LineFault>
    ensures read { IfOk result (λ l. question_of place max (octets_of_words (words_of words.now)) ≡ Some l) }
    ensures refused { result ≡ Err LineFault.Refused →
        question_of place max (octets_of_words (words_of words.now)) ≡ None }
{
    let (Some(place), Some(max)) = (place, max) else {
        return Err(LineFault::Refused);
    };
    let message = message_in(alloc, words)?;
    Ok(Line::Question {
        place,
        max,
        message,
    })
}

/// The question that the words of a line ask.
fn read_question(alloc: Global, words: &[u8]) -> Result<Line, LineFault>
    ensures read { IfOk result (λ l. question_of_words (words_of words.now) ≡ Some l) }
    ensures refused { result ≡ Err LineFault.Refused → question_of_words (words_of words.now) ≡ None }
{
    let Some((place, words)) = next_word(words) else {
        return Err(LineFault::Refused);
    };
    let Some((phase, words)) = next_word(words) else {
        return Err(LineFault::Refused);
    };
    let Some((max, words)) = next_word(words) else {
        return Err(LineFault::Refused);
    };
    ask(alloc, place_in(place, phase), read_max(max), words)
}

/// What a line says, or that it has no form of a line.
#[tactic(auto, unfolding(crate::specs::Asking::line_of))]
pub fn read_line(alloc: Global, line: &[u8]) -> Result<Line, LineFault>
    ensures read { IfOk result (λ l. line_of line.now ≡ Some l) }
    ensures refused { result ≡ Err LineFault.Refused → line_of line.now ≡ None }
{
    let Some((first, _)) = next_word(line) else {
        return Ok(Line::Nothing);
    };
    if begins_comment(first) {
        return Ok(Line::Nothing);
    }
    read_question(alloc, line)
}
