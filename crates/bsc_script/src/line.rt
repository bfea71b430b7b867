//! The lines of a script, and what they say.
ghost use Rattle.std.specs.Prelude.{◌≡◌, ◌∷◌, [], ℕ, List, IfOk, IfSome, MatchOption, if◌then◌else◌, Some, None, Err};
ghost use Rattle.bsc_text.specs.Words.{words_of};
ghost use Rattle.bsc_text.specs.Grammar.{octets_of_words};
ghost use Rattle.bsc_script.specs.Lines.{open_line_of_words, in_line_of_words, name_line_of_words, at_line_of_words, bare_line_of_words};
ghost use Rattle.bsc_script.specs.Lines.{hubs_line_of_words, other_line_of_words, line_of};

use crate::hub_line::read_hub;
use bsc_history::About;
use bsc_octets::Octets;
use bsc_player::LineFault;
use bsc_text::{
    OctetsFault, begins_comment, copy_of, is_name, next_word, read_number, read_octets,
};
use std::alloc::Global;

/// A line of a script.
#[derive(Debug, Drop)]
pub enum Line {
    /// An empty line, or a comment.
    Nothing,
    /// A hub is made.
    Hub(About),
    /// A WebSocket of this name opens.
    Open { name: Octets },
    /// The peer of this name sends a binary message.
    In { name: Octets, message: Octets },
    /// The peer of this name sends a text message.
    Text { name: Octets },
    /// The peer of this name closes.
    Drop { name: Octets },
    /// The outbox of this name is no longer emptied.
    Hold { name: Octets },
    /// The outbox of this name is emptied again.
    Free { name: Octets },
    /// The clock is set to this time, in milliseconds.
    At { ms: u64 },
    /// The hub stops.
    Stop,
    /// The hub tells its counts.
    Counts,
}

/// What a line says whose first word is `open`, by the words after it.
fn read_open(alloc: Global, words: &[u8]) -> Result<Line, LineFault>
    ensures read { IfOk result (λ l. open_line_of_words (words_of words.now) ≡ Some l) }
    ensures refused { result ≡ Err LineFault.Refused → open_line_of_words (words_of words.now) ≡ None }
{
    let Some((name, words)) = next_word(words) else {
        return Err(LineFault::Refused);
    };
    if next_word(words).is_some() || !is_name(name) {
        return Err(LineFault::Refused);
    }
    Ok(Line::Open {
        name: copy_of(alloc, name)?,
    })
}

/// The message that the words of a line write.
fn message_of(alloc: Global, words: &[u8]) -> Result<Octets, LineFault>
    ensures read { IfOk result (λ o. octets_of_words (words_of words.now) ≡ Some o) }
    ensures refused { result ≡ Err LineFault.Refused → octets_of_words (words_of words.now) ≡ None }
{
    match read_octets(alloc, words) {
        Ok(message) => Ok(message),
        Err(OctetsFault::Refused) => Err(LineFault::Refused),
        Err(OctetsFault::NoMemory) => Err(LineFault::NoMemory),
    }
}

/// What a line says whose first word is `in`, by the words after it.
fn read_in(alloc: Global, words: &[u8]) -> Result<Line, LineFault>
    ensures read { IfOk result (λ l. in_line_of_words (words_of words.now) ≡ Some l) }
    ensures refused { result ≡ Err LineFault.Refused → in_line_of_words (words_of words.now) ≡ None }
{
    let Some((name, words)) = next_word(words) else {
        return Err(LineFault::Refused);
    };
    let message = message_of(alloc, words)?;
    Ok(Line::In {
        name: copy_of(alloc, name)?,
        message,
    })
}

/// The name that is the only word.
fn read_name(alloc: Global, words: &[u8]) -> Result<Octets, LineFault>
    ensures read { IfOk result (λ name. words_of words.now ≡ name ∷ []) }
    ensures refused { result ≡ Err LineFault.Refused → (line : List ℕ → Line) → name_line_of_words line (words_of words.now) ≡ None }
{
    let Some((name, words)) = next_word(words) else {
        return Err(LineFault::Refused);
    };
    match next_word(words) {
        None => Ok(copy_of(alloc, name)?),
        Some(_) => Err(LineFault::Refused),
    }
}

/// What a line says whose first word is `at`, by the words after it.
fn read_at(words: &[u8]) -> Result<Line, LineFault>
    ensures read { IfOk result (λ l. at_line_of_words (words_of words.now) ≡ Some l) }
    ensures refused { result ≡ Err LineFault.Refused → at_line_of_words (words_of words.now) ≡ None }
{
    let Some((ms, words)) = next_word(words) else {
        return Err(LineFault::Refused);
    };
    if next_word(words).is_some() {
        return Err(LineFault::Refused);
    }
    match read_number(ms) {
        Some(ms) => Ok(Line::At { ms }),
        None => Err(LineFault::Refused),
    }
}

/// A line that has no more words.
fn read_bare(line: Line, words: &[u8]) -> Result<Line, LineFault>
    ensures read { IfOk result (λ l. bare_line_of_words line (words_of words.now) ≡ Some l) }
    ensures refused { result ≡ Err LineFault.Refused → bare_line_of_words line (words_of words.now) ≡ None }
{
    match next_word(words) {
        None => Ok(line),
        Some(_) => Err(LineFault::Refused),
    }
}

/// What a line says of the clock, or of the hub alone, by its first word and those after it.
fn read_hubs(first: &[u8], words: &[u8]) -> Result<Line, LineFault>
    ensures read { IfOk result (λ l. hubs_line_of_words first.now (words_of words.now) ≡ Some l) }
    ensures refused { result ≡ Err LineFault.Refused → hubs_line_of_words first.now (words_of words.now) ≡ None }
{
    if first == b"at".as_slice() {
        return read_at(words);
    }
    if first == b"stop".as_slice() {
        return read_bare(Line::Stop, words);
    }
    if first == b"counts".as_slice() {
        return read_bare(Line::Counts, words);
    }
    Err(LineFault::Refused)
}

/// What a line says of a name that closes, is held or is freed, or another line, by its first word and those
/// after it.
fn read_other(alloc: Global, first: &[u8], words: &[u8]) -> Result<Line, LineFault>
    ensures read { IfOk result (λ l. other_line_of_words first.now (words_of words.now) ≡ Some l) }
    ensures refused { result ≡ Err LineFault.Refused → other_line_of_words first.now (words_of words.now) ≡ None }
{
    if first == b"text".as_slice() {
        return Ok(Line::Text {
            name: read_name(alloc, words)?,
        });
    }
    if first == b"drop".as_slice() {
        return Ok(Line::Drop {
            name: read_name(alloc, words)?,
        });
    }
    if first == b"hold".as_slice() {
        return Ok(Line::Hold {
            name: read_name(alloc, words)?,
        });
    }
    if first == b"free".as_slice() {
        return Ok(Line::Free {
            name: read_name(alloc, words)?,
        });
    }
    read_hubs(first, words)
}

/// What a line says, or that it has no form of a line.
#[tactic(auto, unfolding(crate::specs::Lines::line_of))]
pub(crate) fn parse_line(alloc: Global, line: &[u8]) -> Result<Line, LineFault>
    ensures read { IfOk result (λ l. line_of line.now ≡ Some l) }
    ensures refused { result ≡ Err LineFault.Refused → line_of line.now ≡ None }
{
    let Some((first, words)) = next_word(line) else {
        return Ok(Line::Nothing);
    };
    if begins_comment(first) {
        return Ok(Line::Nothing);
    }
    if first == b"hub".as_slice() {
        return read_hub(words).ok_or(LineFault::Refused);
    }
    if first == b"open".as_slice() {
        return read_open(alloc, words);
    }
    if first == b"in".as_slice() {
        return read_in(alloc, words);
    }
    read_other(alloc, first, words)
}
