//! The words of a line.
ghost use Rattle.std.specs.Prelude.{◌≡◌, ◌≢◌, ◌<◌, ◌≤◌, ℕ, [], ◌∷◌, length, slice_index, IfOk, IfSome, MatchOption};
ghost use Rattle.std.specs.List.{flat_map};
ghost use Rattle.bsc_text.specs.Words.{words_of, space, begins_comment};

use bsc_octets::NoMemory;
use std::alloc::Global;

/// A line without the spaces at its front.
fn skip_spaces(mut line: &[u8]) -> &[u8]
    ensures words { words_of result.now ≡ words_of line.entry.now }
    ensures starts { 0 < length result.now → slice_index result.now 0 ≢ space }
    ensures shorter { length result.now ≤ length line.entry.now }
{
    while let [b' ', rest @ ..] = line {
        line = rest;
    }
    line
}

/// How many octets stand in front of the first space.
fn word_len(line: &[u8]) -> usize
    ensures within { result ≤ length line.now }
    ensures word { (k : ℕ) → k < result → slice_index line.now k ≢ space }
    ensures ended { result < length line.now → slice_index line.now result ≡ space }
{
    line.iter().position(|c| *c == b' ').unwrap_or(line.len())
}

/// The first word of a line, and the line after it.
pub fn next_word(line: &[u8]) -> Option<(&[u8], &[u8])>
    ensures word { MatchOption result
        (words_of line.now ≡ [])
        (λ (word, rest). words_of line.now ≡ word.now ∷ words_of rest.now) }
    ensures some { IfSome result (λ (word, _). 0 < length word.now) }
    ensures shorter { IfSome result (λ (_, rest). length rest.now < length line.now) }
{
    let line = skip_spaces(line);
    if line.is_empty() {
        return None;
    }
    Some(line.split_at(word_len(line)))
}

/// The octets of all words of a line, one word after another.
pub fn joined(alloc: Global, mut line: &[u8]) -> Result<Vec<u8>, NoMemory>
    ensures { IfOk result (λ v. v.items ≡ flat_map (λ w. w) (words_of line.entry.now)) }
{
    let mut octets = Vec::with_capacity(alloc, line.len())?;
    while let Some((word, rest)) = next_word(line) {
        octets.extend_from_slice(word)?;
        line = rest;
    }
    Ok(octets)
}

/// Whether a word begins a comment.
pub fn begins_comment(word: &[u8]) -> bool
    ensures { result ≡ begins_comment word.now }
{
    match word {
        [b'#', ..] => true,
        _ => false,
    }
}
