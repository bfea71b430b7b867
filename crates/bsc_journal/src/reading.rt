//! Reading the line of an entry: what its words say, whatever stands between them.
ghost use Rattle.std.specs.Prelude.{◌≡◌, ◌<◌, length, map, IfOk, IfSome, MatchOption, Some, None};
ghost use Rattle.bsc_text.specs.Words.{words_of};
ghost use Rattle.bsc_journal.specs.Reading.{after_one, loosened, number_in, numbers_in, looks_of, read};

use bsc_history::Look;
use bsc_octets::NoMemory;
use bsc_text::{next_word, read_number};
use std::alloc::Global;

/// An octet, with a space in place of what is no digit and no letter.
fn loosened(c: u8) -> u8
    ensures { result ≡ loosened c }
{
    if c.is_ascii_digit() || c.is_ascii_alphabetic() {
        c
    } else {
        b' '
    }
}

/// A line with a space in place of each octet that is no digit and no letter.
pub(crate) fn loosen(alloc: Global, line: &[u8]) -> Result<Vec<u8>, NoMemory>
    ensures { IfOk result (λ v. v.items ≡ map loosened line.now) }
{
    let mut loose = Vec::with_capacity(alloc, line.len())?;
    for c in line.iter() {
        loose.push(loosened(*c))?;
    }
    Ok(loose)
}

/// The words after the first.
pub(crate) fn after_one(words: &[u8]) -> &[u8]
    ensures { words_of result.now ≡ after_one (words_of words.now) }
{
    match next_word(words) {
        None => words,
        Some((_, rest)) => rest,
    }
}

/// The number that comes first, and the words after it.
pub(crate) fn number_in(words: &[u8]) -> Option<(u64, &[u8])>
    ensures read { MatchOption result
        (number_in (words_of words.now) ≡ None)
        (λ (n, rest). number_in (words_of words.now) ≡ Some (read n (words_of rest.now))) }
    ensures shorter { IfSome result (λ (_, rest). length rest.now < length words.now) }
{
    let (word, rest) = next_word(words)?;
    Some((read_number(word)?, rest))
}

/// The numbers that come first, as many as there are, and the words after them.
pub(crate) fn numbers_in(alloc: Global, mut words: &[u8]) -> Result<(Vec<u64>, &[u8]), NoMemory>
    ensures { IfOk result (λ (numbers, rest). numbers_in (words_of words.entry.now) ≡ read numbers.items (words_of rest.now)) }
{
    let mut numbers = Vec::new(alloc);
    while let Some((n, rest)) = number_in(words) {
        numbers.push(n)?;
        words = rest;
    }
    Ok((numbers, words))
}

/// The looks that numbers are, two by two.
pub(crate) fn looks_of(alloc: Global, mut numbers: &[u64]) -> Result<Vec<Look>, NoMemory>
    ensures { IfOk result (λ v. v.items ≡ looks_of numbers.entry.now) }
{
    let mut looks = Vec::new(alloc);
    while let [conn, taken, rest @ ..] = numbers {
        looks.push(Look {
            conn: *conn,
            taken: *taken,
        })?;
        numbers = rest;
    }
    Ok(looks)
}
