//! Octets that words write.
ghost use Rattle.std.specs.Prelude.{◌≡◌, IfOk, Some, None, Err};
ghost use Rattle.bsc_text.specs.Words.{words_of};
ghost use Rattle.bsc_text.specs.Grammar.{octets_of_words, decoded};
ghost use Rattle.hex.specs.Hex.{decode_of};

use crate::words::{joined, next_word};
use bsc_octets::{NoMemory, Octets};
use hex::FromHexError;
use std::alloc::Global;
use thiserror::Error;

/// Why words write no octets.
#[derive(Clone, Copy, Debug, PartialEq, Eq, Error)]
pub enum OctetsFault {
    /// They are no hexadecimal digits, or an odd number of them.
    #[error("no octets")]
    Refused,
    /// Memory ran out.
    #[error("out of memory")]
    NoMemory,
}

impl From<NoMemory> for OctetsFault {
    ghost use Rattle.bsc_text.specs.declared.octets.OctetsFault.TheVariants as fault;

    ghost from_gives = { λ _ r. r ≡ fault.NoMemory };

    fn from(_fault: NoMemory) -> OctetsFault {
        OctetsFault::NoMemory
    }
}

/// The octets of a word, in memory of their own.
pub fn copy_of(alloc: Global, word: &[u8]) -> Result<Octets, NoMemory>
    ensures { IfOk result (λ o. o ≡ word.now) }
{
    Ok(Octets::from_vec(Vec::from_slice(alloc, word)?))
}

/// The octets that hexadecimal digits write.
fn decode(alloc: Global, digits: &[u8]) -> Result<Octets, OctetsFault>
    ensures read { IfOk result (λ o. decoded (decode_of digits.now) ≡ Some o) }
    ensures refused { result ≡ Err OctetsFault.Refused → decoded (decode_of digits.now) ≡ None }
{
    match hex::decode(alloc, digits) {
        Ok(octets) => Ok(Octets::from_vec(octets)),
        Err(FromHexError::OutOfMemory) => Err(OctetsFault::NoMemory),
        Err(_) => Err(OctetsFault::Refused),
    }
}

/// The octets that several words write.
fn decode_joined(alloc: Global, words: &[u8]) -> Result<Octets, OctetsFault>
    ensures read { IfOk result (λ o. octets_of_words (words_of words.now) ≡ Some o) }
    ensures refused { result ≡ Err OctetsFault.Refused → octets_of_words (words_of words.now) ≡ None }
{
    let digits = joined(alloc, words)?;
    decode(alloc, digits.as_slice())
}

/// The octets that the words of a line write: hexadecimal digits in either case over any number of words,
/// an even number of them together. The digits of one word are read where they stand.
pub fn read_octets(alloc: Global, words: &[u8]) -> Result<Octets, OctetsFault>
    ensures read { IfOk result (λ o. octets_of_words (words_of words.now) ≡ Some o) }
    ensures refused { result ≡ Err OctetsFault.Refused → octets_of_words (words_of words.now) ≡ None }
{
    if let Some((word, rest)) = next_word(words) {
        if next_word(rest).is_none() {
            return decode(alloc, word);
        }
    }
    decode_joined(alloc, words)
}
