//! Reading a call and its looks.
ghost use Rattle.std.specs.Prelude.{◌≡◌, [], IfOk, MatchOption, Some, None, Err};
ghost use Rattle.hex.specs.Hex.{decode_of, decode_sized};
ghost use Rattle.bsc_text.specs.Grammar.{decoded};
ghost use Rattle.bsc_text.specs.Words.{words_of};
ghost use Rattle.bsc_journal.specs.Reading.{asked, call_in, connect_in, forward_in, leave_in, read};

use crate::reading::{after_one, looks_of, number_in, numbers_in};
use bsc_history::{Call, Looks};
use bsc_octets::{Octets, read_identity};
use bsc_player::LineFault;
use bsc_text::next_word;
use hex::FromHexError;
use std::alloc::Global;

/// The octets that a word of hexadecimal digits writes.
fn frame_of(alloc: Global, word: &[u8]) -> Result<Octets, LineFault>
    ensures read { IfOk result (λ o. decoded (decode_of word.now) ≡ Some o) }
    ensures refused { result ≡ Err LineFault.Refused → decoded (decode_of word.now) ≡ None }
{
    match hex::decode(alloc, word) {
        Ok(octets) => Ok(Octets::from_vec(octets)),
        Err(FromHexError::OutOfMemory) => Err(LineFault::NoMemory),
        Err(_) => Err(LineFault::Refused),
    }
}

/// The 26 octets that a word of hexadecimal digits writes.
fn identity_octets(word: &[u8]) -> Option<[u8; 26]>
    ensures { MatchOption result
        (decoded (decode_sized word.now 26) ≡ None)
        (λ o. decoded (decode_sized word.now 26) ≡ Some o) }
{
    let mut octets = [0; 26];
    match hex::decode_to_slice(word, &mut octets) {
        Ok(()) => Some(octets),
        Err(_) => None,
    }
}

/// A call that shows no looks.
fn without_looks(alloc: Global, call: Call, words: &[u8]) -> (Call, Looks, &[u8])
    ensures { (result.0 ≡ call) × (result.1 ≡ []) × (result.2.now ≡ words.now) }
{
    (call, Looks::from_vec(Vec::new(alloc)), words)
}

/// A connect, by the words after its name.
fn read_connect(alloc: Global, words: &[u8]) -> Result<(Call, Looks, &[u8]), LineFault>
    ensures read { IfOk result (λ (call, looks, rest). connect_in (words_of words.now) ≡ Some (read (asked call looks) (words_of rest.now))) }
    ensures refused { result ≡ Err LineFault.Refused → connect_in (words_of words.now) ≡ None }
{
    let (word, rest) = next_word(words).ok_or(LineFault::Refused)?;
    let octets = identity_octets(word).ok_or(LineFault::Refused)?;
    let call = Call::Connect {
        who: read_identity(&octets),
    };
    Ok(without_looks(alloc, call, rest))
}

/// A forward, by the words after its name.
#[tactic(auto, using(crate::proofs::Forwards::first, crate::proofs::Forwards::short, crate::proofs::Forwards::bad, crate::proofs::Forwards::all))]
fn read_forward(alloc: Global, words: &[u8]) -> Result<(Call, Looks, &[u8]), LineFault>
    ensures read { IfOk result (λ (call, looks, rest). forward_in (words_of words.now) ≡ Some (read (asked call looks) (words_of rest.now))) }
    ensures refused { result ≡ Err LineFault.Refused → forward_in (words_of words.now) ≡ None }
{
    let (conn, words) = number_in(words).ok_or(LineFault::Refused)?;
    let (word, words) = next_word(words).ok_or(LineFault::Refused)?;
    let frame = frame_of(alloc, word)?;
    let (numbers, words) = numbers_in(alloc, after_one(words))?;
    let looks = Looks::from_vec(looks_of(alloc, numbers.as_slice())?);
    Ok((Call::Forward { conn, frame }, looks, words))
}

/// A leave, by the words after its name.
fn read_leave(alloc: Global, words: &[u8]) -> Result<(Call, Looks, &[u8]), LineFault>
    ensures read { IfOk result (λ (call, looks, rest). leave_in (words_of words.now) ≡ Some (read (asked call looks) (words_of rest.now))) }
    ensures refused { result ≡ Err LineFault.Refused → leave_in (words_of words.now) ≡ None }
{
    let Some((conn, words)) = number_in(words) else {
        return Err(LineFault::Refused);
    };
    let Some((taken, words)) = number_in(words) else {
        return Err(LineFault::Refused);
    };
    let Some((empties, words)) = number_in(words) else {
        return Err(LineFault::Refused);
    };
    let call = Call::Leave {
        conn,
        taken,
        empties,
    };
    Ok(without_looks(alloc, call, words))
}

/// The call that comes first, its looks, and the words after them.
pub(crate) fn read_call(alloc: Global, words: &[u8]) -> Result<(Call, Looks, &[u8]), LineFault>
    ensures read { IfOk result (λ (call, looks, rest). call_in (words_of words.now) ≡ Some (read (asked call looks) (words_of rest.now))) }
    ensures refused { result ≡ Err LineFault.Refused → call_in (words_of words.now) ≡ None }
{
    let (word, words) = next_word(words).ok_or(LineFault::Refused)?;
    if word == b"connect".as_slice() {
        return read_connect(alloc, words);
    }
    if word == b"forward".as_slice() {
        return read_forward(alloc, words);
    }
    if word == b"leave".as_slice() {
        return read_leave(alloc, words);
    }
    if word == b"stop".as_slice() {
        return Ok(without_looks(alloc, Call::Stop, words));
    }
    if word == b"count".as_slice() {
        return Ok(without_looks(alloc, Call::Count, words));
    }
    Err(LineFault::Refused)
}
