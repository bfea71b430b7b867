//! Reading a reply.
ghost use Rattle.std.specs.Prelude.{◌≡◌, IfOk, Some, None, Err};
ghost use Rattle.bsc_text.specs.Words.{words_of};
ghost use Rattle.bsc_journal.specs.Reading.{connect_reply_in, counts_of, end_of, gone_in, joined_in, last_reply_in, not_current_in};
ghost use Rattle.bsc_journal.specs.Reading.{number_if, numbers_among, other_reply_in, reply_in, sent_in};

use crate::reading::{after_one, numbers_in};
use bsc_history::{Conns, Counts, End, Refusal, Reply};
use bsc_octets::NoMemory;
use bsc_player::LineFault;
use bsc_text::{next_word, read_number};
use std::alloc::Global;

/// The number that the first word is.
fn number_if(words: &[u8]) -> Option<u64>
    ensures { result ≡ number_if (words_of words.now) }
{
    let (word, _) = next_word(words)?;
    read_number(word)
}

/// The End that a word names.
fn end_of(word: &[u8]) -> Option<End>
    ensures { result ≡ end_of word.now }
{
    if word == b"left".as_slice() {
        return Some(End::Left);
    }
    if word == b"replaced".as_slice() {
        return Some(End::Replaced);
    }
    if word == b"full".as_slice() {
        return Some(End::Full);
    }
    if word == b"stopped".as_slice() {
        return Some(End::Stopped);
    }
    None
}

/// A connect that joined.
fn read_joined(words: &[u8]) -> Option<Reply>
    ensures { result ≡ joined_in (words_of words.now) }
{
    let conn = number_if(words)?;
    let replaced = number_if(after_one(after_one(words)));
    Some(Reply::Joined { conn, replaced })
}

/// The three lists of a broadcast.
fn read_sent(alloc: Global, words: &[u8]) -> Result<Reply, NoMemory>
    ensures { IfOk result (λ r. r ≡ sent_in (words_of words.now)) }
{
    let (to, words) = numbers_in(alloc, after_one(words))?;
    let (missed, words) = numbers_in(alloc, after_one(words))?;
    let (skipped, _) = numbers_in(alloc, after_one(words))?;
    Ok(Reply::SentAll {
        to: Conns::from_vec(to),
        missed: Conns::from_vec(missed),
        skipped: Conns::from_vec(skipped),
    })
}

/// A connection that has left.
fn read_gone(words: &[u8]) -> Option<Reply>
    ensures { result ≡ gone_in (words_of words.now) }
{
    let (word, words) = next_word(words)?;
    let ending = end_of(word)?;
    let taken = number_if(words)?;
    Some(Reply::Gone { ending, taken })
}

/// A sender that has ended.
fn read_not_current(words: &[u8]) -> Option<Reply>
    ensures { result ≡ not_current_in (words_of words.now) }
{
    let (word, _) = next_word(words)?;
    let ending = end_of(word)?;
    Some(Reply::NotCurrent { ending })
}

/// The numbers among some words.
fn numbers_among(alloc: Global, mut words: &[u8]) -> Result<Vec<u64>, NoMemory>
    ensures { IfOk result (λ v. v.items ≡ numbers_among (words_of words.entry.now)) }
{
    let mut numbers = Vec::new(alloc);
    while let Some((word, rest)) = next_word(words) {
        if let Some(n) = read_number(word) {
            numbers.push(n)?;
        }
        words = rest;
    }
    Ok(numbers)
}

/// The counts that nine numbers are.
fn counts_of(numbers: &[u64]) -> Option<Reply>
    ensures { result ≡ counts_of numbers.now }
{
    let [
        joined,
        replaced,
        refused,
        unicasts,
        broadcasts,
        appended,
        dropped,
        full,
        missed,
    ] = numbers
    else {
        return None;
    };
    Some(Reply::Counted(Counts {
        joined: *joined,
        replaced: *replaced,
        refused: *refused,
        unicasts: *unicasts,
        broadcasts: *broadcasts,
        appended: *appended,
        dropped: *dropped,
        full: *full,
        missed: *missed,
    }))
}

/// A connect's reply, by its first word and those after it.
fn read_connect_reply(word: &[u8], words: &[u8]) -> Option<Reply>
    ensures { result ≡ connect_reply_in word.now (words_of words.now) }
{
    if word == b"joined".as_slice() {
        return read_joined(words);
    }
    if word == b"duplicate".as_slice() {
        let holder = number_if(words);
        return Some(Reply::Refused(Refusal::Duplicate { holder }));
    }
    if word == b"tablefull".as_slice() {
        let rows = number_if(words)?;
        return Some(Reply::Refused(Refusal::TableFull { rows }));
    }
    None
}

/// The reply to a leave, a stop or a count, or to a connect.
fn read_last_reply(alloc: Global, word: &[u8], words: &[u8]) -> Result<Reply, LineFault>
    ensures read { IfOk result (λ r. last_reply_in word.now (words_of words.now) ≡ Some r) }
    ensures refused { result ≡ Err LineFault.Refused → last_reply_in word.now (words_of words.now) ≡ None }
{
    if word == b"gone".as_slice() {
        return read_gone(words).ok_or(LineFault::Refused);
    }
    if word == b"counts".as_slice() {
        let numbers = numbers_among(alloc, words)?;
        return counts_of(numbers.as_slice()).ok_or(LineFault::Refused);
    }
    read_connect_reply(word, words).ok_or(LineFault::Refused)
}

/// The reply to a broadcast, or to a sender that has ended or has no receiver, or another.
fn read_other_reply(alloc: Global, word: &[u8], words: &[u8]) -> Result<Reply, LineFault>
    ensures read { IfOk result (λ r. other_reply_in word.now (words_of words.now) ≡ Some r) }
    ensures refused { result ≡ Err LineFault.Refused → other_reply_in word.now (words_of words.now) ≡ None }
{
    if word == b"noholder".as_slice() {
        return Ok(Reply::NoHolder);
    }
    if word == b"sentall".as_slice() {
        return Ok(read_sent(alloc, words)?);
    }
    if word == b"notcurrent".as_slice() {
        return read_not_current(words).ok_or(LineFault::Refused);
    }
    read_last_reply(alloc, word, words)
}

/// A reply. Behind a connect, `stopped` is a refusal.
pub(crate) fn read_reply(alloc: Global, connects: bool, words: &[u8]) -> Result<Reply, LineFault>
    ensures read { IfOk result (λ r. reply_in connects (words_of words.now) ≡ Some r) }
    ensures refused { result ≡ Err LineFault.Refused → reply_in connects (words_of words.now) ≡ None }
{
    let (word, words) = next_word(words).ok_or(LineFault::Refused)?;
    if word == b"stopped".as_slice() {
        return Ok(if connects {
            Reply::Refused(Refusal::Stopped)
        } else {
            Reply::Stopped
        });
    }
    if word == b"sent".as_slice() {
        let conn = number_if(words).ok_or(LineFault::Refused)?;
        return Ok(Reply::Appended { conn });
    }
    if word == b"full".as_slice() {
        let conn = number_if(words).ok_or(LineFault::Refused)?;
        return Ok(Reply::Closed { conn });
    }
    if word == b"long".as_slice() {
        let conn = number_if(words).ok_or(LineFault::Refused)?;
        return Ok(Reply::Skipped { conn });
    }
    read_other_reply(alloc, word, words)
}
