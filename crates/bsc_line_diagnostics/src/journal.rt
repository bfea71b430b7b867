//! Lines of a journal (docs/AUDIT.md, "What a journal is").
ghost use Rattle.std.specs.Prelude.{◌≡◌, codes, drop, IfSome};
ghost use Rattle.bsc_text.specs.Words.{words_of};
ghost use Rattle.bsc_diagnostics.specs.Forms.{Says as SaysBroken, TellsFirst, or_no_line};
ghost use Rattle.bsc_line_diagnostics.specs.Journals.{TellsOrLeaves, behind_call, call_own, connect_own, entry_broken, forward_own, is_answer, is_reply, is_sending, journal_broken, leave_own};
ghost use Rattle.bsc_journal.specs.declared.journal_record.JournalRecord.{JournalRecord as SaidOf};
ghost use Rattle.bsc_journal.specs.Saying.{Says};

use crate::script::hold_hub;
use bsc_diagnostics::{
    Diagnostic, first_of, hold, hold_digits, hold_number, hold_octets, told_or, word_of,
};
use bsc_journal::read_said;
use bsc_text::{begins_comment, next_word};
use std::alloc::Global;

const ENTRY: &str = "PLACE CALLER CALL REPLY";

const CONNECT: &str = "PLACE CALLER connect DIGITS REPLY";

const FORWARD: &str = "PLACE CALLER forward C OCTETS looks L REPLY";

const LEAVE: &str = "PLACE CALLER leave C TAKEN EMPTIES REPLY";

/// How many digits the identity of a connect has.
const IDENTITY_DIGITS: usize = 52;

/// What is read word by word, and isn't written as it has to be.
const NOT_EXACT: &str =
    "it isn't exact: one space between words, capitals in hexadecimal digits, and all words of its reply";

/// A connect, by the words after its name: the words after it.
fn hold_connect<'a>(words: &'a [u8]) -> Result<&'a [u8], Diagnostic<'a>>
    ensures { TellsOrLeaves (λ rest. words_of rest.now) result (connect_own (words_of words.now)) (drop 1 (words_of words.now)) }
{
    let (word, rest) = word_of(words, CONNECT)?;
    hold_digits(word)?;
    hold(
        word.len() == IDENTITY_DIGITS,
        word,
        "isn't 52 hexadecimal digits",
    )?;
    Ok(rest)
}

/// A forward, likewise.
fn hold_forward<'a>(words: &'a [u8]) -> Result<&'a [u8], Diagnostic<'a>>
    ensures { TellsOrLeaves (λ rest. words_of rest.now) result (forward_own (words_of words.now)) (drop 4 (words_of words.now)) }
{
    let (conn, words) = word_of(words, FORWARD)?;
    let (frame, words) = word_of(words, FORWARD)?;
    let (looks, words) = word_of(words, FORWARD)?;
    let (_, rest) = word_of(words, FORWARD)?;
    hold_number(conn)?;
    hold_octets(frame)?;
    hold(looks == b"looks".as_slice(), looks, "isn't `looks`")?;
    Ok(rest)
}

/// A leave, likewise.
fn hold_leave<'a>(words: &'a [u8]) -> Result<&'a [u8], Diagnostic<'a>>
    ensures { TellsOrLeaves (λ rest. words_of rest.now) result (leave_own (words_of words.now)) (drop 3 (words_of words.now)) }
{
    let (conn, words) = word_of(words, LEAVE)?;
    let (taken, words) = word_of(words, LEAVE)?;
    let (empties, rest) = word_of(words, LEAVE)?;
    hold_number(conn)?;
    hold_number(taken)?;
    hold_number(empties)?;
    Ok(rest)
}

/// A call, by its name and the words after it: the words after it.
fn hold_call<'a>(call: &'a [u8], words: &'a [u8]) -> Result<&'a [u8], Diagnostic<'a>>
    ensures { TellsOrLeaves (λ rest. words_of rest.now) result (call_own call.now (words_of words.now)) (behind_call call.now (words_of words.now)) }
{
    if call == b"connect".as_slice() {
        return hold_connect(words);
    }
    if call == b"forward".as_slice() {
        return hold_forward(words);
    }
    if call == b"leave".as_slice() {
        return hold_leave(words);
    }
    hold(
        call == b"stop".as_slice() || call == b"count".as_slice(),
        call,
        "is no call: connect, forward, leave, stop and count are",
    )?;
    Ok(words)
}

/// Whether a reply of a connect may begin with a word, or that of a call of a hub that is stopped.
fn begins_answer(word: &[u8]) -> bool
    ensures { result ≡ is_answer word.now }
{
    word == b"joined".as_slice()
        || word == b"duplicate".as_slice()
        || word == b"tablefull".as_slice()
        || word == b"stopped".as_slice()
}

/// Whether one of a forward may.
fn begins_sending(word: &[u8]) -> bool
    ensures { result ≡ is_sending word.now }
{
    word == b"sent".as_slice()
        || word == b"full".as_slice()
        || word == b"long".as_slice()
        || word == b"noholder".as_slice()
        || word == b"sentall".as_slice()
        || word == b"notcurrent".as_slice()
}

/// Whether a reply may begin with a word.
fn begins_reply(word: &[u8]) -> bool
    ensures { result ≡ is_reply word.now }
{
    begins_answer(word)
        || begins_sending(word)
        || word == b"gone".as_slice()
        || word == b"counts".as_slice()
}

/// The line of an entry.
fn hold_entry<'a>(line: &'a [u8]) -> Result<(), Diagnostic<'a>>
    ensures { TellsFirst result (entry_broken (words_of line.now)) }
{
    let (place, words) = word_of(line, ENTRY)?;
    let (caller, words) = word_of(words, ENTRY)?;
    let (call, words) = word_of(words, ENTRY)?;
    hold_number(place)?;
    hold_number(caller)?;
    let words = hold_call(call, words)?;
    let (reply, _) = word_of(words, ENTRY)?;
    hold(
        begins_reply(reply),
        reply,
        "begins no reply: joined, duplicate, tablefull, stopped, sent, full, long, noholder, sentall, notcurrent, gone and counts do",
    )
}

/// A line of a journal.
fn hold_line<'a>(line: &'a [u8]) -> Result<(), Diagnostic<'a>>
    ensures { TellsFirst result (journal_broken (words_of line.now)) }
{
    let Some((first, words)) = next_word(line) else {
        return Err(Diagnostic::Line {
            rule: "a journal has no empty lines",
        });
    };
    if begins_comment(first) {
        return Err(Diagnostic::Line {
            rule: "a journal has no comments",
        });
    }
    if first == b"hub".as_slice() {
        return first_of(
            hold_hub(words),
            Err(Diagnostic::Line {
                rule: "the hub line of a journal says CALLS too",
            }),
        );
    }
    hold_entry(line)
}

/// The rule that a line breaks which says nothing in a journal; None of one that says something.
pub fn why_journal_line<'a>(alloc: Global, line: &'a [u8]) -> Option<Diagnostic<'a>>
    ensures refused { IfSome result (λ reason. (s : SaidOf) → Says line.now s → ⊥) }
    ensures told { IfSome result (λ reason. SaysBroken reason (or_no_line
        (codes "it isn't exact: one space between words, capitals in hexadecimal digits, and all words of its reply")
        (journal_broken (words_of line.now)))) }
{
    match read_said(alloc, line) {
        Ok(Some(_)) | Err(_) => None,
        Ok(None) => Some(told_or(hold_line(line), NOT_EXACT)),
    }
}
