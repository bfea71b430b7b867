//! The lines that are written, put at the end of a text.
ghost use Rattle.std.specs.Prelude.{◌≡◌, ◌++◌, IfOk, codes};
ghost use Rattle.bsc_script.specs.Written.{says, line_text};
ghost use Rattle.bsc_script.specs.Texts.{out_words, silent_words, behind_space, close_words};
ghost use Rattle.bsc_lines.specs.Replies.{numbered_word};

use bsc_accept::Closing;
use bsc_checks::Check;
use bsc_lines::{put_hex, put_number, put_words};
use bsc_octets::NoMemory;
use std::alloc::Global;

/// Puts octets as they stand.
fn put_octets(text: &mut Vec<u8>, octets: &[u8]) -> Result<(), NoMemory>
    ensures { IfOk result (λ _. text.new.items ≡ text.old.items ++ octets.now) }
{
    text.extend_from_slice(octets)?;
    Ok(())
}

/// Begins a line that says something of a name.
pub(crate) fn begin_line(text: &mut Vec<u8>, name: &[u8]) -> Result<(), NoMemory>
    ensures { IfOk result (λ _. text.new.items ≡ text.old.items ++ (name.now ++ codes " ")) }
{
    put_octets(text, name)?;
    put_words(text, " ")
}

/// A line of words alone.
pub(crate) fn put_line(text: &mut Vec<u8>, name: &[u8], words: &str) -> Result<(), NoMemory>
    ensures { IfOk result (λ _. text.new.items ≡ text.old.items ++ line_text (says name.now words.now)) }
{
    begin_line(text, name)?;
    put_words(text, words)?;
    put_words(text, "\n")
}

/// A line of a word and a number.
pub(crate) fn put_numbered(
    text: &mut Vec<u8>,
    name: &[u8],
    word: &str,
    n: u64,
) -> Result<(), NoMemory>
    ensures { IfOk result (λ _. text.new.items
        ≡ text.old.items ++ line_text (says name.now (numbered_word word.now n))) }
{
    begin_line(text, name)?;
    bsc_lines::put_numbered(text, word, n)?;
    put_words(text, "\n")
}

/// The line of a message that is put.
pub(crate) fn put_out(
    text: &mut Vec<u8>,
    alloc: Global,
    name: &[u8],
    message: &[u8],
) -> Result<(), NoMemory>
    ensures { IfOk result (λ _. text.new.items ≡ text.old.items ++ line_text (says name.now (out_words message.now))) }
{
    begin_line(text, name)?;
    put_words(text, "out ")?;
    put_hex(text, alloc, message)?;
    put_words(text, "\n")
}

/// The line of a message that is met with silence.
pub(crate) fn put_silent(text: &mut Vec<u8>, name: &[u8], check: Check) -> Result<(), NoMemory>
    ensures { IfOk result (λ _. text.new.items ≡ text.old.items ++ line_text (says name.now (silent_words check))) }
{
    begin_line(text, name)?;
    put_words(text, "silent ")?;
    put_words(text, check.name())?;
    put_words(text, "\n")
}

/// A word behind a space, where there is one.
fn put_behind_space(text: &mut Vec<u8>, word: &str) -> Result<(), NoMemory>
    ensures { IfOk result (λ _. text.new.items ≡ text.old.items ++ behind_space word.now) }
{
    if word.is_empty() {
        return Ok(());
    }
    put_words(text, " ")?;
    put_words(text, word)
}

/// The line of a WebSocket that is closed.
pub(crate) fn put_close(text: &mut Vec<u8>, name: &[u8], closing: Closing) -> Result<(), NoMemory>
    ensures { IfOk result (λ _. text.new.items ≡ text.old.items ++ line_text (says name.now (close_words closing))) }
{
    begin_line(text, name)?;
    put_words(text, "close ")?;
    put_number(text, u64::from(closing.code))?;
    put_behind_space(text, closing.reason.text())?;
    put_words(text, "\n")
}
