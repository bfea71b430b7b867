//! Words, numbers and octets, put at the end of a text.
ghost use Rattle.std.specs.Prelude.{◌≡◌, ◌++◌, IfOk, decimal};
ghost use Rattle.hex.specs.Hex.{encode_upper};
ghost use Rattle.bsc_lines.specs.Replies.{numbered_word};
ghost use Rattle.bsc_lines.specs.Lines.{then_number};

use bsc_octets::NoMemory;
use itoa::Buffer;
use std::alloc::Global;

/// Puts words of text.
pub fn put_words(text: &mut Vec<u8>, words: &str) -> Result<(), NoMemory>
    ensures { IfOk result (λ _. text.new.items ≡ text.old.items ++ words.now) }
{
    text.extend_from_slice(words.as_bytes())?;
    Ok(())
}

/// Puts a number in decimal digits.
pub fn put_number(text: &mut Vec<u8>, n: u64) -> Result<(), NoMemory>
    ensures { IfOk result (λ _. text.new.items ≡ text.old.items ++ decimal n) }
{
    let mut digits = Buffer::new();
    put_words(text, digits.format(n))
}

/// Puts a number behind a space.
pub fn put_then(text: &mut Vec<u8>, n: u64) -> Result<(), NoMemory>
    ensures { IfOk result (λ _. text.new.items ≡ text.old.items ++ then_number n) }
{
    put_words(text, " ")?;
    put_number(text, n)
}

/// Puts a word, and a number behind it.
pub fn put_numbered(text: &mut Vec<u8>, word: &str, n: u64) -> Result<(), NoMemory>
    ensures { IfOk result (λ _. text.new.items ≡ text.old.items ++ numbered_word word.now n) }
{
    put_words(text, word)?;
    put_words(text, " ")?;
    put_number(text, n)
}

/// Puts octets as hexadecimal digits, with letters in upper case.
pub fn put_hex(text: &mut Vec<u8>, alloc: Global, octets: &[u8]) -> Result<(), NoMemory>
    ensures { IfOk result (λ _. text.new.items ≡ text.old.items ++ encode_upper octets.now) }
{
    let Ok(digits) = hex::encode_upper(alloc, octets) else {
        return Err(NoMemory);
    };
    put_words(text, digits.as_str())
}
