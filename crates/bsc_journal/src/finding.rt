//! The entry of a line.
ghost use Rattle.std.specs.Prelude.{◌≡◌, ℕ, IfOk, IfSome, Some, None, Ok, Err};
ghost use Rattle.bsc_history.specs.declared.entry.Entry.{Entry as EntryOf};
ghost use Rattle.bsc_text.specs.Words.{words_of};
ghost use Rattle.bsc_journal.specs.Reading.{entry_in};
ghost use Rattle.bsc_journal.specs.Saying.{IsLineOf};

use crate::having::{has_line, is_connect};
use crate::read_calls::read_call;
use crate::read_replies::read_reply;
use crate::reading::{loosen, number_in};
use bsc_history::Entry;
use bsc_lines::entry_line;
use bsc_octets::NoMemory;
use bsc_player::LineFault;
use std::alloc::Global;

/// The place and the entry that words say.
fn read_words(alloc: Global, words: &[u8]) -> Result<(u64, Entry), LineFault>
    ensures read { IfOk result (λ (place, entry). entry_in (words_of words.now) ≡ Some (place, entry)) }
    ensures refused { result ≡ Err LineFault.Refused → entry_in (words_of words.now) ≡ None }
{
    let Some((place, words)) = number_in(words) else {
        return Err(LineFault::Refused);
    };
    let Some((caller, words)) = number_in(words) else {
        return Err(LineFault::Refused);
    };
    let (call, looks, words) = read_call(alloc, words)?;
    let reply = read_reply(alloc, is_connect(&call), words)?;
    Ok((
        place,
        Entry {
            caller,
            call,
            looks,
            reply,
        },
    ))
}

/// The entry that a line is of, with its place, or that it is of none. What its words say is written again, and
/// compared. Memory may run out.
#[tactic(auto, using(crate::proofs::Found::nothing_loose, crate::proofs::Found::no_line, crate::proofs::Found::other_line))]
pub fn read_entry(alloc: Global, line: &[u8]) -> Result<Option<(u64, Entry)>, NoMemory>
    ensures found { IfOk result (λ o. IfSome o (λ (place, entry). IsLineOf line.now place entry)) }
    ensures none { result ≡ Ok None → (place : ℕ) (e : EntryOf) → IsLineOf line.now place e → ⊥ }
{
    let loose = loosen(alloc, line)?;
    let (place, entry) = match read_words(alloc, loose.as_slice()) {
        Ok(found) => found,
        Err(LineFault::Refused) => return Ok(None),
        Err(LineFault::NoMemory) => return Err(NoMemory),
    };
    if !has_line(place, &entry) {
        return Ok(None);
    }
    let written = entry_line(alloc, place, &entry)?;
    if written.as_slice() == line {
        Ok(Some((place, entry)))
    } else {
        Ok(None)
    }
}
