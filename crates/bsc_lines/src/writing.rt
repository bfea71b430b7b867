//! The line of an entry.
ghost use Rattle.std.specs.Prelude.{◌≡◌, ◌++◌, IfOk};
ghost use Rattle.bsc_lines.specs.Lines.{entry_line};

use crate::calls::put_call;
use crate::replies::put_reply;
use crate::texts::{put_number, put_then, put_words};
use bsc_history::Entry;
use bsc_octets::{NoMemory, Octets};
use std::alloc::Global;

/// Puts the line of an entry at its place, without its end.
#[tactic(auto, unfolding(crate::specs::Lines::entry_line))]
pub fn put_entry(
    text: &mut Vec<u8>,
    alloc: Global,
    place: u64,
    entry: &Entry,
) -> Result<(), NoMemory>
    ensures { IfOk result (λ _. text.new.items ≡ text.old.items ++ entry_line place entry.now) }
{
    put_number(text, place)?;
    put_then(text, entry.caller)?;
    put_words(text, " ")?;
    put_call(text, alloc, &entry.call, entry.looks.as_slice())?;
    put_words(text, " ")?;
    put_reply(text, &entry.reply)
}

/// The line of an entry at its place in a history, without its end. Memory may run out.
pub fn entry_line(alloc: Global, place: u64, entry: &Entry) -> Result<Octets, NoMemory>
    ensures { IfOk result (λ o. o ≡ entry_line place entry.now) }
{
    let mut text = Vec::new(alloc);
    put_entry(&mut text, alloc, place, entry)?;
    Ok(Octets::from_vec(text))
}
