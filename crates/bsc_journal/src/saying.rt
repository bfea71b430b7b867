//! What a line of a journal says.
ghost use Rattle.std.specs.Prelude.{◌≡◌, ◌==◌, length, IfOk, IfSome, Some, None, Ok};
ghost use Rattle.bsc_history.specs.declared.limits.About.{About as AboutOf};
ghost use Rattle.bsc_text.specs.Words.{words_of};
ghost use Rattle.bsc_journal.specs.declared.journal_record.JournalRecord.{JournalRecord as SaidOf};
ghost use Rattle.bsc_journal.specs.Saying.{IsHubLine, Says, is_denial};

use crate::finding::read_entry;
use crate::journal_record::JournalRecord;
use bsc_history::About;
use bsc_octets::NoMemory;
use bsc_player::LineFault;
use bsc_script::{Line, read_line};
use bsc_text::next_word;
use std::alloc::Global;

/// How many words a hub line has that says the number of calls.
const HUB_WORDS: usize = 8;

/// Whether a line begins with `deny`.
fn is_denial(line: &[u8]) -> bool
    ensures { result ≡ is_denial line.now }
{
    line.starts_with(b"deny")
}

/// How many words a line has.
fn count_words(mut line: &[u8]) -> usize
    ensures { result ≡ length (words_of line.entry.now) }
{
    let mut count = 0;
    while let Some((_, rest)) = next_word(line) {
        count += 1;
        line = rest;
    }
    count
}

/// The hub that a line says.
fn hub_of(alloc: Global, line: &[u8]) -> Result<Option<About>, NoMemory>
    ensures hub { IfOk result (λ o. IfSome o (λ about. IsHubLine line.now about)) }
    ensures none { result ≡ Ok None → (about : AboutOf) → IsHubLine line.now about → ⊥ }
{
    let said = match read_line(alloc, line) {
        Ok(said) => said,
        Err(LineFault::Refused) => return Ok(None),
        Err(LineFault::NoMemory) => return Err(NoMemory),
    };
    match &said {
        Line::Hub(about) => if count_words(line) == HUB_WORDS {
            Ok(Some(*about))
        } else {
            Ok(None)
        },
        _ => Ok(None),
    }
}

/// What a line of a journal says, or that it says nothing. Memory may run out.
pub fn read_said(alloc: Global, line: &[u8]) -> Result<Option<JournalRecord>, NoMemory>
    ensures says { IfOk result (λ o. IfSome o (λ s. Says line.now s)) }
    ensures none { result ≡ Ok None → (s : SaidOf) → Says line.now s → ⊥ }
{
    if is_denial(line) {
        return Ok(Some(JournalRecord::Denial));
    }
    if let Some(about) = hub_of(alloc, line)? {
        return Ok(Some(JournalRecord::Hub(about)));
    }
    match read_entry(alloc, line)? {
        Some((place, entry)) => Ok(Some(JournalRecord::Entry { place, entry })),
        None => Ok(None),
    }
}
