//! The texts.
ghost use Rattle.std.specs.Prelude.{◌≡◌, ◌++◌, IfOk};
ghost use Rattle.bsc_audit_diagnostics.specs.Texts.{breach_text, calls_text, first_text, hubs_text, illegal_text, missing_text};
ghost use Rattle.bsc_audit_diagnostics.specs.Texts.{next_text, no_hub_text, own_text, range_text, taken_text, twice_text};
ghost use Rattle.bsc_legality.specs.declared.breach.Breach.TheVariants.{Due, Outboxes};

use bsc_history::{Conns, Entry, Reply};
use bsc_legality::Breach;
use bsc_lines::{put_list, put_looks, put_reply, put_then, put_words};
use bsc_octets::{NoMemory, Octets};
use std::alloc::Global;

/// That the caller doesn't have the connection.
fn put_own(text: &mut Vec<u8>, conn: u64, caller: u64) -> Result<(), NoMemory>
    ensures { IfOk result (λ _. text.new.items ≡ text.old.items ++ own_text conn caller) }
{
    put_words(text, "connection")?;
    put_then(text, conn)?;
    put_words(text, " isn't one that caller")?;
    put_then(text, caller)?;
    put_words(text, " joined, or has left")
}

/// That the hub answers no more calls.
fn put_calls(text: &mut Vec<u8>, limit: u64) -> Result<(), NoMemory>
    ensures { IfOk result (λ _. text.new.items ≡ text.old.items ++ calls_text limit) }
{
    put_words(text, "the hub answers")?;
    put_then(text, limit)?;
    put_words(text, " calls, and had answered them")
}

/// From which number to which it should be.
fn put_range(text: &mut Vec<u8>, least: u64, most: u64) -> Result<(), NoMemory>
    ensures { IfOk result (λ _. text.new.items ≡ text.old.items ++ range_text least most) }
{
    put_words(text, ", and should be from")?;
    put_then(text, least)?;
    put_words(text, " to")?;
    put_then(text, most)
}

/// That so many frames can't have been found taken.
fn put_taken(
    text: &mut Vec<u8>,
    conn: u64,
    taken: u64,
    least: u64,
    most: u64,
) -> Result<(), NoMemory>
    ensures { IfOk result (λ _. text.new.items ≡ text.old.items ++ taken_text conn taken least most) }
{
    put_words(text, "frames taken from connection")?;
    put_then(text, conn)?;
    put_words(text, " were")?;
    put_then(text, taken)?;
    put_range(text, least, most)
}

/// That these were the looks, and should be at these.
fn put_outboxes(text: &mut Vec<u8>, entry: &Entry, due: &Conns) -> Result<(), NoMemory>
    ensures { IfOk result (λ _. text.new.items ≡ text.old.items ++ breach_text entry.now (Outboxes due.now)) }
{
    put_words(text, "looks were ")?;
    put_looks(text, entry.looks.as_slice())?;
    put_words(text, ", and should be at ")?;
    put_list(text, due.as_slice())
}

/// That this was the reply, and should be this.
fn put_due(text: &mut Vec<u8>, entry: &Entry, reply: &Reply) -> Result<(), NoMemory>
    ensures { IfOk result (λ _. text.new.items ≡ text.old.items ++ breach_text entry.now (Due reply.now)) }
{
    put_words(text, "reply was ")?;
    put_reply(text, &entry.reply)?;
    put_words(text, ", and should be ")?;
    put_reply(text, reply)
}

/// What an entry has, and what it should have.
#[tactic(auto, unfolding(crate::specs::Texts::breach_text))]
fn put_breach(text: &mut Vec<u8>, entry: &Entry, breach: &Breach) -> Result<(), NoMemory>
    ensures { IfOk result (λ _. text.new.items ≡ text.old.items ++ breach_text entry.now breach.now) }
{
    match breach {
        Breach::Address => put_words(
            text,
            "the VMAC that asks to join is zero or the broadcast, which are no one node's",
        ),
        Breach::NotOwn { conn } => put_own(text, *conn, entry.caller),
        Breach::NoRoute => put_words(text, "the message has no Destination, or names its sender"),
        Breach::Calls { limit } => put_calls(text, *limit),
        Breach::AfterStop => put_words(text, "the hub had stopped"),
        Breach::Outboxes { due } => put_outboxes(text, entry, due),
        Breach::Taken {
            conn,
            taken,
            least,
            most,
        } => put_taken(text, *conn, *taken, *least, *most),
        Breach::Due { reply } => put_due(text, entry, reply),
    }
}

/// What is told of the entry in a line.
pub(crate) fn illegal_text(
    alloc: Global,
    line: u64,
    entry: &Entry,
    breach: &Breach,
) -> Result<Octets, NoMemory>
    ensures { IfOk result (λ o. o ≡ illegal_text line entry.now breach.now) }
{
    let mut text = Vec::new(alloc);
    put_words(&mut text, "line")?;
    put_then(&mut text, line)?;
    put_words(&mut text, ": ")?;
    put_breach(&mut text, entry, breach)?;
    Ok(Octets::from_vec(text))
}

/// That no line is a hub line.
pub(crate) fn no_hub_text(alloc: Global) -> Result<Octets, NoMemory>
    ensures { IfOk result (λ o. o ≡ no_hub_text) }
{
    let mut text = Vec::new(alloc);
    put_words(
        &mut text,
        "no line is a hub line: the journal of the hub's own caller has it",
    )?;
    Ok(Octets::from_vec(text))
}

/// That two lines are hub lines.
pub(crate) fn hubs_text(alloc: Global, first: u64, second: u64) -> Result<Octets, NoMemory>
    ensures { IfOk result (λ o. o ≡ hubs_text first second) }
{
    let mut text = Vec::new(alloc);
    put_words(&mut text, "lines")?;
    put_then(&mut text, first)?;
    put_words(&mut text, " and")?;
    put_then(&mut text, second)?;
    put_words(&mut text, " are hub lines, and there should be one")?;
    Ok(Octets::from_vec(text))
}

/// That two lines have one place.
pub(crate) fn twice_text(
    alloc: Global,
    place: u64,
    first: u64,
    second: u64,
) -> Result<Octets, NoMemory>
    ensures { IfOk result (λ o. o ≡ twice_text place first second) }
{
    let mut text = Vec::new(alloc);
    put_words(&mut text, "lines")?;
    put_then(&mut text, first)?;
    put_words(&mut text, " and")?;
    put_then(&mut text, second)?;
    put_words(&mut text, " both have place")?;
    put_then(&mut text, place)?;
    Ok(Octets::from_vec(text))
}

/// That the first place is this.
pub(crate) fn first_text(alloc: Global, place: u64, line: u64) -> Result<Octets, NoMemory>
    ensures { IfOk result (λ o. o ≡ first_text place line) }
{
    let mut text = Vec::new(alloc);
    put_words(&mut text, "the first place is")?;
    put_then(&mut text, place)?;
    put_words(&mut text, ", in line")?;
    put_then(&mut text, line)?;
    Ok(Octets::from_vec(text))
}

/// That the next place is this.
fn put_next(text: &mut Vec<u8>, place: u64, line: u64) -> Result<(), NoMemory>
    ensures { IfOk result (λ _. text.new.items ≡ text.old.items ++ next_text place line) }
{
    put_words(text, ", and the next is")?;
    put_then(text, place)?;
    put_words(text, ", in line")?;
    put_then(text, line)
}

/// That a line has a place, and the next place is this.
pub(crate) fn missing_text(
    alloc: Global,
    place: u64,
    line: u64,
    next: u64,
    next_line: u64,
) -> Result<Octets, NoMemory>
    ensures { IfOk result (λ o. o ≡ missing_text place line next next_line) }
{
    let mut text = Vec::new(alloc);
    put_words(&mut text, "line")?;
    put_then(&mut text, line)?;
    put_words(&mut text, " has place")?;
    put_then(&mut text, place)?;
    put_next(&mut text, next, next_line)?;
    Ok(Octets::from_vec(text))
}
