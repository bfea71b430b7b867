//! The line of what is noted.
ghost use Rattle.std.specs.Prelude.{◌≡◌, ◌++◌, ℕ, IfOk};
ghost use Rattle.bsc_history.specs.declared.call.Call.TheVariants.{Forward};
ghost use Rattle.bsc_desk.specs.Entries.{all_looks, all_reply, one_looks, one_reply};
ghost use Rattle.bsc_lines.specs.Lines.{call_text, entry_line, reply_text};
ghost use Rattle.bsc_session.specs.Notes.Notes.{line_feed, line_of};
ghost use Rattle.bsc_session.specs.Notes.Noting.{entry_of, note_of};

use crate::notes::noted::{Made, Noted};
use bsc_desk::{AllReply, OneReply};
use bsc_lines::{
    put_connect, put_counts, put_denial, put_forward, put_gone, put_joined, put_leave, put_lists,
    put_not_current, put_number, put_numbered, put_refusal, put_then, put_words,
};
use bsc_octets::{NoMemory, Octets};
use std::alloc::Global;

/// So many octets are taken at first for a line, beside its message and its looks.
const ROOM: usize = 256;

/// So many octets are taken at first for a look, and for its connection in the reply.
const ROOM_OF_LOOK: usize = 24;

/// Puts a unicast, with its look where it made one.
fn put_one(
    text: &mut Vec<u8>,
    alloc: Global,
    conn: u64,
    message: &[u8],
    said: OneReply,
) -> Result<(), NoMemory>
    ensures { IfOk result (λ _. text.new.items ≡ text.old.items ++ call_text (Forward conn message.now) (one_looks said)) }
{
    match said {
        OneReply::Appended(look) => put_forward(text, alloc, conn, message, &[look]),
        OneReply::Closed(look) => put_forward(text, alloc, conn, message, &[look]),
        OneReply::Skipped { .. }
        | OneReply::NoHolder
        | OneReply::NotCurrent { .. }
        | OneReply::Stopped => put_forward(text, alloc, conn, message, &[]),
    }
}

/// Puts a broadcast, with its looks.
fn put_all(
    text: &mut Vec<u8>,
    alloc: Global,
    conn: u64,
    message: &[u8],
    said: &AllReply,
) -> Result<(), NoMemory>
    ensures { IfOk result (λ _. text.new.items ≡ text.old.items ++ call_text (Forward conn message.now) (all_looks said.now)) }
{
    match said {
        AllReply::Sent { looks, .. } => put_forward(text, alloc, conn, message, looks.as_slice()),
        AllReply::NotCurrent { .. } | AllReply::Stopped => {
            put_forward(text, alloc, conn, message, &[])
        }
    }
}

/// Puts a call.
fn put_call(text: &mut Vec<u8>, alloc: Global, made: &Made<'_>) -> Result<(), NoMemory>
    ensures { (n : ℕ) → IfOk result (λ _. text.new.items
        ≡ text.old.items ++ call_text (entry_of n made.now).call (entry_of n made.now).looks) }
{
    match made {
        Made::Joined { who, .. } => put_connect(text, alloc, who),
        Made::Refused { who, .. } => put_connect(text, alloc, who),
        Made::One {
            conn,
            message,
            said,
        } => put_one(text, alloc, *conn, *message, *said),
        Made::All {
            conn,
            message,
            said,
        } => put_all(text, alloc, *conn, *message, *said),
        Made::Left {
            conn,
            empties,
            gone,
        } => put_leave(text, *conn, gone.taken, *empties),
        Made::Stopped(_) => put_words(text, "stop"),
    }
}

/// Puts the reply to a unicast.
fn put_one_reply(text: &mut Vec<u8>, said: OneReply) -> Result<(), NoMemory>
    ensures { IfOk result (λ _. text.new.items ≡ text.old.items ++ reply_text (one_reply said)) }
{
    match said {
        OneReply::Appended(look) => put_numbered(text, "sent", look.conn),
        OneReply::Closed(look) => put_numbered(text, "full", look.conn),
        OneReply::Skipped { conn } => put_numbered(text, "long", conn),
        OneReply::NoHolder => put_words(text, "noholder"),
        OneReply::NotCurrent { ending } => put_not_current(text, ending),
        OneReply::Stopped => put_words(text, "stopped"),
    }
}

/// Puts the reply to a broadcast.
fn put_all_reply(text: &mut Vec<u8>, said: &AllReply) -> Result<(), NoMemory>
    ensures { IfOk result (λ _. text.new.items ≡ text.old.items ++ reply_text (all_reply said.now)) }
{
    match said {
        AllReply::Sent {
            to,
            missed,
            skipped,
            ..
        } => put_lists(text, to.as_slice(), missed.as_slice(), skipped.as_slice()),
        AllReply::NotCurrent { ending } => put_not_current(text, *ending),
        AllReply::Stopped => put_words(text, "stopped"),
    }
}

/// Puts a reply.
fn put_reply(text: &mut Vec<u8>, made: &Made<'_>) -> Result<(), NoMemory>
    ensures { (n : ℕ) → IfOk result (λ _. text.new.items ≡ text.old.items ++ reply_text (entry_of n made.now).reply) }
{
    match made {
        Made::Joined { conn, replaced, .. } => put_joined(text, *conn, *replaced),
        Made::Refused { refusal, .. } => put_refusal(text, *refusal),
        Made::One { said, .. } => put_one_reply(text, *said),
        Made::All { said, .. } => put_all_reply(text, *said),
        Made::Left { gone, .. } => put_gone(text, gone.ending, gone.taken),
        Made::Stopped(counts) => put_counts(text, counts),
    }
}

/// Puts the line of an entry, without its end.
#[tactic(auto, unfolding(bsc_lines::specs::Lines::entry_line))]
fn put_entry(
    text: &mut Vec<u8>,
    alloc: Global,
    at: u64,
    caller: u64,
    made: &Made<'_>,
) -> Result<(), NoMemory>
    ensures { IfOk result (λ _. text.new.items ≡ text.old.items ++ entry_line at (entry_of caller made.now)) }
{
    put_number(text, at)?;
    put_then(text, caller)?;
    put_words(text, " ")?;
    put_call(text, alloc, made)?;
    put_words(text, " ")?;
    put_reply(text, made)
}

/// Puts the line of what is noted, without its end.
fn put_noted(text: &mut Vec<u8>, alloc: Global, noted: &Noted<'_>) -> Result<(), NoMemory>
    ensures { IfOk result (λ _. text.new.items ++ line_feed ≡ text.old.items ++ line_of (note_of noted.now)) }
{
    match noted {
        Noted::Entry { at, caller, made } => put_entry(text, alloc, *at, *caller, made),
        Noted::Denied(denial) => put_denial(text, alloc, *denial),
    }
}

/// How many octets are taken at first for the line of a forward: two digits for each of its message, and somewhat for each look.
fn room_of_forward(message: &[u8], looks: usize) -> usize {
    let digits = message.len().saturating_mul(2);
    digits
        .saturating_add(looks.saturating_mul(ROOM_OF_LOOK))
        .saturating_add(ROOM)
}

/// How many octets are taken at first for the line of an entry. It may be longer.
fn room_of(made: &Made<'_>) -> usize {
    match made {
        Made::One { message, .. } => room_of_forward(*message, 1),
        Made::All { message, said, .. } => match said {
            AllReply::Sent { looks, .. } => room_of_forward(*message, looks.len()),
            AllReply::NotCurrent { .. } | AllReply::Stopped => room_of_forward(*message, 0),
        },
        Made::Joined { .. } | Made::Refused { .. } | Made::Left { .. } | Made::Stopped(_) => ROOM,
    }
}

/// The line of what is noted, with its end. Memory may run out.
pub fn line_of(alloc: Global, noted: &Noted<'_>) -> Result<Octets, NoMemory>
    ensures { IfOk result (λ line. line ≡ line_of (note_of noted.now)) }
{
    let room = match noted {
        Noted::Entry { made, .. } => room_of(made),
        Noted::Denied(_) => ROOM,
    };
    let mut text = Vec::with_capacity(alloc, room)?;
    put_noted(&mut text, alloc, noted)?;
    put_words(&mut text, "\n")?;
    Ok(Octets::from_vec(text))
}
