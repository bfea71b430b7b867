//! Calls and their looks, put at the end of a line.
ghost use Rattle.std.specs.Prelude.{◌≡◌, ◌++◌, flat_map, IfOk, codes};
ghost use Rattle.hex.specs.Hex.{encode_upper};
ghost use Rattle.bsc_octets.specs.Identities.{identity_octets};
ghost use Rattle.bsc_history.specs.declared.call.Call.TheVariants.{Forward};
ghost use Rattle.bsc_lines.specs.Lines.{call_text, look_text, looks_text, then_number};

use crate::texts::{put_hex, put_number, put_then, put_words};
use bsc_history::{Call, Look};
use bsc_octets::{Identity, NoMemory};
use std::alloc::Global;

/// A look: the connection, and how many frames were found taken.
fn put_look(text: &mut Vec<u8>, look: Look) -> Result<(), NoMemory>
    ensures { IfOk result (λ _. text.new.items ≡ text.old.items ++ look_text look) }
{
    put_number(text, look.conn)?;
    put_words(text, ":")?;
    put_number(text, look.taken)
}

/// Looks behind commas.
fn put_more_looks(text: &mut Vec<u8>, looks: &[Look]) -> Result<(), NoMemory>
    ensures { IfOk result (λ _. text.new.items ≡ text.old.items ++ flat_map (λ l. codes "," ++ look_text l) looks.now) }
{
    for look in looks.iter() {
        put_words(text, ",")?;
        put_look(text, *look)?;
    }
    Ok(())
}

/// Looks with commas between.
pub fn put_looks(text: &mut Vec<u8>, looks: &[Look]) -> Result<(), NoMemory>
    ensures { IfOk result (λ _. text.new.items ≡ text.old.items ++ looks_text looks.now) }
{
    match looks {
        [] => put_words(text, "-"),
        [first, more @ ..] => {
            put_look(text, *first)?;
            put_more_looks(text, more)
        }
    }
}

/// A connect.
pub fn put_connect(text: &mut Vec<u8>, alloc: Global, who: &Identity) -> Result<(), NoMemory>
    ensures { IfOk result (λ _. text.new.items ≡ text.old.items ++ (codes "connect " ++ encode_upper (identity_octets who.now))) }
{
    put_words(text, "connect ")?;
    put_hex(text, alloc, &who.octets())
}

/// A forward, with its looks.
pub fn put_forward(
    text: &mut Vec<u8>,
    alloc: Global,
    conn: u64,
    frame: &[u8],
    looks: &[Look],
) -> Result<(), NoMemory>
    ensures { IfOk result (λ _. text.new.items ≡ text.old.items ++ call_text (Forward conn frame.now) looks.now) }
{
    put_words(text, "forward")?;
    put_then(text, conn)?;
    put_words(text, " ")?;
    put_hex(text, alloc, frame)?;
    put_words(text, " looks ")?;
    put_looks(text, looks)
}

/// A leave.
pub fn put_leave(text: &mut Vec<u8>, conn: u64, taken: u64, empties: u64) -> Result<(), NoMemory>
    ensures { IfOk result (λ _. text.new.items
        ≡ text.old.items ++ (codes "leave" ++ (then_number conn ++ (then_number taken ++ then_number empties)))) }
{
    put_words(text, "leave")?;
    put_then(text, conn)?;
    put_then(text, taken)?;
    put_then(text, empties)
}

/// A call, with its looks where it is a forward.
pub fn put_call(
    text: &mut Vec<u8>,
    alloc: Global,
    call: &Call,
    looks: &[Look],
) -> Result<(), NoMemory>
    ensures { IfOk result (λ _. text.new.items ≡ text.old.items ++ call_text call.now looks.now) }
{
    match call {
        Call::Connect { who } => put_connect(text, alloc, who),
        Call::Forward { conn, frame } => put_forward(text, alloc, *conn, frame.as_slice(), looks),
        Call::Leave {
            conn,
            taken,
            empties,
        } => put_leave(text, *conn, *taken, *empties),
        Call::Stop => put_words(text, "stop"),
        Call::Count => put_words(text, "count"),
    }
}
