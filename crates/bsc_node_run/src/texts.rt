//! The lines that a node writes.
ghost use Rattle.std.specs.Prelude.{◌≡◌, ◌++◌, IfOk};
ghost use Rattle.bsc_node_run.specs.Lines.{advert_line, behind_space, delivered_line, hub_line, line, line_of};
ghost use Rattle.bsc_node_run.specs.Lines.{nak_line, note_line, reach, uris_line, whose};

use bsc_connector::HubUse;
use bsc_frame::Advert;
use bsc_lines::{put_hex, put_then, put_words};
use bsc_node::{Delivered, Note};
use bsc_octets::{NoMemory, Vmac};
use std::alloc::Global;

/// Puts octets behind a space, where there are any.
fn put_behind_space(text: &mut Vec<u8>, alloc: Global, octets: &[u8]) -> Result<(), NoMemory>
    ensures { IfOk result (λ _. text.new.items ≡ text.old.items ++ behind_space octets.now) }
{
    if octets.is_empty() {
        return Ok(());
    }
    put_words(text, " ")?;
    put_hex(text, alloc, octets)
}

/// A line of words alone.
fn line(alloc: Global, words: &str) -> Result<Vec<u8>, NoMemory>
    ensures { IfOk result (λ t. t.items ≡ line words.now) }
{
    let mut text = Vec::new(alloc);
    put_words(&mut text, words)?;
    put_words(&mut text, "\n")?;
    Ok(text)
}

/// A line of a VMAC, between words.
fn line_of(alloc: Global, before: &str, v: &Vmac, after: &str) -> Result<Vec<u8>, NoMemory>
    ensures { IfOk result (λ t. t.items ≡ line_of before.now v.now after.now) }
{
    let mut text = Vec::new(alloc);
    put_words(&mut text, before)?;
    put_words(&mut text, " ")?;
    put_hex(&mut text, alloc, &v.0)?;
    put_words(&mut text, after)?;
    put_words(&mut text, "\n")?;
    Ok(text)
}

/// To whom an NPDU was sent.
fn reach(broadcast: bool) -> &'static str
    ensures { result.now ≡ reach broadcast }
{
    if broadcast { " broadcast" } else { " unicast" }
}

/// The line of an NPDU that is delivered.
pub(crate) fn delivered_line(alloc: Global, delivered: &Delivered) -> Result<Vec<u8>, NoMemory>
    ensures { IfOk result (λ t. t.items ≡ delivered_line delivered.now) }
{
    let mut text = Vec::new(alloc);
    put_words(&mut text, "npdu ")?;
    put_hex(&mut text, alloc, &delivered.from.0)?;
    put_words(&mut text, reach(delivered.broadcast))?;
    put_behind_space(&mut text, alloc, delivered.npdu.as_slice())?;
    put_words(&mut text, "\n")?;
    Ok(text)
}

/// The line of the hub in use.
fn hub_line(alloc: Global, used: HubUse) -> Result<Vec<u8>, NoMemory>
    ensures { IfOk result (λ t. t.items ≡ hub_line used) }
{
    match used {
        HubUse::NoHub => line(alloc, "hub none"),
        HubUse::Primary => line(alloc, "hub primary"),
        HubUse::Failover => line(alloc, "hub failover"),
    }
}

/// The line of the URIs of a VMAC.
fn uris_line(alloc: Global, v: &Vmac, uris: &[u8]) -> Result<Vec<u8>, NoMemory>
    ensures { IfOk result (λ t. t.items ≡ uris_line v.now uris.now) }
{
    let mut text = Vec::new(alloc);
    put_words(&mut text, "uris ")?;
    put_hex(&mut text, alloc, &v.0)?;
    put_behind_space(&mut text, alloc, uris)?;
    put_words(&mut text, "\n")?;
    Ok(text)
}

/// The line of an Advertisement.
fn advert_line(alloc: Global, v: &Vmac, advert: &Advert) -> Result<Vec<u8>, NoMemory>
    ensures { IfOk result (λ t. t.items ≡ advert_line v.now advert.now) }
{
    let mut text = Vec::new(alloc);
    put_words(&mut text, "advert ")?;
    put_hex(&mut text, alloc, &v.0)?;
    put_then(&mut text, u64::from(advert.status))?;
    put_then(&mut text, u64::from(advert.accepts))?;
    put_then(&mut text, u64::from(advert.max_bvlc))?;
    put_then(&mut text, u64::from(advert.max_npdu))?;
    put_words(&mut text, "\n")?;
    Ok(text)
}

/// Puts whose NAK it is: a VMAC, or the hub.
fn put_whose(text: &mut Vec<u8>, alloc: Global, from: &Option<Vmac>) -> Result<(), NoMemory>
    ensures { IfOk result (λ _. text.new.items ≡ text.old.items ++ whose from.now) }
{
    match from {
        Some(v) => put_hex(text, alloc, &v.0),
        None => put_words(text, "hub"),
    }
}

/// The line of a NAK.
fn nak_line(
    alloc: Global,
    from: &Option<Vmac>,
    function: u8,
    code: u16,
) -> Result<Vec<u8>, NoMemory>
    ensures { IfOk result (λ t. t.items ≡ nak_line from.now function code) }
{
    let mut text = Vec::new(alloc);
    put_words(&mut text, "nak ")?;
    put_whose(&mut text, alloc, from)?;
    put_words(&mut text, " ")?;
    put_hex(&mut text, alloc, &[function])?;
    put_then(&mut text, u64::from(code))?;
    put_words(&mut text, "\n")?;
    Ok(text)
}

/// The line of what is told.
pub(crate) fn note_line(alloc: Global, note: &Note) -> Result<Vec<u8>, NoMemory>
    ensures { IfOk result (λ t. t.items ≡ note_line note.now) }
{
    match note {
        Note::HubNow(used) => hub_line(alloc, *used),
        Note::Uris(v, uris) => uris_line(alloc, v, uris.as_slice()),
        Note::DirectUp(v) => line_of(alloc, "direct", v, " up"),
        Note::DirectDown(v) => line_of(alloc, "direct", v, " down"),
        Note::NoPath(v) => line_of(alloc, "nopath", v, ""),
        Note::TooLong(v) => line_of(alloc, "toolong", v, ""),
        Note::NoUris(v) => line_of(alloc, "nouris", v, ""),
        Note::SlotsFull => line(alloc, "slotsfull"),
        Note::AsksFull => line(alloc, "asksfull"),
        Note::AskPending(v) => line_of(alloc, "pending", v, ""),
        Note::NoDirect(v) => line_of(alloc, "nodirect", v, ""),
        Note::Advert(v, advert) => advert_line(alloc, v, advert),
        Note::Nak {
            from,
            function,
            code,
        } => nak_line(alloc, from, *function, *code),
        Note::Renewed(v) => line_of(alloc, "vmac", v, ""),
        Note::NoRandom => line(alloc, "norandom"),
        Note::Finished => line(alloc, "finished"),
    }
}
