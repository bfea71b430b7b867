//! The lines that are written of a step, put at the end of a text.
ghost use Rattle.std.specs.Prelude.{◌≡◌, ◌++◌, IfOk, flat_map};
ghost use Rattle.bsc_network_script.specs.Written.{numbered, target_words, dialled_line, reach, delivered_words, delivery_line, step_text};

use bsc_lines::{put_hex, put_number, put_words};
use bsc_network::{Dialled, Target, WorldDelivery};
use bsc_node::Delivered;
use bsc_octets::NoMemory;
use bsc_world::StepDone;
use std::alloc::Global;

/// Puts a word, and the number of what it names.
fn put_numbered(text: &mut Vec<u8>, word: &str, n: u64) -> Result<(), NoMemory>
    ensures { IfOk result (λ _. text.new.items ≡ text.old.items ++ numbered word.now n) }
{
    put_words(text, word)?;
    put_number(text, n)
}

// ---- links

/// Puts what a link leads to.
fn put_target(text: &mut Vec<u8>, target: Target) -> Result<(), NoMemory>
    ensures { IfOk result (λ _. text.new.items ≡ text.old.items ++ target_words target) }
{
    match target {
        Target::Hub(hub) => put_numbered(text, " hub ", u64::from(hub)),
        Target::Node(node) => put_numbered(text, " node ", u64::from(node)),
    }
}

/// Puts the line of a link that was dialled.
fn put_dialled(text: &mut Vec<u8>, dialled: &Dialled) -> Result<(), NoMemory>
    ensures { IfOk result (λ _. text.new.items ≡ text.old.items ++ dialled_line dialled.now) }
{
    put_numbered(text, "link ", u64::from(dialled.link))?;
    put_numbered(text, " ", u64::from(dialled.from))?;
    put_target(text, dialled.to)?;
    put_words(text, "\n")
}

/// Puts the lines of links that were dialled.
fn put_all_dialled(text: &mut Vec<u8>, dialled: &[Dialled]) -> Result<(), NoMemory>
    ensures { IfOk result (λ _. text.new.items ≡ text.old.items ++ flat_map dialled_line dialled.now) }
{
    for d in dialled.iter() {
        put_dialled(text, d)?;
    }
    Ok(())
}

// ---- deliveries

/// To whom an NPDU was sent.
fn reach(broadcast: bool) -> &'static str
    ensures { result.now ≡ reach broadcast }
{
    if broadcast {
        " broadcast "
    } else {
        " unicast "
    }
}

/// Puts what was delivered.
fn put_delivered(text: &mut Vec<u8>, alloc: Global, delivered: &Delivered) -> Result<(), NoMemory>
    ensures { IfOk result (λ _. text.new.items ≡ text.old.items ++ delivered_words delivered.now) }
{
    put_words(text, " ")?;
    put_hex(text, alloc, &delivered.from.0)?;
    put_words(text, reach(delivered.broadcast))?;
    put_hex(text, alloc, delivered.npdu.as_slice())?;
    put_words(text, "\n")
}

/// Puts the line of a delivery.
fn put_delivery(text: &mut Vec<u8>, alloc: Global, delivery: &WorldDelivery) -> Result<(), NoMemory>
    ensures { IfOk result (λ _. text.new.items ≡ text.old.items ++ delivery_line delivery.now) }
{
    put_number(text, u64::from(delivery.node))?;
    put_numbered(text, " got ", delivery.sent_at)?;
    put_delivered(text, alloc, &delivery.delivered)
}

/// Puts the lines of what was delivered.
fn put_deliveries(
    text: &mut Vec<u8>,
    alloc: Global,
    deliveries: &[WorldDelivery],
) -> Result<(), NoMemory>
    ensures { IfOk result (λ _. text.new.items ≡ text.old.items ++ flat_map delivery_line deliveries.now) }
{
    for delivery in deliveries.iter() {
        put_delivery(text, alloc, delivery)?;
    }
    Ok(())
}

// ---- a step

/// Puts the lines of what a step did.
pub(crate) fn put_done(text: &mut Vec<u8>, alloc: Global, done: &StepDone) -> Result<(), NoMemory>
    ensures { IfOk result (λ _. text.new.items ≡ text.old.items ++ step_text done.now.dialled done.now.deliveries) }
{
    put_all_dialled(text, done.dialled.as_slice())?;
    put_deliveries(text, alloc, done.deliveries.as_slice())
}
