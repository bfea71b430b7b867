//! The first line of a hub's own journal.
ghost use Rattle.std.specs.Prelude.{◌≡◌, ◌++◌, IfOk, IsTrue};
ghost use Rattle.bsc_octets.specs.Identities.{identity_octets};
ghost use Rattle.bsc_lines.specs.Lines.{then_number};
ghost use Rattle.bsc_journal.specs.Saying.{IsIdentity, are_octets};
ghost use Rattle.bsc_hub_command.specs.HubLines.{hub_line, identity_text, then_hex};

use bsc_history::{About, Limits};
use bsc_lines::{put_hex, put_then, put_words};
use bsc_octets::{Identity, NoMemory, Octets};
use std::alloc::Global;

/// Puts octets as hexadecimal digits behind a space.
fn put_then_hex(text: &mut Vec<u8>, alloc: Global, octets: &[u8]) -> Result<(), NoMemory>
    ensures { IfOk result (λ _. text.new.items ≡ text.old.items ++ then_hex octets.now) }
{
    put_words(text, " ")?;
    put_hex(text, alloc, octets)
}

/// Puts an identity, field by field.
fn put_identity(text: &mut Vec<u8>, alloc: Global, who: &Identity) -> Result<(), NoMemory>
    ensures { IfOk result (λ _. text.new.items ≡ text.old.items ++ identity_text (identity_octets who.now)) }
{
    let octets = who.octets();
    let (vmac, rest) = octets.split_at(6);
    let (device, rest) = rest.split_at(16);
    let (bvlc, npdu) = rest.split_at(2);
    put_hex(text, alloc, vmac)?;
    put_then_hex(text, alloc, device)?;
    put_then_hex(text, alloc, bvlc)?;
    put_then_hex(text, alloc, npdu)
}

/// Puts the limits that a hub line has.
fn put_limits(text: &mut Vec<u8>, alloc: Global, limits: Limits) -> Result<(), NoMemory>
    ensures { IfOk result (λ _. text.new.items
        ≡ text.old.items ++ (then_number limits.rows ++ (then_number limits.outbox ++ then_number limits.calls))) }
{
    put_then(text, u64::from(limits.rows))?;
    put_then(text, u64::from(limits.outbox))?;
    put_then(text, limits.calls)
}

/// Octets are octets.
fn are_octets(octets: &[u8])
    ensures { IsTrue (are_octets octets.now) }
{}

/// The 26 octets of an identity say it.
pub(crate) fn is_identity(who: &Identity)
    ensures { IsIdentity who.now }
{
    let octets = who.octets();
    are_octets(&octets);
}

/// The line of what is fixed of a hub, with its end. Memory may run out.
pub fn hub_line(alloc: Global, about: About) -> Result<Octets, NoMemory>
    ensures { IfOk result (λ line. line ≡ hub_line about) }
{
    let mut text = Vec::new(alloc);
    put_words(&mut text, "hub ")?;
    put_identity(&mut text, alloc, &about.hub)?;
    put_limits(&mut text, alloc, about.limits)?;
    put_words(&mut text, "\n")?;
    Ok(Octets::from_vec(text))
}
