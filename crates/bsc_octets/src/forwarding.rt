//! The message as the hub passes it on.
#![tactic(auto)]

ghost use Rattle.std.specs.Prelude.{◌≡◌, ◌≤◌, ◌+◌, IsTrue, IfOk, length, take, drop};
ghost use Rattle.bsc_octets.specs.Envelopes.{SpellsEnvelope};
ghost use Rattle.bsc_octets.specs.Forwarding.{out, destination, envelope_out, has_route, is_broadcast, flags_out, kept};

use crate::control;
use crate::envelope::vmac_at;
use crate::no_memory::NoMemory;
use crate::octets::Octets;
use crate::vmac::Vmac;
use std::alloc::Global;

/// Whether the message has a Destination, whole, and no Originating address.
pub fn has_route(m: &[u8]) -> bool
    ensures { result ≡ has_route m.now }
{
    m.len() >= 10 && m[1] / 4 % 2 == 1 && !(m[1] / 8 % 2 == 1)
}

/// The Destination of a message that has one and no Originating address.
fn destination_in(m: &[u8]) -> Vmac
    requires { 10 ≤ length m.now }
    ensures { result ≡ destination m.now }
{
    vmac_at(m, 4)
}

/// The Destination of a message that is to be forwarded.
pub fn destination(m: &[u8]) -> Vmac
    requires { IsTrue (has_route m.now) }
    ensures { result ≡ destination m.now }
{
    destination_in(m)
}

/// Whether that is the broadcast address.
pub fn is_broadcast(m: &[u8]) -> bool
    requires { 10 ≤ length m.now }
    ensures { result ≡ is_broadcast m.now }
{
    destination_in(m) == Vmac::BROADCAST
}

/// An address has six octets.
fn has_six(address: &Vmac)
    ensures { length address.now.0 ≡ 6 }
{
    let _six = address.0;
}

/// How many octets are passed on of a message from a sender at `from`: six more of a broadcast, as many of a unicast.
pub fn out_length(m: &[u8], from: Vmac) -> usize
    requires { 10 ≤ length m.now }
    ensures { result ≡ length (out m.now from) }
{
    has_six(&from);
    if is_broadcast(m) {
        m.len() + 6
    } else {
        m.len()
    }
}

/// The flags with the Originating address announced, and with a unicast's Destination no longer.
fn new_flags(m: &[u8], to_all: bool) -> u8
    requires { 10 ≤ length m.now }
    ensures { to_all ≡ is_broadcast m.now → result ≡ flags_out m.now }
{
    if to_all {
        m[1] | control::ORIGIN
    } else {
        (m[1] | control::ORIGIN) & !control::DEST
    }
}

/// The octets of the Destination that stay: all of a broadcast's, none of a unicast's.
fn kept_destination(m: &[u8], to_all: bool) -> &[u8]
    requires { 10 ≤ length m.now }
    ensures { to_all ≡ is_broadcast m.now → result.now ≡ kept m.now }
{
    if to_all { &m[4..10] } else { &m[10..10] }
}

#[tactic(auto, unfolding(crate::specs::Forwarding::out))]
fn octets_out(alloc: Global, m: &[u8], from: Vmac) -> Result<Octets, NoMemory>
    requires { IsTrue (has_route m.now) }
    ensures { IfOk result (λ o. o ≡ out m.now from) }
{
    let to_all = destination(m) == Vmac::BROADCAST;
    let mut octets = Vec::with_capacity(alloc, m.len() + 6)?;
    octets.push(m[0])?;
    octets.push(new_flags(m, to_all))?;
    octets.extend_from_slice(&m[2..4])?;
    octets.extend_from_slice(&from.0)?;
    octets.extend_from_slice(kept_destination(m, to_all))?;
    octets.extend_from_slice(&m[10..])?;
    Ok(Octets::from_vec(octets))
}

/// The message as the hub passes it on, from a sender at `from` (Annex AB, "Hub Function Forwarding"):
/// the Originating address is put in, a unicast's Destination is taken out, and all else is kept.
pub fn forwarded(alloc: Global, m: &[u8], from: Vmac) -> Result<Octets, NoMemory>
    requires { IsTrue (has_route m.now) }
    ensures passed_on { IfOk result (λ o. o ≡ out m.now from) }

    // It has an envelope again: function and ID as they were, and with that origin.
    ensures envelope { IfOk result (λ o. SpellsEnvelope (envelope_out m.now from) o) }
{
    octets_out(alloc, m, from)
}
