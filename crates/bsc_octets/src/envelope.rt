//! What a message begins with: function, flags, ID, and the addresses that the flags announce.
//!
//! | octets | field |
//! |---|---|
//! | 0 | BVLC function |
//! | 1 | control flags: bit 3, an Originating address follows; bit 2, a Destination address follows |
//! | 2, 3 | Message ID, the high octet first |
//! | then 0 or 6 | Originating Virtual Address |
//! | then 0 or 6 | Destination Virtual Address |
#![tactic(auto)]

ghost use Rattle.std.specs.Prelude.{◌≡◌, ◌↔◌, ◌≤◌, ◌<◌, ◌+◌, ◌^◌, IsTrue, IsNone, IsSome, IfOk, IsOkAnd, length, take, drop};
ghost use Rattle.bsc_octets.specs.declared.envelope.Envelope.{Envelope};
ghost use Rattle.bsc_octets.specs.Envelopes.{envelope_of, SpellsEnvelope, HasWholeAddresses, announced_length, announces_origin, announces_dest, flags_in};
ghost use Rattle.bsc_octets.specs.Forwarding.{has_route};

use crate::control;
use crate::vmac::Vmac;
use byteorder::{BigEndian, ByteOrder};
use thiserror::Error;

/// The first part of a message (Annex AB, "General BVLC Message Format").
#[derive(Clone, Copy, Debug, PartialEq, Eq)]
pub struct Envelope {
    /// The BVLC Function.
    pub function: u8,
    /// The Control Flags, all eight.
    pub flags: u8,
    /// The Message ID.
    pub id: u16,
    /// The Originating Virtual Address.
    pub origin: Option<Vmac>,
    /// The Destination Virtual Address.
    pub dest: Option<Vmac>,
    /// The place after the addresses, where header options and payload begin.
    pub rest_at: usize,
}

/// Why octets have no envelope.
#[derive(Clone, Copy, Debug, PartialEq, Eq, Error)]
pub enum EnvelopeFault {
    /// There are fewer than four octets.
    #[error("fewer than four octets")]
    Short,
    /// Octets of an address that the flags announce are missing.
    #[error("an announced address is cut")]
    Cut,
}

/// The address in the six octets from place `at`.
pub(crate) fn vmac_at(m: &[u8], at: usize) -> Vmac
    requires { at + 6 ≤ length m.now }
    ensures { result.0 ≡ take 6 (drop at m.now) }
{
    let mut octets = [0u8; 6];
    octets.copy_from_slice(&m[at..at + 6]);
    Vmac(octets)
}

#[tactic(auto, using(crate::proofs::Flags::flag_tests))]
fn announces_origin(flags: u8) -> bool
    ensures { result ≡ announces_origin flags }
{
    flags & control::ORIGIN != 0
}

#[tactic(auto, using(crate::proofs::Flags::flag_tests))]
fn announces_dest(flags: u8) -> bool
    ensures { result ≡ announces_dest flags }
{
    flags & control::DEST != 0
}

#[tactic(auto, unfolding(crate::specs::Envelopes::envelope_of))]
fn envelope_at_front(m: &[u8]) -> Result<Envelope, EnvelopeFault>
    ensures read { result ≡ envelope_of m.now }
    ensures whole { IfOk result HasWholeAddresses }
    ensures short { (result ≡ Err EnvelopeFault.Short) ↔ (length m.now < 4) }
    ensures cut { (result ≡ Err EnvelopeFault.Cut) ↔
        ((4 ≤ length m.now) × (length m.now < 4 + announced_length (flags_in m.now))) }
    ensures route { IsTrue (has_route m.now) ↔ IsOkAnd result (λ e. IsNone e.origin × IsSome e.dest) }
{
    if m.len() < 4 {
        return Err(EnvelopeFault::Short);
    }
    let flags = m[1];
    let mut at = 4;
    let mut origin = None;
    if announces_origin(flags) {
        if m.len() < at + 6 {
            return Err(EnvelopeFault::Cut);
        }
        origin = Some(vmac_at(m, at));
        at += 6;
    }
    let mut dest = None;
    if announces_dest(flags) {
        if m.len() < at + 6 {
            return Err(EnvelopeFault::Cut);
        }
        dest = Some(vmac_at(m, at));
        at += 6;
    }
    Ok(Envelope {
        function: m[0],
        flags,
        id: BigEndian::read_u16(&m[2..]),
        origin,
        dest,
        rest_at: at,
    })
}

/// The envelope that a message begins with. No memory is taken.
pub fn read_envelope(m: &[u8]) -> Result<Envelope, EnvelopeFault>
    // What is found is spelled by the message, its addresses are whole, and no other such envelope is spelled by it.
    ensures found { IfOk result (λ e. SpellsEnvelope e m.now) }
    ensures whole { IfOk result HasWholeAddresses }
    ensures only { (e : Envelope) → HasWholeAddresses e → e.id < 2 ^ 16 → SpellsEnvelope e m.now → result ≡ Ok e }

    // There is none below four octets, or where octets of an announced address are missing.
    ensures short { (result ≡ Err EnvelopeFault.Short) ↔ (length m.now < 4) }
    ensures cut { (result ≡ Err EnvelopeFault.Cut) ↔
        ((4 ≤ length m.now) × (length m.now < 4 + announced_length (flags_in m.now))) }

    // The hub passes on what has a Destination and no Originating address.
    ensures route { IsTrue (has_route m.now) ↔ IsOkAnd result (λ e. IsNone e.origin × IsSome e.dest) }

    // The same as a value: what one reading from the front finds.
    ensures read { result ≡ envelope_of m.now }
{
    envelope_at_front(m)
}
