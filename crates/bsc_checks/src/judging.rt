//! What becomes of a message.
ghost use Rattle.std.specs.Prelude.{◌≡◌, ◌↔◌, ◌⊎◌, ℕ, List, IfOk, IfErr, IsErr};
ghost use Rattle.std.specs.List.{AllByRecursion};
ghost use Rattle.arrayvec.specs.ArrayVec.{ArrayVec};
ghost use Rattle.bsc_octets.specs.declared.envelope.Envelope.{Envelope};
ghost use Rattle.bsc_frame.specs.declared.check.Check.{Check};
ghost use Rattle.bsc_frame.specs.declared.message.Message.{Message};
ghost use Rattle.bsc_frame.specs.Checks.{MessageFails, order};
ghost use Rattle.bsc_frame.specs.Spelling.{Spells};
ghost use Rattle.bsc_checks.specs.declared.place.Place.{Place};
ghost use Rattle.bsc_checks.specs.declared.verdict.Verdict.{Verdict};
ghost use Rattle.bsc_checks.specs.Places.{is_to_carry};
ghost use Rattle.bsc_checks.specs.Table.{code_of, IsFirst};
ghost use Rattle.bsc_checks.specs.Naks.{IsMarker};
ghost use Rattle.bsc_checks.specs.Verdicts.{Judged};
ghost use Rattle.bsc_checks.specs.Outcomes.{outcome_of};
ghost use Rattle.bsc_checks.specs.Walk.{IsHead, ChecksAnswer, between, from_flags};

use crate::addresses::is_unicast;
use crate::failed_check::FailedCheck;
use crate::functions::is_out_of_place;
use crate::head::read_head;
use crate::nak::{nak, return_address};
use crate::option_checks::read_options;
use crate::place::Place;
use crate::verdict::Verdict;
use bsc_frame::{Check, Message, payload_fault, read};
use bsc_octets::{Envelope, NoMemory, control, function, results};
use std::alloc::Global;

/// The error code that a check answers with.
fn code_of(check: Check) -> Option<u16>
    ensures { result ≡ code_of check }
{
    match check {
        Check::C1 | Check::C2 | Check::C3 | Check::C4 | Check::C13 => None,
        Check::C5 | Check::C7b | Check::C8 => Some(results::HEADER_ENCODING_ERROR),
        Check::C6 => Some(results::FUNCTION_UNKNOWN),
        Check::C7 | Check::C10b => Some(results::MESSAGE_INCOMPLETE),
        Check::C9 => Some(results::HEADER_NOT_UNDERSTOOD),
        Check::C10 => Some(results::PAYLOAD_EXPECTED),
        Check::C10c => Some(results::UNEXPECTED_DATA),
        Check::C11 => Some(results::PARAMETER_OUT_OF_RANGE),
        Check::C12 => Some(results::PROPRIETARY_FUNCTION_UNKNOWN),
    }
}

/// Whether the hub carries the message on.
fn is_to_carry(place: &Place, head: &Envelope) -> bool
    ensures { (m : List ℕ) → IsHead m head.now → result ≡ is_to_carry place.now m }
{
    matches!(place, Place::HubPort { .. }) && head.dest.is_some()
}

/// The first of C6 to C12 that fails, of a message that is not to be carried on.
fn later_refusal(m: &[u8], head: &Envelope, to_carry: bool) -> Option<FailedCheck>
    requires { IsHead m.now head.now }
    ensures { (place : Place) (max : ℕ) → ChecksAnswer (between to_carry) m.now place max result }
{
    if to_carry {
        return None;
    }
    if head.function > function::PROPRIETARY_MESSAGE {
        return Some(FailedCheck::of(Check::C6));
    }
    let ends = match read_options(m, head) {
        Ok(ends) => ends,
        Err(refusal) => return Some(refusal),
    };
    if let Some(check) = payload_fault(head.function, &m[ends.data..]) {
        return Some(FailedCheck::of(check));
    }
    if head.function == function::PROPRIETARY_MESSAGE {
        return Some(FailedCheck::of(Check::C12));
    }
    None
}

/// The first of C5 to C13 that fails.
fn refusal(m: &[u8], head: &Envelope, place: &Place) -> Option<FailedCheck>
    requires { IsHead m.now head.now }
    ensures { (max : ℕ) → ChecksAnswer (from_flags (is_to_carry place.now m.now)) m.now place.now max result }
{
    if head.flags > control::FLAGS {
        return Some(FailedCheck::of(Check::C5));
    }
    let to_carry = is_to_carry(place, head);
    if let Some(refusal) = later_refusal(m, head, to_carry) {
        return Some(refusal);
    }
    if is_out_of_place(to_carry, place, head.function, head.origin) {
        return Some(FailedCheck::of(Check::C13));
    }
    None
}

/// The verdict where a check fails: a NAK, where it has a code, the message is a unicast and no response.
fn refused(head: &Envelope, place: &Place, refusal: FailedCheck) -> Verdict
    ensures { (m : List ℕ) (max : ℕ) → IsHead m head.now → IsFirst refusal.check m place.now max
        → IsMarker m refusal.check refusal.marker → Judged m place.now max result }
{
    let Some(code) = code_of(refusal.check) else {
        return Verdict::Silent(refusal.check);
    };
    if !is_unicast(head.dest) {
        return Verdict::Silent(refusal.check);
    }
    if function::is_response(head.function) {
        return Verdict::Silent(refusal.check);
    }
    let dest = return_address(place, head.origin);
    let octets = nak(head.id, dest, head.function, refusal.marker, code);
    Verdict::Nak(refusal.check, octets)
}

/// The message that the octets spell, where none of their checks fails.
fn passed(alloc: Global, m: &[u8]) -> Result<Message, NoMemory>
    requires { AllByRecursion (λ check. ¬ MessageFails m.now check) order }
    ensures found { IfOk result (λ msg. Spells msg m.now) }
    ensures memory { IfErr result (λ _. (msg : Message) × Spells msg m.now) }
{
    match read(alloc, m) {
        Ok(message) => Ok(message),
        Err(_) => Err(NoMemory),
    }
}

/// What becomes of a message that came at this place, where no message is to be longer than `max` octets.
///
/// The checks are made in the order of [`Check`], and the first that fails decides. At a hub port a message with
/// a Destination is judged by its head alone, C1 to C5, and then by the phase: it is carried on where the
/// connection is made. Every other message has to pass all checks.
///
/// A check that fails is answered by a NAK where it has a code, the message is a unicast, and its function is no
/// response; else the verdict is silence. Memory is taken only for a message that passes, as [`read`] takes it.
pub fn judge(alloc: Global, m: &[u8], place: &Place, max: u16) -> Result<Verdict, NoMemory>
    // The verdict that is answered is the one that the message has, and it has no other.
    ensures found { IfOk result (λ verdict. Judged m.now place.now max verdict) }
    ensures only { (verdict : Verdict) → Judged m.now place.now max verdict → (result ≡ Ok verdict) ⊎ IsErr result }

    // It is the one that is computed of the octets.
    ensures outcome { IfOk result (λ verdict. verdict ≡ outcome_of m.now place.now max) }

    // Memory can be wanting only where the message passes.
    ensures memory { IfErr result (λ _. (msg : Message) × Judged m.now place.now max (Verdict.Pass msg)) }
    ensures passes { IfErr result (λ _. (msg : Message) × (outcome_of m.now place.now max ≡ Verdict.Pass msg)) }

    // So a message is carried on, dropped in silence or refused exactly where that is its verdict.
    ensures carry { (envelope : Envelope) →
        (result ≡ Ok (Verdict.Carry envelope)) ↔ Judged m.now place.now max (Verdict.Carry envelope) }
    ensures silent { (check : Check) →
        (result ≡ Ok (Verdict.Silent check)) ↔ Judged m.now place.now max (Verdict.Silent check) }
    ensures nak { (check : Check) (octets : ArrayVec ℕ) →
        (result ≡ Ok (Verdict.Nak check octets)) ↔ Judged m.now place.now max (Verdict.Nak check octets) }
{
    let head = match read_head(m, place, max) {
        Ok(head) => head,
        Err(check) => return Ok(Verdict::Silent(check)),
    };
    if let Some(refusal) = refusal(m, &head, place) {
        return Ok(refused(&head, place, refusal));
    }
    if is_to_carry(place, &head) {
        return Ok(Verdict::Carry(head));
    }
    let message = passed(alloc, m)?;
    Ok(Verdict::Pass(message))
}
