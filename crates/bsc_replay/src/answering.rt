//! The line that answers a question.
ghost use Rattle.std.specs.Prelude.{◌≡◌, ◌++◌, IfOk, codes};
ghost use Rattle.hex.specs.Hex.{encode_upper};
ghost use Rattle.bsc_frame.specs.CheckNames.{check_name};
ghost use Rattle.bsc_replay.specs.Answering.{verdict_line};

use bsc_checks::{Check, Verdict};
use bsc_lines::{put_hex, put_words};
use bsc_octets::NoMemory;
use std::alloc::Global;

/// Puts the line of silence at a check.
fn put_silence(text: &mut Vec<u8>, check: Check) -> Result<(), NoMemory>
    ensures { IfOk result (λ _. text.new.items
        ≡ text.old.items ++ (codes "silent " ++ check_name check ++ codes "\n")) }
{
    put_words(text, "silent ")?;
    put_words(text, check.name())?;
    put_words(text, "\n")
}

/// Puts the line of a NAK at a check.
fn put_nak(text: &mut Vec<u8>, alloc: Global, check: Check, octets: &[u8]) -> Result<(), NoMemory>
    ensures { IfOk result (λ _. text.new.items ≡ text.old.items
        ++ (codes "nak " ++ check_name check ++ codes " " ++ encode_upper octets.now ++ codes "\n")) }
{
    put_words(text, "nak ")?;
    put_words(text, check.name())?;
    put_words(text, " ")?;
    put_hex(text, alloc, octets)?;
    put_words(text, "\n")
}

/// Puts the line of a verdict at the end of a text.
pub fn put_verdict(text: &mut Vec<u8>, alloc: Global, verdict: &Verdict) -> Result<(), NoMemory>
    ensures { IfOk result (λ _. text.new.items ≡ text.old.items ++ verdict_line verdict.now) }
{
    match verdict {
        Verdict::Pass(_) => put_words(text, "pass\n"),
        Verdict::Carry(_) => put_words(text, "carry\n"),
        Verdict::Silent(check) => put_silence(text, *check),
        Verdict::Nak(check, octets) => put_nak(text, alloc, *check, octets.as_slice()),
    }
}
