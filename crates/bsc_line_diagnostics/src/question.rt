//! Lines of `check` (docs/CHECKS.md, "The command `check`").
ghost use Rattle.std.specs.Prelude.{◌≡◌, None, IfSome};
ghost use Rattle.bsc_replay.specs.Asking.{line_of};

use bsc_diagnostics::{Diagnostic, hold, hold_octets, word_of};
use bsc_octets::NoMemory;
use bsc_player::LineFault;
use bsc_replay::{Line, read_line};
use bsc_text::next_word;
use std::alloc::Global;

const FORM: &str = "PLACE PHASE MAX OCTETS";

/// What has no form of a line, although each of its words is right.
const NO_LINE: Diagnostic<'static> = Diagnostic::Line {
    rule: "it is no line of `check`",
};

/// Whether a place, a phase and a greatest length are read as a question of no octets.
fn is_asked(alloc: Global, place: &[u8], phase: &[u8], max: &[u8]) -> Result<bool, NoMemory> {
    let mut line = Vec::from_slice(alloc, place)?;
    line.extend_from_slice(b" ")?;
    line.extend_from_slice(phase)?;
    line.extend_from_slice(b" ")?;
    line.extend_from_slice(max)?;
    match read_line(alloc, line.as_slice()) {
        Ok(Line::Question { .. }) => Ok(true),
        Ok(Line::Nothing) | Err(LineFault::Refused) => Ok(false),
        Err(LineFault::NoMemory) => Err(NoMemory),
    }
}

/// Whether they are, or there is no memory to see.
fn may_be_asked(alloc: Global, place: &[u8], phase: &[u8], max: &[u8]) -> bool {
    is_asked(alloc, place, phase, max).unwrap_or(true)
}

/// A line that asks something. Each word is read by itself, beside others that are right.
fn hold_line<'a>(alloc: Global, line: &'a [u8]) -> Result<(), Diagnostic<'a>> {
    if next_word(line).is_none() {
        return Ok(());
    }
    let (place, words) = word_of(line, FORM)?;
    let (phase, words) = word_of(words, FORM)?;
    let (max, words) = word_of(words, FORM)?;
    hold(
        may_be_asked(alloc, place, b"connected", b"0"),
        place,
        "is no place: hub, node:VMAC, direct:VMAC:VMAC and direct:VMAC:- are",
    )?;
    hold(
        may_be_asked(alloc, b"hub", phase, b"0"),
        phase,
        "is no phase: request, accept, connected and disconnecting are",
    )?;
    hold(
        may_be_asked(alloc, b"hub", b"connected", max),
        max,
        "is no number from 0 to 65535",
    )?;
    hold_octets(words)
}

/// The rule that a line breaks which has no form of a line of `check`; None of one that has.
pub fn why_check_line<'a>(alloc: Global, line: &'a [u8]) -> Option<Diagnostic<'a>>
    ensures { IfSome result (λ reason. line_of line.now ≡ None) }
{
    match read_line(alloc, line) {
        Ok(_) | Err(LineFault::NoMemory) => None,
        Err(LineFault::Refused) => match hold_line(alloc, line) {
            Err(reason) => Some(reason),
            Ok(()) => Some(NO_LINE),
        },
    }
}
