//! Hub lines.
ghost use Rattle.std.specs.Prelude.{◌≡◌, if◌then◌else◌, Some, None};
ghost use Rattle.bsc_text.specs.Words.{words_of};
ghost use Rattle.bsc_text.specs.Grammar.{vmac_of_word, device_of_word, maximum_of_word, number_of};
ghost use Rattle.bsc_script.specs.Lines.{may_be_hub, hub_of, hub_line, hub_line_of_words, calls_of_words};

use crate::line::Line;
use bsc_history::{About, Limits, MOST_CALLERS, MOST_CALLS, MOST_OCTETS, MOST_OUTBOX, MOST_ROWS};
use bsc_octets::{DeviceId, Identity, LEAST_BVLC, Vmac};
use bsc_text::{next_word, read_device, read_maximum, read_number, read_vmac};

/// Whether a hub may be made so.
fn may_be_hub(vmac: Vmac, max_bvlc: u16, max_npdu: u16, rows: u64, outbox: u64, calls: u64) -> bool
    ensures { result ≡ may_be_hub vmac max_bvlc max_npdu rows outbox calls }
{
    vmac != Vmac::ZERO
        && vmac != Vmac::BROADCAST
        && max_bvlc >= LEAST_BVLC
        && max_npdu >= 1
        && 1 <= rows
        && rows <= MOST_ROWS
        && 2 <= outbox
        && outbox <= MOST_OUTBOX
        && 1 <= calls
        && calls <= MOST_CALLS
        && rows * outbox * u64::from(max_bvlc) <= MOST_OCTETS
}

/// A line that makes a hub of these, with the callers of a script's hub.
fn hub_of(
    vmac: Vmac,
    device: DeviceId,
    max_bvlc: u16,
    max_npdu: u16,
    rows: u64,
    outbox: u64,
    calls: u64,
) -> Option<Line>
    ensures { result ≡ (if may_be_hub vmac max_bvlc max_npdu rows outbox calls
        then Some (Line.Hub (hub_of vmac device max_bvlc max_npdu rows outbox calls)) else None) }
{
    if !may_be_hub(vmac, max_bvlc, max_npdu, rows, outbox, calls) {
        return None;
    }
    let hub = Identity {
        vmac,
        device,
        max_bvlc,
        max_npdu,
    };
    let limits = Limits {
        rows: rows as u32,
        outbox: outbox as u32,
        calls,
        callers: MOST_CALLERS,
    };
    Some(Line::Hub(About { hub, limits }))
}

/// What a line says whose words after `hub` are these, the last ones together.
fn hub_line(
    vmac: &[u8],
    device: &[u8],
    max_bvlc: &[u8],
    max_npdu: &[u8],
    rows: &[u8],
    outbox: &[u8],
    calls: &[u8],
) -> Option<Line>
    ensures { result ≡ hub_line (vmac_of_word vmac.now) (device_of_word device.now)
        (maximum_of_word max_bvlc.now) (maximum_of_word max_npdu.now)
        (number_of rows.now) (number_of outbox.now) (calls_of_words (words_of calls.now)) }
{
    hub_of(
        read_vmac(vmac)?,
        read_device(device)?,
        read_maximum(max_bvlc)?,
        read_maximum(max_npdu)?,
        read_number(rows)?,
        read_number(outbox)?,
        read_calls(calls)?,
    )
}

/// How many calls the last words of a hub line say.
fn read_calls(words: &[u8]) -> Option<u64>
    ensures { result ≡ calls_of_words (words_of words.now) }
{
    let Some((calls, words)) = next_word(words) else {
        return Some(MOST_CALLS);
    };
    match next_word(words) {
        None => read_number(calls),
        Some(_) => None,
    }
}

/// What a line says whose first word is `hub`, by the words after it.
pub(crate) fn read_hub(words: &[u8]) -> Option<Line>
    ensures { result ≡ hub_line_of_words (words_of words.now) }
{
    let (vmac, words) = next_word(words)?;
    let (device, words) = next_word(words)?;
    let (max_bvlc, words) = next_word(words)?;
    let (max_npdu, words) = next_word(words)?;
    let (rows, words) = next_word(words)?;
    let (outbox, words) = next_word(words)?;
    hub_line(vmac, device, max_bvlc, max_npdu, rows, outbox, words)
}
