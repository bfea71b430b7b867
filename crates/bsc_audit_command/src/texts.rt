//! What the command writes.
ghost use Rattle.std.specs.Prelude.{◌≡◌, codes, string_bytes, IfOk};
ghost use Rattle.bsc_player.specs.LastLines.{script_line};
ghost use Rattle.bsc_audit_command.specs.Lines.{word_line};

use bsc_octets::NoMemory;
use std::alloc::Global;

/// The line of journals that are legal.
pub(crate) fn legal_line(alloc: Global, entries: u64) -> Result<String, NoMemory>
    ensures { IfOk result (λ text. string_bytes text ≡ word_line (codes "legal") entries) }
{
    Ok(format!(in alloc; "legal {entries}\n")?)
}

/// The line of journals with so many hub lines.
pub(crate) fn hubs_line(alloc: Global, lines: u64) -> Result<String, NoMemory>
    ensures { IfOk result (λ text. string_bytes text ≡ word_line (codes "hubs") lines) }
{
    Ok(format!(in alloc; "hubs {lines}\n")?)
}

/// The line of a place that stands twice.
pub(crate) fn twice_line(alloc: Global, place: u64) -> Result<String, NoMemory>
    ensures { IfOk result (λ text. string_bytes text ≡ word_line (codes "twice") place) }
{
    Ok(format!(in alloc; "twice {place}\n")?)
}

/// The line of a place that is missing.
pub(crate) fn missing_line(alloc: Global, place: u64) -> Result<String, NoMemory>
    ensures { IfOk result (λ text. string_bytes text ≡ word_line (codes "missing") place) }
{
    Ok(format!(in alloc; "missing {place}\n")?)
}

/// The line of a place whose entry isn't legal.
pub(crate) fn illegal_line(alloc: Global, place: u64) -> Result<String, NoMemory>
    ensures { IfOk result (λ text. string_bytes text ≡ word_line (codes "illegal") place) }
{
    Ok(format!(in alloc; "illegal {place}\n")?)
}

/// The line of a line that is bad.
pub(crate) fn bad_line(alloc: Global, line: u64) -> Result<String, NoMemory>
    ensures { IfOk result (λ text. string_bytes text ≡ script_line line) }
{
    Ok(format!(in alloc; "fault script line {line}\n")?)
}
