//! The lines of settings.
ghost use Rattle.std.specs.Prelude.{◌≡◌, ◌++◌, ◌==◌, decimal, false, IfOk};
ghost use Rattle.bsc_settings.specs.Table.{absent, Default};
ghost use Rattle.bsc_settings.specs.Values.{number_if, text_if};
ghost use Rattle.bsc_settings_told.specs.Lines.{line_by, set_line, unset_line, uuid_text, verb_of, vmac_text};
ghost use Rattle.bsc_settings_told.specs.Quoting.{marked, quoted};

use crate::quoting::{mark, quote};
use bsc_lines::put_words;
use bsc_octets::{DeviceId, NoMemory, Octets, Vmac};
use itoa::Buffer;
use std::alloc::Global;

/// Puts a key with its value.
#[tactic(auto, unfolding(crate::specs::Lines::set_line))]
fn put_set(text: &mut Vec<u8>, word: &str, value: &[u8], is_default: bool) -> Result<(), NoMemory>
    ensures { IfOk result (λ _. text.new.items ≡ text.old.items ++ set_line word.now value.now is_default) }
{
    put_words(text, word)?;
    put_words(text, " = ")?;
    text.extend_from_slice(value)?;
    if is_default {
        put_words(text, " # default\n")
    } else {
        put_words(text, "\n")
    }
}

/// Puts a key that is missing.
#[tactic(auto, unfolding(crate::specs::Lines::unset_line))]
pub(crate) fn put_unset(text: &mut Vec<u8>, word: &str) -> Result<(), NoMemory>
    ensures { IfOk result (λ _. text.new.items ≡ text.old.items ++ unset_line word.now) }
{
    put_words(text, "# ")?;
    put_words(text, word)?;
    put_words(text, " isn't set # default\n")
}

/// An address between quotation marks.
#[tactic(auto, unfolding(crate::specs::Lines::vmac_text))]
fn vmac_text(alloc: Global, vmac: Vmac) -> Result<Vec<u8>, NoMemory>
    ensures { IfOk result (λ t. t.items ≡ vmac_text vmac) }
{
    let Ok(digits) = hex::encode_upper(alloc, &vmac.0) else {
        return Err(NoMemory);
    };
    mark(alloc, digits.as_bytes())
}

/// Puts a key that takes an address.
pub(crate) fn put_vmac(
    text: &mut Vec<u8>,
    alloc: Global,
    word: &str,
    vmac: Vmac,
) -> Result<(), NoMemory>
    ensures { IfOk result (λ _. text.new.items ≡ text.old.items ++ set_line word.now (vmac_text vmac) false) }
{
    let value = vmac_text(alloc, vmac)?;
    put_set(text, word, value.as_slice(), false)
}

/// A device between quotation marks.
#[tactic(auto, unfolding(crate::specs::Lines::uuid_text))]
fn uuid_text(alloc: Global, device: DeviceId) -> Result<Vec<u8>, NoMemory>
    ensures { IfOk result (λ t. t.items ≡ uuid_text device) }
{
    let mut room = [0; 36];
    mark(
        alloc,
        device.0.hyphenated().encode_lower(&mut room).as_bytes(),
    )
}

/// Puts a key that takes a device.
pub(crate) fn put_uuid(
    text: &mut Vec<u8>,
    alloc: Global,
    word: &str,
    device: DeviceId,
) -> Result<(), NoMemory>
    ensures { IfOk result (λ _. text.new.items ≡ text.old.items ++ set_line word.now (uuid_text device) false) }
{
    let value = uuid_text(alloc, device)?;
    put_set(text, word, value.as_slice(), false)
}

/// Puts a key that takes a number and has to be there.
pub(crate) fn put_number(text: &mut Vec<u8>, word: &str, n: u64) -> Result<(), NoMemory>
    ensures { IfOk result (λ _. text.new.items ≡ text.old.items ++ set_line word.now (decimal n) false) }
{
    let mut digits = Buffer::new();
    put_set(text, word, digits.format(n).as_bytes(), false)
}

/// Puts a key that takes a number and has a default.
pub(crate) fn put_number_or(
    text: &mut Vec<u8>,
    word: &str,
    n: u64,
    default: u64,
) -> Result<(), NoMemory>
    ensures { IfOk result (λ _. text.new.items ≡ text.old.items ++ set_line word.now (decimal n) (n == default)) }
{
    let mut digits = Buffer::new();
    put_set(text, word, digits.format(n).as_bytes(), n == default)
}

/// Puts a key that takes a number and may be missing.
pub(crate) fn put_number_if(text: &mut Vec<u8>, word: &str, n: Option<u16>) -> Result<(), NoMemory>
    ensures { IfOk result (λ _. text.new.items ≡ text.old.items ++ line_by word.now absent (number_if n)) }
{
    match n {
        Some(n) => put_number(text, word, u64::from(n)),
        None => put_unset(text, word),
    }
}

/// Puts a key that takes a text.
pub(crate) fn put_text(
    text: &mut Vec<u8>,
    alloc: Global,
    word: &str,
    octets: &[u8],
) -> Result<(), NoMemory>
    ensures { IfOk result (λ _. text.new.items ≡ text.old.items ++ set_line word.now (quoted octets.now) false) }
{
    let value = quote(alloc, octets)?;
    put_set(text, word, value.as_slice(), false)
}

/// Puts a key that takes a text and may be missing.
pub(crate) fn put_text_if(
    text: &mut Vec<u8>,
    alloc: Global,
    word: &str,
    octets: &Option<Octets>,
) -> Result<(), NoMemory>
    ensures { (default : Default) → IfOk result (λ _. text.new.items ≡ text.old.items ++ line_by word.now default (text_if octets.now)) }
{
    match octets {
        Some(octets) => put_text(text, alloc, word, octets.as_slice()),
        None => put_unset(text, word),
    }
}

/// What a rule does.
fn verb_of(allows: bool) -> &'static str
    ensures { result.now ≡ verb_of allows }
{
    if allows { "allow" } else { "deny" }
}

/// Puts what a rule does.
pub(crate) fn put_allows(
    text: &mut Vec<u8>,
    alloc: Global,
    word: &str,
    allows: bool,
) -> Result<(), NoMemory>
    ensures { IfOk result (λ _. text.new.items ≡ text.old.items ++ set_line word.now (marked (verb_of allows)) false) }
{
    let value = mark(alloc, verb_of(allows).as_bytes())?;
    put_set(text, word, value.as_slice(), false)
}
