//! The lines of a table of settings.
ghost use Rattle.std.specs.Prelude.{◌≡◌, ◌++◌, decimal, flat_map, IfOk};
ghost use Rattle.bsc_settings.specs.Rows.{default_of};
ghost use Rattle.bsc_settings_told.specs.Written.{line_of};
ghost use Rattle.bsc_settings_told.specs.Lines.{is_default, set_line};

use crate::line::{Line, Told};
use crate::setting::{
    put_number, put_number_if, put_number_or, put_text, put_text_if, put_uuid, put_vmac,
};
use bsc_octets::NoMemory;
use std::alloc::Global;

/// Puts a key that takes a number, and that this is the default where it is.
fn put_number_by(
    text: &mut Vec<u8>,
    word: &str,
    n: u64,
    default: Option<u64>,
) -> Result<(), NoMemory>
    ensures { IfOk result (λ _. text.new.items ≡ text.old.items ++ set_line word.now (decimal n) (is_default (default_of default) n)) }
{
    match default {
        Some(default) => put_number_or(text, word, n, default),
        None => put_number(text, word, n),
    }
}

/// The same of a number of 16 bits.
fn put_number_16(
    text: &mut Vec<u8>,
    word: &str,
    n: u16,
    default: Option<u64>,
) -> Result<(), NoMemory>
    ensures { IfOk result (λ _. text.new.items ≡ text.old.items ++ set_line word.now (decimal n) (is_default (default_of default) n)) }
{
    put_number_by(text, word, u64::from(n), default)
}

/// The same of one of 32 bits.
fn put_number_32(
    text: &mut Vec<u8>,
    word: &str,
    n: u32,
    default: Option<u64>,
) -> Result<(), NoMemory>
    ensures { IfOk result (λ _. text.new.items ≡ text.old.items ++ set_line word.now (decimal n) (is_default (default_of default) n)) }
{
    put_number_by(text, word, u64::from(n), default)
}

/// Puts a line.
fn put_line(text: &mut Vec<u8>, alloc: Global, line: &Line<'_>) -> Result<(), NoMemory>
    ensures { IfOk result (λ _. text.new.items ≡ text.old.items ++ line_of line.now) }
{
    let word = line.0;
    let default = line.1;
    match &line.2 {
        Told::Address(vmac) => put_vmac(text, alloc, word, *vmac),
        Told::Device(device) => put_uuid(text, alloc, word, *device),
        Told::Number16(n) => put_number_16(text, word, *n, default),
        Told::Number32(n) => put_number_32(text, word, *n, default),
        Told::Number64(n) => put_number_by(text, word, *n, default),
        Told::Text(octets) => put_text(text, alloc, word, octets.as_slice()),
        Told::TextIf(octets) => put_text_if(text, alloc, word, *octets),
        Told::NumberIf(n) => put_number_if(text, word, *n),
        Told::UrisOf(_, octets) => put_text_if(text, alloc, word, *octets),
    }
}

/// Puts lines.
pub(crate) fn put_lines(
    text: &mut Vec<u8>,
    alloc: Global,
    lines: &[Line<'_>],
) -> Result<(), NoMemory>
    ensures { IfOk result (λ _. text.new.items ≡ text.old.items ++ flat_map line_of lines.now) }
{
    for line in lines.iter() {
        put_line(text, alloc, line)?;
    }
    Ok(())
}
