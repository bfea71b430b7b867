//! Texts between quotation marks.
ghost use Rattle.std.specs.Prelude.{◌≡◌, ◌++◌, flat_map, IfOk};
ghost use Rattle.bsc_settings_told.specs.Quoting.{escaped, marked, quoted};

use bsc_lines::put_hex;
use bsc_octets::NoMemory;
use std::alloc::Global;

/// A quotation mark.
const MARK: u8 = 34;

/// A backslash.
const BACKSLASH: u8 = 92;

/// Puts an octet of a text.
fn put_escaped(text: &mut Vec<u8>, alloc: Global, c: u8) -> Result<(), NoMemory>
    ensures { IfOk result (λ _. text.new.items ≡ text.old.items ++ escaped c) }
{
    if c == MARK {
        text.extend_from_slice(&[BACKSLASH, MARK])?;
        return Ok(());
    }
    if c == BACKSLASH {
        text.extend_from_slice(&[BACKSLASH, BACKSLASH])?;
        return Ok(());
    }
    if c < 32 || c == 127 {
        text.extend_from_slice(&[BACKSLASH, b'u', b'0', b'0'])?;
        return put_hex(text, alloc, &[c]);
    }
    text.push(c)?;
    Ok(())
}

/// Puts the octets of a text.
fn put_all(text: &mut Vec<u8>, alloc: Global, octets: &[u8]) -> Result<(), NoMemory>
    ensures { IfOk result (λ _. text.new.items ≡ text.old.items ++ flat_map escaped octets.now) }
{
    for c in octets.iter() {
        put_escaped(text, alloc, *c)?;
    }
    Ok(())
}

/// A text that needs no backslash, between quotation marks.
pub(crate) fn mark(alloc: Global, plain: &[u8]) -> Result<Vec<u8>, NoMemory>
    ensures { IfOk result (λ t. t.items ≡ marked plain.now) }
{
    let mut text = Vec::new(alloc);
    text.push(MARK)?;
    text.extend_from_slice(plain)?;
    text.push(MARK)?;
    Ok(text)
}

/// A text between quotation marks.
pub(crate) fn quote(alloc: Global, octets: &[u8]) -> Result<Vec<u8>, NoMemory>
    ensures { IfOk result (λ t. t.items ≡ quoted octets.now) }
{
    let mut text = Vec::new(alloc);
    put_all(&mut text, alloc, octets)?;
    mark(alloc, text.as_slice())
}
