//! Fields of lines, put at the end of a text.
ghost use Rattle.std.specs.Prelude.{◌≡◌, ◌++◌, ◌<◌, IfOk, decimal};
ghost use Rattle.uuid.specs.Text.{hyphenated_text, lower};
ghost use Rattle.bsc_log.specs.Fields.{asker_text, connection_text, digit, digits_of, peer_text};

use bsc_lines::{put_number, put_words};
use bsc_octets::{DeviceId, Identity, NoMemory, Vmac};

/// Puts the number of a connection, or a hyphen.
pub(crate) fn put_connection(text: &mut Vec<u8>, conn: Option<u64>) -> Result<(), NoMemory>
    ensures { IfOk result (λ _. text.new.items ≡ text.old.items ++ connection_text conn) }
{
    match conn {
        Some(conn) => put_number(text, conn),
        None => put_words(text, "-"),
    }
}

/// A hexadecimal digit.
fn digit(n: u8) -> u8
    requires { n < 16 }
    ensures { result ≡ digit n }
{
    if n < 10 { b'0' + n } else { b'A' + (n - 10) }
}

/// The twelve digits of a VMAC.
fn digits_of(vmac: Vmac) -> [u8; 12]
    ensures { result ≡ digits_of vmac.0 }
{
    let [a, b, c, d, e, g] = vmac.0;
    [
        digit(a / 16),
        digit(a % 16),
        digit(b / 16),
        digit(b % 16),
        digit(c / 16),
        digit(c % 16),
        digit(d / 16),
        digit(d % 16),
        digit(e / 16),
        digit(e % 16),
        digit(g / 16),
        digit(g % 16),
    ]
}

/// Puts a VMAC.
fn put_address(text: &mut Vec<u8>, vmac: Vmac) -> Result<(), NoMemory>
    ensures { IfOk result (λ _. text.new.items ≡ text.old.items ++ digits_of vmac.0) }
{
    text.extend_from_slice(&digits_of(vmac))?;
    Ok(())
}

/// Puts a Device UUID.
fn put_device(text: &mut Vec<u8>, device: DeviceId) -> Result<(), NoMemory>
    ensures { IfOk result (λ _. text.new.items ≡ text.old.items ++ hyphenated_text lower device.0) }
{
    let mut room = [0; 36];
    put_words(text, device.0.hyphenated().encode_lower(&mut room))
}

/// Puts who asked to join.
fn put_asker(text: &mut Vec<u8>, who: &Identity) -> Result<(), NoMemory>
    ensures { IfOk result (λ _. text.new.items ≡ text.old.items ++ asker_text who.now) }
{
    put_words(text, " vmac ")?;
    put_address(text, who.vmac)?;
    put_words(text, " device ")?;
    put_device(text, who.device)
}

/// Puts who asked to join, or hyphens.
pub(crate) fn put_peer(text: &mut Vec<u8>, who: &Option<Identity>) -> Result<(), NoMemory>
    ensures { IfOk result (λ _. text.new.items ≡ text.old.items ++ peer_text who.now) }
{
    match who {
        Some(who) => put_asker(text, who),
        None => put_words(text, " vmac - device -"),
    }
}

/// Puts a word and a number behind it.
pub(crate) fn put_field(text: &mut Vec<u8>, word: &str, n: u64) -> Result<(), NoMemory>
    ensures { IfOk result (λ _. text.new.items ≡ text.old.items ++ (word.now ++ decimal n)) }
{
    put_words(text, word)?;
    put_number(text, n)
}
