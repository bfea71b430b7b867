//! Numbers, addresses, devices and names as words.
ghost use Rattle.std.specs.Prelude.{◌≡◌, ◌<◌, ◌==◌, ◌||◌};
ghost use Rattle.bsc_text.specs.Grammar.{number_of, vmac_of_word, maximum_of_word, device_of_word, identity_in, identity_of_words};
ghost use Rattle.bsc_text.specs.Grammar.{is_name, has_leading_zero, is_letter, is_digit};
ghost use Rattle.bsc_text.specs.Words.{words_of};
ghost use Rattle.std.specs.List.{list_all};

use crate::bounds::MAX_NAME_LEN;
use crate::words::next_word;
use bsc_octets::{DeviceId, Identity, Vmac};
use byteorder::{BigEndian, ByteOrder};
use uuid::Uuid;

/// The most digits that a number may have.
const MAX_NUMBER_DIGITS: usize = 19;

/// Whether digits begin with a zero that isn't the only one.
fn has_leading_zero(word: &[u8]) -> bool
    ensures { result ≡ has_leading_zero word.now }
{
    match word {
        [] => true,
        [_] => false,
        [first, ..] => *first == b'0',
    }
}

/// The number that a word is: 1 to 19 decimal digits, with no sign and no leading zero.
pub fn read_number(word: &[u8]) -> Option<u64>
    ensures { result ≡ number_of word.now }
{
    if word.len() > MAX_NUMBER_DIGITS || has_leading_zero(word) {
        return None;
    }
    let mut number: u64 = 0;
    for digit in word {
        if !digit.is_ascii_digit() {
            return None;
        }
        number = number * 10 + u64::from(*digit - b'0');
    }
    Some(number)
}

/// The VMAC that a word is: twelve hexadecimal digits in either case.
pub fn read_vmac(word: &[u8]) -> Option<Vmac>
    ensures { result ≡ vmac_of_word word.now }
{
    let mut octets = [0; 6];
    match hex::decode_to_slice(word, &mut octets) {
        Ok(()) => Some(Vmac(octets)),
        Err(_) => None,
    }
}

/// The maximum length that a word is: four hexadecimal digits in either case.
pub fn read_maximum(word: &[u8]) -> Option<u16>
    ensures { result ≡ maximum_of_word word.now }
{
    let mut octets = [0; 2];
    match hex::decode_to_slice(word, &mut octets) {
        Ok(()) => Some(BigEndian::read_u16(&octets)),
        Err(_) => None,
    }
}

/// The device that a word is: a UUID, in any form that a UUID is written in.
pub fn read_device(word: &[u8]) -> Option<DeviceId>
    ensures { result ≡ device_of_word word.now }
{
    match Uuid::try_parse_ascii(word) {
        Ok(uuid) => Some(DeviceId(uuid)),
        Err(_) => None,
    }
}

/// The identity that four words are: a VMAC, a device, a maximum BVLC length, a maximum NPDU length.
fn identity_in(vmac: &[u8], device: &[u8], max_bvlc: &[u8], max_npdu: &[u8]) -> Option<Identity>
    ensures { result ≡ identity_in (vmac_of_word vmac.now) (device_of_word device.now)
        (maximum_of_word max_bvlc.now) (maximum_of_word max_npdu.now) }
{
    Some(Identity {
        vmac: read_vmac(vmac)?,
        device: read_device(device)?,
        max_bvlc: read_maximum(max_bvlc)?,
        max_npdu: read_maximum(max_npdu)?,
    })
}

/// The identity that the words of a line are: exactly four, as `identity_of_words` says.
pub fn read_identity_words(words: &[u8]) -> Option<Identity>
    ensures { result ≡ identity_of_words (words_of words.now) }
{
    let (vmac, words) = next_word(words)?;
    let (device, words) = next_word(words)?;
    let (max_bvlc, words) = next_word(words)?;
    let (max_npdu, words) = next_word(words)?;
    match next_word(words) {
        None => identity_in(vmac, device, max_bvlc, max_npdu),
        Some(_) => None,
    }
}

/// Whether an octet may stand in a name.
fn is_name_octet(octet: u8) -> bool
    ensures { result ≡ (is_letter octet || is_digit octet || (octet == 95)) }
{
    octet.is_ascii_alphabetic() || octet.is_ascii_digit() || octet == b'_'
}

fn has_name_octets(word: &[u8]) -> bool
    ensures { result ≡ list_all (λ c. is_letter c || is_digit c || (c == 95)) word.now }
{
    word.iter().all(|c| is_name_octet(*c))
}

/// Whether a word is a name: 1 to `MAX_NAME_LEN` letters, digits or `_`, but not `hub`.
pub fn is_name(word: &[u8]) -> bool
    ensures { result ≡ is_name word.now }
{
    !word.is_empty()
        && word.len() <= MAX_NAME_LEN
        && has_name_octets(word)
        && word != b"hub".as_slice()
}
