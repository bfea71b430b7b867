//! Which header option is not understood.
ghost use Rattle.std.specs.Prelude.{◌≡◌, ◌/◌, ◌%◌, ◌==◌, ◌≤◌, ◌++◌, ◌&&◌, not, ℕ, Bool, List, length};
ghost use Rattle.std.specs.List.{AllByRecursion};
ghost use Rattle.bsc_options.specs.declared.item.OptionItem.{OptionItem};
ghost use Rattle.bsc_options.specs.Spelling.{Fits, data_octets, marker_of, spelling_of};
ghost use Rattle.bsc_checks.specs.Walk.{marker_refused};

use bsc_options::{SECURE_PATH, has_data, has_must, kind_in};
use byteorder::{BigEndian, ByteOrder};

/// Whether the option with this marker has to be understood and is not: Secure Path alone is understood.
fn is_refused(marker: u8) -> bool
    ensures { result ≡ ((marker / 64 % 2 == 1) && not (marker % 32 == 1)) }
{
    has_must(marker) && kind_in(marker) != SECURE_PATH
}

/// How many octets the data behind a marker have, with those of their length.
fn data_length(marker: u8, rest: &[u8]) -> usize
    ensures { (item : OptionItem) (follows : Bool) (next : List ℕ) → Fits item → marker ≡ marker_of follows item
        → rest.now ≡ data_octets item.content ++ next → result ≡ length (data_octets item.content) }
{
    if !has_data(marker) || rest.len() < 2 {
        return 0;
    }
    2 + usize::from(BigEndian::read_u16(rest))
}

/// The octets behind those data.
fn behind_data(marker: u8, rest: &[u8]) -> &[u8]
    ensures next { (item : OptionItem) (follows : Bool) (next : List ℕ) → Fits item → marker ≡ marker_of follows item
        → rest.now ≡ data_octets item.content ++ next → result.now ≡ next }
    ensures within { length result.now ≤ length rest.now }
{
    let length = data_length(marker, rest);
    if rest.len() < length {
        return &rest[..0];
    }
    &rest[length..]
}

/// The marker of the first option of a list that has to be understood and is not, of a list that is whole.
pub(crate) fn first_not_understood(list: &[u8]) -> Option<u8>
    ensures { (items : List OptionItem) → AllByRecursion Fits items → list.now ≡ spelling_of items
        → result ≡ marker_refused items }
{
    let mut rest = list;
    while let Some((marker, data)) = rest.split_first() {
        if is_refused(*marker) {
            return Some(*marker);
        }
        rest = behind_data(*marker, data);
    }
    None
}
