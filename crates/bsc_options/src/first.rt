//! The item that octets begin with, read in place.
ghost use Rattle.std.specs.Prelude.{◌≡◌, ◌++◌, IfSome, IfNone, is_some};
ghost use Rattle.std.specs.Option.{option_copied};
ghost use Rattle.bsc_options.specs.Spelling.{Fits, data_octets, item_octets};
ghost use Rattle.bsc_options.specs.Walk.{item_of, IsCutItem, IsCutData, FitsData};

use crate::marker::{has_data, has_more, has_must, kind_in};
use byteorder::{BigEndian, ByteOrder};

/// The item that octets begin with. Its data and the octets after it are lent.
#[derive(Clone, Copy)]
pub(crate) struct FirstItem<'a> {
    /// Whether its marker says that another item follows.
    pub(crate) follows: bool,
    pub(crate) must: bool,
    pub(crate) kind: u8,
    pub(crate) content: Option<&'a [u8]>,
    /// The octets after it.
    pub(crate) rest: &'a [u8],
}

/// The data behind a marker, where it says that there are some, and the octets after them. `None` comes where
/// octets of the data are missing.
fn first_data(present: bool, o: &[u8]) -> Option<(Option<&[u8]>, &[u8])>
    ensures present { IfSome result (λ (it, _). is_some (option_copied it) ≡ present) }
    ensures found { IfSome result (λ (it, rest). FitsData (option_copied it)
        × (o.now ≡ data_octets (option_copied it) ++ rest.now)) }
    ensures none { IfNone result (IsCutData present o.now) }
{
    if !present {
        return Some((None, o));
    }
    if o.len() < 2 {
        return None;
    }
    let (length, rest) = o.split_at(2);
    let length = BigEndian::read_u16(length) as usize;
    if rest.len() < length {
        return None;
    }
    let (data, rest) = rest.split_at(length);
    Some((Some(data), rest))
}

/// The item that octets begin with. `None` comes where octets of it are missing.
pub(crate) fn first_item(o: &[u8]) -> Option<FirstItem<'_>>
    ensures found { IfSome result (λ first. Fits (item_of first)
        × (o.now ≡ item_octets first.follows (item_of first) ++ first.rest.now)) }
    ensures none { IfNone result (IsCutItem o.now) }
{
    let (marker, rest) = o.split_first()?;
    let marker = *marker;
    let (content, rest) = first_data(has_data(marker), rest)?;
    Some(FirstItem {
        follows: has_more(marker),
        must: has_must(marker),
        kind: kind_in(marker),
        content,
        rest,
    })
}
