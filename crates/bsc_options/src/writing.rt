//! From a list of header options to octets.
ghost use Rattle.std.specs.Prelude.{◌≡◌, ◌++◌, IfOk, OnOk};
ghost use Rattle.bsc_options.specs.Spelling.{Fits, AreOptions, SpellsOptions, item_octets};

use crate::item::OptionItem;
use crate::marker::marker_of;
use crate::options::Options;
use bsc_octets::{NoMemory, Octets};
use byteorder::{BigEndian, ByteOrder};
use std::alloc::Global;

/// Puts the octets of an item at the end.
fn put_item(out: &mut Vec<u8>, item: &OptionItem, follows: bool) -> Result<(), NoMemory>
    requires { Fits item.now }
    ensures { OnOk result (out.new.items ≡ out.old.items ++ item_octets follows item.now) }
{
    out.push(marker_of(item, follows))?;
    if let Some(data) = &item.content {
        let mut length = [0u8; 2];
        BigEndian::write_u16(&mut length, data.len() as u16);
        out.extend_from_slice(&length)?;
        out.extend_from_slice(data.as_slice())?;
    }
    Ok(())
}

/// The octets of a list. It has an item at least, and each item has a shape: its type is 1 to 31, and it has
/// the data of its type, at most 65,535 octets. A list has no other octets.
pub fn write_options(alloc: Global, list: &Options) -> Result<Octets, NoMemory>
    requires { AreOptions list.now }
    ensures { IfOk result (λ o. SpellsOptions list.now o) }
{
    let mut out = Vec::new(alloc);
    let last = list.len() - 1;
    for (i, item) in list.as_slice().iter().enumerate() {
        put_item(&mut out, item, i < last)?;
    }
    Ok(Octets::from_vec(out))
}
