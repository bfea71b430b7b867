//! A list of header options, seen by contracts as a list.
ghost use Rattle.std.specs.Prelude.{◌≡◌, ◌==◌, ◌∷◌, ◌++◌, [], OnOk, OnErr, length};

use crate::item::OptionItem;
use bsc_octets::NoMemory;
use std::alloc::Global;
use std::marker::Model;

/// A list of header options. It keeps the allocator that it was made with.
#[derive(Debug, Drop)]
pub struct Options {
    list: Vec<OptionItem>,
}

impl Model for Options {
    ghost use Rattle.std.specs.Prelude.{List};
    ghost use Rattle.bsc_options.specs.declared.item.OptionItem.{OptionItem};

    ghost Value = { List OptionItem };

    ghost view = { λ o. o.list.items };
}

impl Options {
    /// The list of no items. No memory is taken.
    pub fn new(alloc: Global) -> Options
        ensures { result ≡ [] }
    {
        Options {
            list: Vec::new(alloc),
        }
    }

    /// Puts an item at the end.
    pub fn push(&mut self, item: OptionItem) -> Result<(), NoMemory>
        ensures ok { OnOk result (self.new ≡ self.old ++ item ∷ []) }
        ensures err { OnErr result (self.new ≡ self.old) }
    {
        self.list.push(item)?;
        Ok(())
    }

    /// The items, in place.
    pub fn as_slice(&self) -> &[OptionItem]
        ensures { result.now ≡ self.now }
    {
        self.list.as_slice()
    }

    /// How many items there are.
    pub fn len(&self) -> usize
        ensures { result ≡ length self.now }
    {
        self.list.len()
    }

    /// Whether there are none.
    pub fn is_empty(&self) -> bool
        ensures { result ≡ (length self.now == 0) }
    {
        self.list.is_empty()
    }
}
