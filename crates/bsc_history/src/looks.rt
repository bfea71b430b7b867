//! What a call found of the outboxes that it looked at.
ghost use Rattle.std.specs.Prelude.{◌≡◌, ◌==◌, length};

use std::marker::Model;

/// How many frames were found taken from the outbox of a connection.
#[derive(Clone, Copy, Debug, PartialEq, Eq)]
pub struct Look {
    pub conn: u64,
    pub taken: u64,
}

/// Looks, in order.
#[derive(Debug, Drop)]
pub struct Looks {
    list: Vec<Look>,
}

impl Model for Looks {
    ghost use Rattle.std.specs.Prelude.{List};
    ghost use Rattle.bsc_history.specs.declared.looks.Look.{Look};

    ghost Value = { List Look };

    ghost view = { λ o. o.list.items };
}

impl Looks {
    /// The looks of `list`. No memory is taken.
    pub fn from_vec(list: Vec<Look>) -> Looks
        ensures { result ≡ list.items }
    {
        Looks { list }
    }

    /// The vector that the looks stand in. No memory is taken.
    pub fn into_vec(self) -> Vec<Look>
        ensures { result.items ≡ self }
    {
        let Looks { list } = self;
        list
    }

    /// The looks, in order.
    pub fn as_slice(&self) -> &[Look]
        ensures { result.now ≡ self.now }
    {
        self.list.as_slice()
    }

    /// How many looks there are.
    pub fn len(&self) -> usize
        ensures { result ≡ length self.now }
    {
        self.list.len()
    }

    /// Whether there are none.
    pub fn is_empty(&self) -> bool
        ensures { result ≡ (length self.now == 0) }
    {
        self.list.is_empty()
    }
}
