//! Numbers of connections.
ghost use Rattle.std.specs.Prelude.{◌≡◌, ◌==◌, length};

use std::marker::Model;

/// Numbers of connections, in order.
#[derive(Debug, Drop)]
pub struct Conns {
    list: Vec<u64>,
}

impl Model for Conns {
    ghost use Rattle.std.specs.Prelude.{List, ℕ};

    ghost Value = { List ℕ };

    ghost view = { λ o. o.list.items };
}

impl Conns {
    /// The numbers of `list`. No memory is taken.
    pub fn from_vec(list: Vec<u64>) -> Conns
        ensures { result ≡ list.items }
    {
        Conns { list }
    }

    /// The vector that the numbers stand in. No memory is taken.
    pub fn into_vec(self) -> Vec<u64>
        ensures { result.items ≡ self }
    {
        let Conns { list } = self;
        list
    }

    /// The numbers, in order.
    pub fn as_slice(&self) -> &[u64]
        ensures { result.now ≡ self.now }
    {
        self.list.as_slice()
    }

    /// How many numbers there are.
    pub fn len(&self) -> usize
        ensures { result ≡ length self.now }
    {
        self.list.len()
    }

    /// Whether there are none.
    pub fn is_empty(&self) -> bool
        ensures { result ≡ (length self.now == 0) }
    {
        self.list.is_empty()
    }
}
