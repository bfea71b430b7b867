//! Octets that own their memory, seen by contracts as a list.
ghost use Rattle.std.specs.Prelude.{◌≡◌, ◌==◌, IfOk, length};

use crate::no_memory::NoMemory;
use std::alloc::Global;
use std::marker::Model;

/// A run of octets that owns its memory.
#[derive(Debug, Drop)]
pub struct Octets {
    bytes: Vec<u8>,
}

impl Model for Octets {
    ghost use Rattle.std.specs.Prelude.{List, ℕ};

    ghost Value = { List ℕ };

    ghost view = { λ o. o.bytes.items };
}

impl Octets {
    /// The octets of `v`. No memory is taken.
    pub fn from_vec(v: Vec<u8>) -> Octets
        ensures { result ≡ v.items }
    {
        Octets { bytes: v }
    }

    /// The vector that the octets stand in. No memory is taken.
    pub fn into_vec(self) -> Vec<u8>
        ensures { result.items ≡ self }
    {
        self.bytes
    }

    /// The octets, in place.
    pub fn as_slice(&self) -> &[u8]
        ensures { result.now ≡ self.now }
    {
        self.bytes.as_slice()
    }

    /// How many octets there are.
    pub fn len(&self) -> usize
        ensures { result ≡ length self.now }
    {
        self.bytes.len()
    }

    /// Whether there are none.
    pub fn is_empty(&self) -> bool
        ensures { result ≡ (length self.now == 0) }
    {
        self.bytes.is_empty()
    }

    /// The same octets in memory of their own.
    pub fn copy(&self, alloc: Global) -> Result<Octets, NoMemory>
        ensures { IfOk result (λ o. o ≡ self.now) }
    {
        Ok(Octets {
            bytes: Vec::from_slice(alloc, self.bytes.as_slice())?,
        })
    }
}
