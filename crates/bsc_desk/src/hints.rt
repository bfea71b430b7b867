//! Where the holders of addresses were found last.
#![tactic(auto)]

use bsc_octets::{NoMemory, Vmac};
use std::alloc::Global;
use std::marker::Model;

/// How many hints there are.
const HINTS: usize = 4096;

/// Where the holders of addresses were found last: the place of a row for each end of an address, which is its
/// low 12 bits. A hint may be wrong, since rows move up and addresses may end alike: who asks looks at the row.
#[derive(Drop)]
pub struct Hints {
    places: Vec<u16>,
}

// Contracts see nothing of the hints, which keeps the proofs of callers small.
impl Model for Hints {
    ghost use Rattle.std.specs.Prelude.{⊤};

    ghost Value = { ⊤ };

    ghost view = { λ _. tt };
}

/// The end of an address.
fn end_of(v: Vmac) -> usize {
    let [_, _, _, _, high, low] = v.0;
    usize::from(high % 16) * 256 + usize::from(low)
}

impl Hints {
    /// Hints at the first row. They take 8,192 octets.
    pub(crate) fn make(alloc: Global) -> Result<Hints, NoMemory> {
        Ok(Hints {
            places: vec![in alloc; 0u16; HINTS]?,
        })
    }

    /// Where the holder of an address may be.
    pub(crate) fn place(&self, v: Vmac) -> usize {
        match self.places.get(end_of(v)) {
            Some(place) => usize::from(*place),
            None => 0,
        }
    }

    /// Keeps where the holder of an address was found.
    pub(crate) fn keep(&mut self, v: Vmac, found: Option<usize>) {
        if let Some(place) = found {
            if let Some(hint) = self.places.get_mut(end_of(v)) {
                *hint = u16::try_from(place).unwrap_or(0);
            }
        }
    }
}
