//! A clock in memory.
ghost use Rattle.std.specs.Prelude.{◌≡◌, ◌<◌, ◌^◌, [], Some, IfOk};
ghost use Rattle.bsc_edge.specs.Notes.{noted};

use crate::clock::{Clock, GREATEST};
use crate::notes::note;
use bsc_octets::NoMemory;
use std::alloc::Global;

/// A clock that gives these readings, and then the last again; 0 where there are none. A reading below the one before
/// is that one again, and one past the greatest is the greatest. It tells its readings while there is memory for it.
#[derive(Debug, Drop)]
pub struct MemClock<'a> {
    gives: &'a [u64],
    newest: u64,
    readings: Option<Vec<u64>>,
    ghost below: { newest < 2 ^ 62 },
}

impl<'a> MemClock<'a> {
    pub fn new(alloc: Global, gives: &'a [u64]) -> MemClock<'a>
        ensures gives { result.gives.now ≡ gives.now }
        ensures newest { result.newest ≡ 0 }
        ensures readings { noted result.readings ≡ Some [] }
    {
        MemClock {
            gives,
            newest: 0,
            readings: Some(Vec::new(alloc)),
        }
    }

    /// The readings that were given; None where there was no memory to note them.
    pub fn readings(&self) -> Option<&[u64]> {
        match &self.readings {
            Some(readings) => Some(readings.as_slice()),
            None => None,
        }
    }
}

/// The same notes in memory of their own.
fn copied(alloc: Global, readings: &Option<Vec<u64>>) -> Result<Option<Vec<u64>>, NoMemory>
    ensures { IfOk result (λ r. noted r ≡ noted readings.now) }
{
    match readings {
        Some(readings) => Ok(Some(Vec::from_slice(alloc, readings.as_slice())?)),
        None => Ok(None),
    }
}

impl Clock for MemClock<'_> {
    ghost faults = { λ _. 0 };

    ghost newest = { λ c. c.newest };

    ghost readings = { λ c. noted c.readings };

    fn now(&mut self) -> u64 {
        if let [first, rest @ ..] = self.gives {
            let reading = *first;
            self.newest = reading.min(GREATEST).max(self.newest);
            self.gives = rest;
        }
        note(&mut self.readings, Ok(self.newest));
        self.newest
    }

    fn another(&self, alloc: Global) -> Result<Self, NoMemory> {
        let readings = copied(alloc, &self.readings)?;
        Ok(MemClock {
            gives: self.gives,
            newest: self.newest,
            readings,
        })
    }
}
