//! The journals and the clock with which a hub is served. Their types name no lifetime, since closures start their sessions.
ghost use Rattle.std.specs.Prelude.{None, ⊤};

use bsc_edge::{Clock, Journals, LinkFault};
use bsc_octets::NoMemory;
use bsc_outside::{Failed, Sink};
use std::alloc::Global;

/// A journal that keeps what it is given, or takes nothing.
#[derive(Drop)]
pub struct KeptJournal {
    pub octets: Vec<u8>,
    pub is_full: bool,
    pub faults: u64,
}

impl Sink for KeptJournal {
    ghost faults = { λ j. j.faults };

    ghost held = { λ _. None };

    fn write(&mut self, from: &[u8]) -> Result<(), Failed> {
        if self.is_full || self.octets.extend_from_slice(from).is_err() {
            self.faults = self.faults.saturating_add(1);
            return Err(Failed);
        }
        Ok(())
    }
}

/// Begins journals, but for one: that of the call with this number, counted from 1.
#[derive(Drop)]
pub struct KeptJournals {
    pub failing: u64,
    pub begun: u64,
    pub faults: u64,
}

impl Journals<KeptJournal> for KeptJournals {
    ghost faults = { λ j. j.faults };

    ghost begins = { λ _ _ _. ⊤ };

    fn begin(
        &mut self,
        alloc: Global,
        _prefix: Option<&str>,
        _number: u64,
    ) -> Result<KeptJournal, LinkFault> {
        self.begun = self.begun.saturating_add(1);
        if self.begun == self.failing {
            self.faults = self.faults.saturating_add(1);
            return Err(LinkFault::Failed);
        }
        Ok(KeptJournal {
            octets: Vec::new(alloc),
            is_full: false,
            faults: 0,
        })
    }

    fn count_lost(&mut self) -> bool {
        false
    }

    fn set_limit(&mut self, _octets: u64) {}
}

/// A clock that stands still.
#[derive(Clone, Copy, Drop)]
pub struct Still;

impl Clock for Still {
    ghost faults = { λ _. 0 };

    ghost newest = { λ _. 0 };

    ghost readings = { λ _. None };

    fn now(&mut self) -> u64 {
        0
    }

    fn another(&self, _alloc: Global) -> Result<Still, NoMemory> {
        Ok(Still)
    }
}
