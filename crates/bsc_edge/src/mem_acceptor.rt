//! Links in memory that arrive.
ghost use Rattle.std.specs.Prelude.{◌≡◌, ◌≤◌, true, [], None, Some};
ghost use Rattle.std.proofs.Common.{refl};
ghost use Rattle.bsc_edge.specs.Notes.{noted};

use crate::Failed;
use crate::acceptor::Acceptor;
use crate::arrived::Arrived;
use crate::calls::Calls;
use crate::fault::LinkFault;
use crate::notes::note;
use bsc_octets::Vmac;
use bsc_past::Past;
use std::alloc::Global;
use std::collections::VecDeque;

/// An acceptor at which these links arrive, and then none. The calls with these numbers fail. It tells the waits that it was
/// asked for while there is memory for it. Links in memory wait for nothing, so it wakes none; it tells contracts with which Stops it
/// was to.
#[derive(Drop)]
pub struct MemAcceptor<'a, L> {
    links: VecDeque<L>,
    calls: Calls<'a>,
    quiets: u64,
    bound: Option<u16>,
    waits: Option<Vec<u32>>,
    stops: Past<u64>,
}

impl<'a, L> MemAcceptor<'a, L> {
    pub fn new(alloc: Global, links: Vec<L>, failing: &'a [u64]) -> MemAcceptor<'a, L>
        ensures links { result.links.items ≡ links.items }
        ensures failing { result.calls.failing.now ≡ failing.now }
        ensures bound { result.bound ≡ None }
        ensures waits { noted result.waits ≡ Some [] }
        ensures stops { result.stops.items ≡ [] }
    {
        MemAcceptor {
            links: VecDeque::from(links),
            calls: Calls::of(failing),
            quiets: 0,
            bound: None,
            waits: Some(Vec::new(alloc)),
            stops: Past::new(),
        }
    }

    /// The port that it is bound to.
    pub fn bound(&self) -> Option<u16>
        ensures { result ≡ self.now.bound }
    {
        self.bound
    }

    /// The waits that it was asked for; None where there was no memory to note them.
    pub fn waits(&self) -> Option<&[u32]> {
        match &self.waits {
            Some(waits) => Some(waits.as_slice()),
            None => None,
        }
    }

    /// How many links haven't arrived yet.
    pub fn left(&self) -> usize {
        self.links.len()
    }
}

impl<L> Acceptor<L> for MemAcceptor<'_, L> {
    ghost faults = { λ a. a.calls.faults };

    ghost quiets = { λ a. a.quiets };

    ghost bound = { λ a. Some a.bound };

    ghost left = { λ a. Some a.links.items };

    ghost came_fresh = { λ _. refl };

    ghost waits = { λ a. noted a.waits };

    ghost stops = { λ a. Some a.stops.items };

    fn bind(&mut self, port: u16, _owner: Vmac) -> Result<(), Failed> {
        if self.calls.fails() {
            return Err(Failed);
        }
        self.bound = Some(port);
        Ok(())
    }

    fn next(&mut self, _alloc: Global, wait_ms: u32) -> Result<Arrived<L>, LinkFault> {
        note(&mut self.waits, Ok(wait_ms));
        if self.calls.fails() {
            return Err(LinkFault::Failed);
        }
        match self.links.pop_front() {
            Some(link) => Ok(Arrived::Link(link)),
            None => {
                self.quiets = self.quiets.saturating_add(1);
                Ok(Arrived::Quiet)
            }
        }
    }

    fn wake_all(&mut self, at: u64) {
        self.stops.add(&at);
    }
}
