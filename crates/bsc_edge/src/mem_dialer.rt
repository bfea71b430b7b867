//! A dialer in memory, of which some calls fail.
ghost use Rattle.std.specs.Prelude.{◌≡◌, [], Some, IfOk};
ghost use Rattle.std.proofs.Common.{refl};
ghost use Rattle.bsc_edge.specs.Notes.{noted};

use crate::calls::Calls;
use crate::dialer::Dialer;
use crate::dialled::Dialled;
use crate::fault::LinkFault;
use crate::kind::Kind;
use crate::notes::note;
use bsc_octets::{NoMemory, Octets};
use std::alloc::Global;
use std::collections::VecDeque;

/// A dialer that gives these links, and then fails. The calls with these numbers fail. It tells its calls while there is
/// memory for it.
#[derive(Debug, Drop)]
pub struct MemDialer<'a, L> {
    links: VecDeque<L>,
    calls: Calls<'a>,
    dialled: Option<Vec<Dialled>>,
}

impl<'a, L> MemDialer<'a, L> {
    pub fn new(alloc: Global, links: Vec<L>, failing: &'a [u64]) -> MemDialer<'a, L>
        ensures links { result.links.items ≡ links.items }
        ensures failing { result.calls.failing.now ≡ failing.now }
        ensures made { result.calls.made ≡ 0 }
        ensures dialled { noted result.dialled ≡ Some [] }
    {
        MemDialer {
            links: VecDeque::from(links),
            calls: Calls::of(failing),
            dialled: Some(Vec::new(alloc)),
        }
    }

    /// What it was asked for; None where there was no memory to note it.
    pub fn dialled(&self) -> Option<&[Dialled]> {
        match &self.dialled {
            Some(dialled) => Some(dialled.as_slice()),
            None => None,
        }
    }

    /// How many links it has left.
    pub fn left(&self) -> usize {
        self.links.len()
    }
}

/// A call of a dialer, in memory of its own.
fn call_of(alloc: Global, uri: &[u8], kind: Kind, came: bool) -> Result<Dialled, NoMemory>
    ensures uri { IfOk result (λ d. d.uri ≡ uri.now) }
    ensures kind { IfOk result (λ d. d.kind ≡ kind) }
    ensures came { IfOk result (λ d. d.came ≡ came) }
{
    Ok(Dialled {
        uri: Octets::from_vec(Vec::from_slice(alloc, uri)?),
        kind,
        came,
    })
}

impl<L> Dialer<L> for MemDialer<'_, L> {
    ghost faults = { λ d. d.calls.faults };

    ghost calls = { λ d. noted d.dialled };

    ghost left = { λ d. Some d.links.items };

    ghost came_fresh = { λ _. refl };

    fn dial(&mut self, alloc: Global, uri: &[u8], kind: Kind) -> Result<L, LinkFault> {
        if self.calls.fails() {
            note(&mut self.dialled, call_of(alloc, uri, kind, false));
            return Err(LinkFault::Failed);
        }
        match self.links.pop_front() {
            Some(link) => {
                note(&mut self.dialled, call_of(alloc, uri, kind, true));
                Ok(link)
            }
            None => {
                self.calls.fault();
                note(&mut self.dialled, call_of(alloc, uri, kind, false));
                Err(LinkFault::Failed)
            }
        }
    }
}
