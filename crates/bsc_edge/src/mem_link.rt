//! A link in memory, of which some calls fail.
ghost use Rattle.std.specs.Prelude.{◌≡◌, ◌≤◌, ◌↔◌, true, [], ◌∷◌, Err, IsErr, IfOk, Ok, Some, drop};
ghost use Rattle.bsc_edge.specs.MemLink.{first_given};
ghost use Rattle.bsc_edge.specs.declared.fault.LinkFault.{LinkFault};
ghost use Rattle.bsc_edge.specs.declared.said.Said.{Said};
ghost use Rattle.bsc_edge.specs.Notes.{noted};
ghost use Rattle.bsc_edge.specs.Told.{Grows, IsQuiet, fault_in};
ghost use Rattle.bsc_outside.specs.Faults.{HasRisen};
ghost use Rattle.bsc_outside.specs.Calls.{next_call, is_next_failing};

use crate::calls::Calls;
use crate::fault::LinkFault;
use crate::incoming::Incoming;
use crate::link::Link;
use crate::notes::note;
use crate::said::Said;
use bsc_octets::{NoMemory, Octets};
use std::alloc::Global;
use std::collections::VecDeque;

/// A link that gives what it was made with, and then Closed. The calls with these numbers fail, receives, puts and
/// closings counted together. It tells its talk while there is memory for it.
#[derive(Debug, Drop)]
pub struct MemLink<'a> {
    gives: VecDeque<Incoming>,
    calls: Calls<'a>,
    quiets: u64,
    talk: Option<Vec<Said>>,
}

impl<'a> MemLink<'a> {
    pub fn new(alloc: Global, gives: Vec<Incoming>, failing: &'a [u64]) -> MemLink<'a>
        ensures gives { result.gives.items ≡ gives.items }
        ensures failing { result.calls.failing.now ≡ failing.now }
        ensures made { result.calls.made ≡ 0 }
        ensures talk { noted result.talk ≡ Some [] }
    {
        MemLink {
            gives: VecDeque::from(gives),
            calls: Calls::of(failing),
            quiets: 0,
            talk: Some(Vec::new(alloc)),
        }
    }

    /// What was said; None where there was no memory to note it.
    pub fn talk(&self) -> Option<&[Said]> {
        match &self.talk {
            Some(talk) => Some(talk.as_slice()),
            None => None,
        }
    }

    /// The next thing.
    fn give(&mut self) -> Incoming
        ensures talk { self.new.talk ≡ self.old.talk }
        ensures calls { self.new.calls ≡ self.old.calls }
        ensures quiets { self.old.quiets ≤ self.new.quiets }
        ensures quiet { IsQuiet (Ok result) → HasRisen self.old.quiets self.new.quiets }
        ensures given { result ≡ first_given self.old.gives.items }
        ensures left { self.new.gives.items ≡ drop 1 self.old.gives.items }
    {
        let given = self.gives.pop_front().unwrap_or(Incoming::Closed);
        if let Incoming::Quiet = &given {
            self.quiets = self.quiets.saturating_add(1);
        }
        given
    }
}

/// Octets in memory of their own.
fn octets_of(alloc: Global, m: &[u8]) -> Result<Octets, NoMemory>
    ensures { IfOk result (λ o. o ≡ m.now) }
{
    Ok(Octets::from_vec(Vec::from_slice(alloc, m)?))
}

/// The same thing in memory of its own.
fn copied(alloc: Global, given: &Incoming) -> Result<Incoming, NoMemory>
    ensures { IfOk result (λ g. g ≡ given.now) }
{
    match given {
        Incoming::Message(m) => Ok(Incoming::Message(m.copy(alloc)?)),
        Incoming::Text => Ok(Incoming::Text),
        Incoming::Quiet => Ok(Incoming::Quiet),
        Incoming::Closed => Ok(Incoming::Closed),
    }
}

/// What is noted of a thing given, after this wait.
fn said_given(alloc: Global, wait_ms: u32, given: &Incoming) -> Result<Said, NoMemory>
    ensures { IfOk result (λ s. s ≡ Said.Gave wait_ms (Ok given.now)) }
{
    Ok(Said::Gave(wait_ms, Ok(copied(alloc, given)?)))
}

/// What is noted of a put.
fn said_put(alloc: Global, m: &[u8], fault: Option<LinkFault>) -> Result<Said, NoMemory>
    ensures { IfOk result (λ s. s ≡ Said.Put m.now fault) }
{
    Ok(Said::Put(octets_of(alloc, m)?, fault))
}

/// What is noted of a closing.
fn said_closed(alloc: Global, code: u16, reason: &str) -> Result<Said, NoMemory>
    ensures { IfOk result (λ s. s ≡ Said.Closed code reason.now) }
{
    Ok(Said::Closed(code, octets_of(alloc, reason.as_bytes())?))
}

impl Link for MemLink<'_> {
    ghost faults = { λ l. l.calls.faults };

    ghost quiets = { λ l. l.quiets };

    ghost talk = { λ l. noted l.talk };

    fn receive(&mut self, alloc: Global, wait_ms: u32) -> Result<Incoming, LinkFault> {
        if self.calls.fails() {
            note(
                &mut self.talk,
                Ok(Said::Gave(wait_ms, Err(LinkFault::Failed))),
            );
            return Err(LinkFault::Failed);
        }
        let given = self.give();
        note(&mut self.talk, said_given(alloc, wait_ms, &given));
        Ok(given)
    }

    fn put(&mut self, alloc: Global, m: &[u8]) -> Result<(), LinkFault> {
        if self.calls.fails() {
            note(&mut self.talk, said_put(alloc, m, Some(LinkFault::Failed)));
            return Err(LinkFault::Failed);
        }
        note(&mut self.talk, said_put(alloc, m, None));
        Ok(())
    }

    fn close(&mut self, alloc: Global, code: u16, reason: &str) -> Result<(), LinkFault> {
        let fails = self.calls.fails();
        note(&mut self.talk, said_closed(alloc, code, reason));
        if fails {
            return Err(LinkFault::Failed);
        }
        Ok(())
    }

    fn set_connection(&mut self, _conn: u64) {}

    fn wake(&mut self, _conn: u64) {}
}
