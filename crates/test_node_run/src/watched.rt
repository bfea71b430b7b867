//! An outside of which is noted what is done.
ghost use Rattle.std.proofs.Common.{refl};

use crate::play_log::{Deed, PlayLog};
use bsc_edge::{Clock, Dialer, Incoming, Kind, Link, LinkFault};
use bsc_octets::NoMemory;
use std::alloc::Global;
use std::rc::Rc;

/// Does what another does, and notes what it is asked to do.
#[derive(Drop)]
pub struct Watched<T> {
    pub name: &'static str,
    pub inner: T,
    pub log: Rc<PlayLog>,
}

impl<C: Clock> Clock for Watched<C> {
    ghost faults = { λ c. C.faults c.inner };

    ghost newest = { λ c. C.newest c.inner };

    ghost readings = { λ c. C.readings c.inner };

    fn now(&mut self) -> u64 {
        let now = self.inner.now();
        self.log.now.set(now);
        now
    }

    fn another(&self, alloc: Global) -> Result<Self, NoMemory> {
        let log = self.log.clone()?;
        let inner = self.inner.another(alloc)?;
        Ok(Watched {
            name: self.name,
            inner,
            log,
        })
    }
}

impl<L: Link> Link for Watched<L> {
    ghost faults = { λ l. L.faults l.inner };

    ghost quiets = { λ l. L.quiets l.inner };

    ghost talk = { λ l. L.talk l.inner };

    fn receive(&mut self, alloc: Global, wait_ms: u32) -> Result<Incoming, LinkFault> {
        self.inner.receive(alloc, wait_ms)
    }

    fn put(&mut self, alloc: Global, m: &[u8]) -> Result<(), LinkFault> {
        self.log.note(Deed::Put(self.name, m));
        self.inner.put(alloc, m)
    }

    fn close(&mut self, alloc: Global, code: u16, reason: &str) -> Result<(), LinkFault> {
        self.log.note(Deed::Close(self.name, code, reason));
        self.inner.close(alloc, code, reason)
    }

    fn set_connection(&mut self, conn: u64) {
        self.inner.set_connection(conn);
    }

    fn wake(&mut self, conn: u64) {
        self.inner.wake(conn);
    }
}

impl<L, D: Dialer<L>> Dialer<L> for Watched<D> {
    ghost faults = { λ d. D.faults d.inner };

    ghost calls = { λ d. D.calls d.inner };

    ghost left = { λ d. D.left d.inner };

    ghost came_fresh = { λ _. refl };

    fn dial(&mut self, alloc: Global, uri: &[u8], kind: Kind) -> Result<L, LinkFault> {
        self.log.note(Deed::Dial(kind, uri));
        self.inner.dial(alloc, uri, kind)
    }
}
