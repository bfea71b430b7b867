//! Links in memory of their own.
ghost use Rattle.std.specs.Prelude.{◌≡◌, IfErr, IfOk};
ghost use Rattle.bsc_edge.specs.declared.fault.LinkFault.{LinkFault};

use bsc_edge::{Incoming, Link, LinkFault, Settled};
use std::alloc::Global;

/// A link in memory of its own, so that who hands it on moves its place alone: on its way from the door to its session's thread a
/// hub's link is moved a dozen times.
#[derive(Drop)]
pub struct BoxedLink<L> {
    link: Box<L>,
}

impl<L: Drop> BoxedLink<L> {
    /// This link, in memory of its own. Fails where there is none.
    pub(crate) fn new(alloc: Global, link: L) -> Result<BoxedLink<L>, LinkFault>
        ensures link { IfOk result (λ l. l.link.value ≡ link) }
        ensures cause { IfErr result (λ fault. fault ≡ LinkFault.NoMemory) }
    {
        match Box::new(alloc, link) {
            Ok(link) => Ok(BoxedLink { link }),
            Err(_) => Err(LinkFault::NoMemory),
        }
    }
}

impl<L: Link> Link for BoxedLink<L> {
    ghost faults = { λ l. L.faults l.link.value };

    ghost quiets = { λ l. L.quiets l.link.value };

    ghost talk = { λ l. L.talk l.link.value };

    ghost notices = { λ l. L.notices l.link.value };

    fn receive(&mut self, alloc: Global, wait_ms: u32) -> Result<Incoming, LinkFault> {
        self.link.as_mut().receive(alloc, wait_ms)
    }

    fn is_idle(&self) -> bool {
        self.link.is_idle()
    }

    fn settle(&mut self, alloc: Global) -> Settled {
        self.link.as_mut().settle(alloc)
    }

    fn put(&mut self, alloc: Global, m: &[u8]) -> Result<(), LinkFault> {
        self.link.as_mut().put(alloc, m)
    }

    fn close(&mut self, alloc: Global, code: u16, reason: &str) -> Result<(), LinkFault> {
        self.link.as_mut().close(alloc, code, reason)
    }

    fn set_connection(&mut self, conn: u64) {
        self.link.as_mut().set_connection(conn);
    }

    fn wake(&mut self, conn: u64) {
        self.link.as_mut().wake(conn);
    }
}
