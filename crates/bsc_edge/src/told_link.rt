//! A link that tells its talk.
ghost use Rattle.std.specs.Prelude.{◌≡◌, ◌≤◌, [], Err, Some};
ghost use Rattle.bsc_edge.specs.Told.{IsQuiet};
ghost use Rattle.bsc_edge.specs.declared.fault.LinkFault.{LinkFault as FaultType};
ghost use Rattle.bsc_outside.specs.Faults.{HasRisen};

use crate::fault::LinkFault;
use crate::incoming::Incoming;
use crate::link::Link;
use crate::notice::Notice;
use crate::said::Said;
use crate::saying::Saying;
use crate::settled::Settled;
use bsc_past::Past;
use std::alloc::Global;

/// A link over another, whose talk it tells to contracts: what each call was given, and what it answered; and whose connection
/// it was said to be, and whom it was asked to wake, between which receives. It takes no memory of its own, and does nothing more than
/// the link under it. A receive that doesn't wait gives nothing, and asks that link nothing, where that knows that it is idle.
#[derive(Drop)]
pub struct ToldLink<L> {
    link: L,
    quiets: u64,
    talk: Past<Said>,
    notices: Past<Notice>,
}

impl<L> ToldLink<L> {
    /// A link over this one. Nothing was said yet.
    pub fn new(link: L) -> ToldLink<L>
        ensures link { result.link ≡ link }
        ensures quiets { result.quiets ≡ 0 }
        ensures talk { result.talk.items ≡ [] }
        ensures notices { result.notices.items ≡ [] }
    {
        ToldLink {
            link,
            quiets: 0,
            talk: Past::new(),
            notices: Past::new(),
        }
    }
}

impl<L: Link> ToldLink<L> {
    /// What the link under it gives; or nothing at once, where that link is idle and isn't to wait.
    fn give(&mut self, alloc: Global, wait_ms: u32) -> Result<Incoming, LinkFault>
        ensures talk { self.new.talk ≡ self.old.talk }
        ensures notices { self.new.notices ≡ self.old.notices }
        ensures quiets { self.new.quiets ≡ self.old.quiets }
        ensures later { L.faults self.old.link ≤ L.faults self.new.link }
        ensures failed { result ≡ Err FaultType.Failed → HasRisen (L.faults self.old.link) (L.faults self.new.link) }
    {
        if wait_ms == 0 && self.link.is_idle() {
            return Ok(Incoming::Quiet);
        }
        self.link.receive(alloc, wait_ms)
    }

    /// Counts a receive that gave nothing.
    fn count(&mut self, answer: &Result<Incoming, LinkFault>)
        ensures link { self.new.link ≡ self.old.link }
        ensures talk { self.new.talk ≡ self.old.talk }
        ensures notices { self.new.notices ≡ self.old.notices }
        ensures quiets { self.old.quiets ≤ self.new.quiets }
        ensures quiet { IsQuiet answer.now → HasRisen self.old.quiets self.new.quiets }
    {
        if let Ok(Incoming::Quiet) = answer {
            self.quiets = self.quiets.saturating_add(1);
        }
    }
}

impl<L: Link> Link for ToldLink<L> {
    ghost faults = { λ l. L.faults l.link };

    ghost quiets = { λ l. l.quiets };

    ghost talk = { λ l. Some l.talk.items };

    ghost notices = { λ l. Some l.notices.items };

    fn receive(&mut self, alloc: Global, wait_ms: u32) -> Result<Incoming, LinkFault> {
        let answer = self.give(alloc, wait_ms);
        self.count(&answer);
        self.talk.note(&Saying::Gave(wait_ms, &answer));
        self.notices.add(&Notice::Asked);
        answer
    }

    fn is_idle(&self) -> bool {
        self.link.is_idle()
    }

    fn settle(&mut self, alloc: Global) -> Settled {
        self.link.settle(alloc)
    }

    fn put(&mut self, alloc: Global, m: &[u8]) -> Result<(), LinkFault> {
        let answer = self.link.put(alloc, m);
        self.talk.note(&Saying::Put(m, &answer));
        answer
    }

    fn close(&mut self, alloc: Global, code: u16, reason: &str) -> Result<(), LinkFault> {
        let answer = self.link.close(alloc, code, reason);
        self.talk.note(&Saying::Closed(code, reason));
        answer
    }

    fn set_connection(&mut self, conn: u64) {
        self.link.set_connection(conn);
        self.notices.add(&Notice::Known(conn));
    }

    fn wake(&mut self, conn: u64) {
        self.link.wake(conn);
        self.notices.add(&Notice::Woke(conn));
    }
}
