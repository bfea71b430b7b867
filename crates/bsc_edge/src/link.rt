//! Links: WebSockets as a session sees them.
ghost use Rattle.std.specs.Prelude.{◌≡◌, ◌≤◌, [], ◌∷◌, Err};
ghost use Rattle.bsc_edge.specs.declared.fault.LinkFault.{LinkFault};
ghost use Rattle.bsc_edge.specs.declared.said.Said.{Said};
ghost use Rattle.bsc_edge.specs.declared.settled.Settled.{Settled as SettledType};
ghost use Rattle.bsc_edge.specs.declared.notice.Notice.{Notice};
ghost use Rattle.bsc_edge.specs.Told.{Grows, Stays, IsQuiet, fault_in};
ghost use Rattle.bsc_outside.specs.Faults.{HasRisen};

use crate::fault::LinkFault;
use crate::incoming::Incoming;
use crate::settled::Settled;
use std::alloc::Global;

/// A link to a peer. Its meaning is its talk: one list in the order of the calls.
pub trait Link {
    ghost use Rattle.std.specs.Prelude.{List, ℕ, None, Option};
    ghost use Rattle.bsc_edge.specs.declared.notice.Notice.{Notice as NoticeType};
    ghost use Rattle.bsc_edge.specs.declared.said.Said.{Said as SaidType};

    /// How many calls failed, up to the greatest `u64`.
    ghost faults: { Self → ℕ };

    /// How many receives gave nothing, up to the greatest `u64`.
    ghost quiets: { Self → ℕ };

    /// What was said, where the link tells it.
    ghost talk: { Self → Option (List SaidType) };

    /// Whose connection it was said to be, whom it was asked to wake, and each receive, in order, where the link tells it.
    ghost notices: { Self → Option (List NoticeType) } = { λ _. None };

    /// Waits this long for the next thing, in milliseconds.
    fn receive(&mut self, alloc: Global, wait_ms: u32) -> Result<Incoming, LinkFault>
        ensures told { Grows (talk self.old) (talk self.new) (Said.Gave wait_ms result ∷ []) }
        ensures asked { Grows (notices self.old) (notices self.new) (Notice.Asked ∷ []) }
        ensures later { faults self.old ≤ faults self.new }
        ensures failed { result ≡ Err LinkFault.Failed → HasRisen (faults self.old) (faults self.new) }
        ensures quiets { quiets self.old ≤ quiets self.new }
        ensures quiet { IsQuiet result → HasRisen (quiets self.old) (quiets self.new) };

    /// Whether the link knows, without a call of the system, that a receive which doesn't wait would give nothing now. Where it
    /// doesn't know, false.
    fn is_idle(&self) -> bool {
        false
    }

    /// Goes on with the dial by which the link was made, without waiting, and says how it is. A link is open from its first day where
    /// its dialer or acceptor waited for its handshake.
    fn settle(&mut self, alloc: Global) -> Settled
        ensures told { talk self.new ≡ talk self.old }
        ensures unwoken { notices self.new ≡ notices self.old }
        ensures later { faults self.old ≤ faults self.new }
        ensures failed { result ≡ SettledType.Failed → HasRisen (faults self.old) (faults self.new) }
        ensures quiets { quiets self.old ≤ quiets self.new }
    {
        Settled::Open
    }

    /// Puts a message.
    fn put(&mut self, alloc: Global, m: &[u8]) -> Result<(), LinkFault>
        ensures told { Grows (talk self.old) (talk self.new) (Said.Put m.now (fault_in result) ∷ []) }
        ensures unwoken { notices self.new ≡ notices self.old }
        ensures later { faults self.old ≤ faults self.new }
        ensures failed { result ≡ Err LinkFault.Failed → HasRisen (faults self.old) (faults self.new) }
        ensures quiets { quiets self.old ≤ quiets self.new };

    /// Closes the link, with a close code and a reason.
    fn close(&mut self, alloc: Global, code: u16, reason: &str) -> Result<(), LinkFault>
        ensures told { Grows (talk self.old) (talk self.new) (Said.Closed code reason.now ∷ []) }
        ensures unwoken { notices self.new ≡ notices self.old }
        ensures later { faults self.old ≤ faults self.new }
        ensures failed { result ≡ Err LinkFault.Failed → HasRisen (faults self.old) (faults self.new) }
        ensures quiets { quiets self.old ≤ quiets self.new };

    /// The link is this connection's from now on.
    fn set_connection(&mut self, conn: u64)
        ensures told { Stays (talk self.old) (talk self.new) }
        ensures known { Grows (notices self.old) (notices self.new) (Notice.Known conn ∷ []) }
        ensures same { faults self.new ≡ faults self.old }
        ensures quiets { quiets self.new ≡ quiets self.old };

    /// Something is new for this connection: its link's wait ends, or its next one.
    fn wake(&mut self, conn: u64)
        ensures told { Stays (talk self.old) (talk self.new) }
        ensures woken { Grows (notices self.old) (notices self.new) (Notice.Woke conn ∷ []) }
        ensures same { faults self.new ≡ faults self.old }
        ensures quiets { quiets self.new ≡ quiets self.old };
}
