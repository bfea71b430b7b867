//! How many streams were turned away, and why.
ghost use Rattle.std.specs.Prelude.{◌≡◌};
ghost use Rattle.bsc_gate.specs.Turning.{later, turned_by, turned_once, turning_at};

use bsc_edge::LinkFault;

/// Why a stream was turned away before it was a link.
#[derive(Clone, Copy, Debug, PartialEq, Eq)]
pub enum Turning {
    /// Its request doesn't offer the sub-protocol.
    NoProtocol,
    /// Its handshake wasn't done in its time.
    Late,
    /// Its head has more octets than are taken.
    LongHead,
    /// There is no descriptor for it or its link. A stream that can't be taken counts each time that it is tried.
    NoDescriptor,
    /// Its handshake was the oldest when the table of handshakes was full, or too many links waited to be handed out.
    PushedOut,
    /// There was no memory.
    NoMemory,
    /// Its handshake failed otherwise, or its link can't be waited for.
    Failed,
}

/// How many streams were turned away, by why.
#[derive(Clone, Copy, Debug, PartialEq, Eq)]
pub struct Turned {
    pub no_protocol: u64,
    pub late: u64,
    pub long_head: u64,
    pub no_descriptor: u64,
    pub pushed_out: u64,
    pub no_memory: u64,
    pub failed: u64,
}

/// Why a stream is turned away of which no link could be made.
pub(crate) fn turning_at(fault: LinkFault) -> Turning
    ensures { result ≡ turning_at fault }
{
    match fault {
        LinkFault::Failed => Turning::NoDescriptor,
        LinkFault::NoMemory => Turning::NoMemory,
    }
}

impl Turned {
    /// None.
    pub const NONE: Turned = Turned {
        no_protocol: 0,
        late: 0,
        long_head: 0,
        no_descriptor: 0,
        pushed_out: 0,
        no_memory: 0,
        failed: 0,
    };

    /// One more, for this.
    pub(crate) fn add(&mut self, why: Turning)
        ensures { self.new ≡ turned_once why self.old }
    {
        match why {
            Turning::NoProtocol => self.no_protocol = self.no_protocol.saturating_add(1),
            Turning::Late => self.late = self.late.saturating_add(1),
            Turning::LongHead => self.long_head = self.long_head.saturating_add(1),
            Turning::NoDescriptor => self.no_descriptor = self.no_descriptor.saturating_add(1),
            Turning::PushedOut => self.pushed_out = self.pushed_out.saturating_add(1),
            Turning::NoMemory => self.no_memory = self.no_memory.saturating_add(1),
            Turning::Failed => self.failed = self.failed.saturating_add(1),
        }
    }

    /// So many more that were late.
    pub(crate) fn add_late(&mut self, n: u64)
        ensures { self.new ≡ later n self.old }
    {
        self.late = self.late.saturating_add(n);
    }

    /// One more, where there is a cause.
    pub(crate) fn add_for(&mut self, why: Option<Turning>)
        ensures { self.new ≡ turned_by why self.old }
    {
        if let Some(why) = why {
            self.add(why);
        }
    }
}
