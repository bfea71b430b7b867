//! What a listener counts, for whoever looks at it from elsewhere.
use bsc_gate::Turned;
use std::sync::atomic::{AtomicU64, Ordering};

/// How many links a listener has taken, and how many streams it turned away, by why. It may be shared.
#[derive(Drop)]
pub struct Numbers {
    links: AtomicU64,
    no_protocol: AtomicU64,
    late: AtomicU64,
    long_head: AtomicU64,
    no_descriptor: AtomicU64,
    pushed_out: AtomicU64,
    no_memory: AtomicU64,
    failed: AtomicU64,
}

impl Numbers {
    /// None yet.
    pub fn new() -> Numbers {
        Numbers {
            links: AtomicU64::new(0),
            no_protocol: AtomicU64::new(0),
            late: AtomicU64::new(0),
            long_head: AtomicU64::new(0),
            no_descriptor: AtomicU64::new(0),
            pushed_out: AtomicU64::new(0),
            no_memory: AtomicU64::new(0),
            failed: AtomicU64::new(0),
        }
    }

    /// So many streams were turned away so far.
    pub(crate) fn store_turned(&self, turned: Turned) {
        self.no_protocol.store(turned.no_protocol, Ordering::SeqCst);
        self.late.store(turned.late, Ordering::SeqCst);
        self.long_head.store(turned.long_head, Ordering::SeqCst);
        self.no_descriptor
            .store(turned.no_descriptor, Ordering::SeqCst);
        self.pushed_out.store(turned.pushed_out, Ordering::SeqCst);
        self.no_memory.store(turned.no_memory, Ordering::SeqCst);
        self.failed.store(turned.failed, Ordering::SeqCst);
    }

    /// So many links have come so far.
    pub(crate) fn store_links(&self, links: u64) {
        self.links.store(links, Ordering::SeqCst);
    }

    /// How many links have come.
    pub fn links(&self) -> u64 {
        self.links.load(Ordering::SeqCst)
    }

    /// How many streams were turned away, by why.
    pub fn turned(&self) -> Turned {
        Turned {
            no_protocol: self.no_protocol.load(Ordering::SeqCst),
            late: self.late.load(Ordering::SeqCst),
            long_head: self.long_head.load(Ordering::SeqCst),
            no_descriptor: self.no_descriptor.load(Ordering::SeqCst),
            pushed_out: self.pushed_out.load(Ordering::SeqCst),
            no_memory: self.no_memory.load(Ordering::SeqCst),
            failed: self.failed.load(Ordering::SeqCst),
        }
    }
}
