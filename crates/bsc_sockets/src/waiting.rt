//! What the program waits by between the turns of a node.
ghost use Rattle.std.specs.Prelude.{◌≡◌, [], IfOk, Some};
ghost use Rattle.bsc_ring.specs.Ends.{given};

use crate::live_inbox::{LineRouser, LiveInbox};
use bsc_edge::{Kind, Waiter};
use bsc_live::{Lingering, Watch, Watcher};
use bsc_past::Past;
use bsc_ring::Outlet;
use std::alloc::Global;
use std::io::{self, ErrorKind};
use std::net::Net;
use std::sync::{Arc, Wait};
use std::time::Clock;

/// So many streams and gates of a node may be waited for at once: its 66 links, as many that were taken out in a turn, 256 that
/// wait at its gate, the gate, and one that is dialled. The rest is to spare.
const SEATS: usize = 512;

/// What the links of a program and its gate share.
#[derive(Drop)]
pub struct Shared {
    /// Where they are waited for, if they are a node's.
    pub watch: Option<Arc<Watch>>,
    /// Where their sockets linger.
    pub lingering: Arc<Lingering>,
}

/// The sockets that linger here, for one more.
fn again(lingering: &Arc<Lingering>) -> io::Result<Arc<Lingering>> {
    match Arc::try_clone(lingering) {
        Ok(lingering) => Ok(lingering),
        Err(_) => Err(io::Error::from(ErrorKind::OutOfMemory)),
    }
}

/// Waits for a node. A hub, whose sessions wait each for its own link, has nothing to wait by.
#[derive(Drop)]
pub struct RealWaiter<R> {
    watcher: Option<Watcher<R>>,
    lingering: Arc<Lingering>,
    waits: Past<u32>,
}

impl<R: Clock + Net + Wait + Drop> RealWaiter<R> {
    /// What a program waits by that takes links of this kind.
    pub fn of(rt: R, alloc: Global, kind: Kind) -> io::Result<RealWaiter<R>>
        ensures { IfOk result (λ w. w.waits.items ≡ []) }
    {
        let Ok(lingering) = Lingering::new(alloc) else {
            return Err(io::Error::from(ErrorKind::OutOfMemory));
        };
        let lingering = Arc::new(alloc, lingering)?;
        let watcher = match kind {
            Kind::Direct => { Some(Watcher::new(rt, alloc, SEATS)?.looks_at(again(&lingering)?)) }
            Kind::Hub => None,
        };
        Ok(RealWaiter {
            watcher,
            lingering,
            waits: Past::new(),
        })
    }

    /// What the links of the program and its gate share.
    pub fn shared(&self) -> io::Result<Shared> {
        let watch = match &self.watcher {
            Some(watcher) => Some(watcher.watch()?),
            None => None,
        };
        Ok(Shared {
            watch,
            lingering: again(&self.lingering)?,
        })
    }

    /// The inbox at this outlet, for a node that waits here, and what rouses it. Fails for a hub, which has nothing to wait by.
    pub fn inbox(&self, alloc: Global, outlet: Outlet) -> io::Result<(LiveInbox, LineRouser)>
        requires { given outlet ≡ [] }
        ensures taken { IfOk result (λ (inbox, _). inbox.ring.taken.items ≡ []) }
        ensures outlet { IfOk result (λ (inbox, _). inbox.ring.outlet ≡ outlet) }
    {
        match &self.watcher {
            Some(watcher) => LiveInbox::new(alloc, outlet, &watcher.watch()?),
            None => Err(io::Error::from(ErrorKind::Unsupported)),
        }
    }

    /// Waits until no socket lingers any more, 1,000 ms at most: a process that ends lets all go.
    pub fn outlast_lingering(&self, rt: &R) {
        self.lingering.outlast(rt);
    }
}

impl<R: Clock + Wait> Waiter for RealWaiter<R> {
    ghost waits = { λ w. Some w.waits.items };

    fn wait(&mut self, most_ms: u32) {
        if let Some(watcher) = &mut self.watcher {
            watcher.wait(most_ms);
        }
        self.waits.add(&most_ms);
    }
}
