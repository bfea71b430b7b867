//! Links in memory that see each other, and what is noted of them.
ghost use Rattle.std.specs.Prelude.{None};

use crate::peers::{CONNECT_A, CONNECT_B};
use bsc_edge::{Incoming, Link, LinkFault};
use bsc_octets::Octets;
use std::alloc::Global;
use std::sync::Arc;
use std::sync::atomic::{AtomicBool, AtomicU64, Ordering};
use std::thread;

/// What the links of a test see of each other.
#[derive(Drop)]
pub struct Scene {
    /// The peer of the later link was accepted.
    pub accepted: AtomicBool,
    /// A message that the hub carries was put on a link.
    pub carried: AtomicBool,
    /// How many links were closed with 1001.
    pub away: AtomicU64,
    /// How many links gave Closed.
    pub closed: AtomicU64,
}

/// What a link waits for before it gives its next thing.
#[derive(Clone, Copy)]
pub enum Until {
    Now,
    /// The peer of the later link was accepted.
    Accepted,
    /// A message that the hub carries was put on a link.
    Carried,
}

/// What a link gives, each behind what it waits for: a message, or Closed where that has no octets. And whether it is the
/// later one.
#[derive(Clone, Copy)]
pub struct Part {
    pub cues: &'static [(Until, &'static [u8])],
    pub is_later: bool,
}

/// It closes at once.
pub const CLOSING: Part = Part {
    cues: &[(Until::Now, &[])],
    is_later: false,
};

/// It connects, and closes then.
pub const JOINING: Part = Part {
    cues: &[(Until::Now, CONNECT_A), (Until::Now, &[])],
    is_later: false,
};

/// The same of another device.
pub const OTHER: Part = Part {
    cues: &[(Until::Now, CONNECT_B), (Until::Now, &[])],
    is_later: false,
};

/// It gives a message to the peer of the later link once that was accepted, and closes once the message was carried.
pub const FIRST: Part = Part {
    cues: &[
        (Until::Now, CONNECT_A),
        (Until::Accepted, &[1, 4, 0, 2, 2, 0, 0, 0, 0, 11, 1, 0]),
        (Until::Carried, &[]),
    ],
    is_later: false,
};

/// It closes once the message was put on it.
pub const LATER: Part = Part {
    cues: &[(Until::Now, CONNECT_B), (Until::Carried, &[])],
    is_later: true,
};

/// A link that gives its messages and then Closed, each when its time has come. Until then it is Quiet, and gives the processor away.
#[derive(Drop)]
pub struct CuedLink {
    pub part: Part,
    pub quiets: u64,
    pub scene: Arc<Scene>,
}

impl Link for CuedLink {
    ghost faults = { λ _. 0 };

    ghost quiets = { λ l. l.quiets };

    ghost talk = { λ _. None };

    fn receive(&mut self, alloc: Global, _wait_ms: u32) -> Result<Incoming, LinkFault> {
        let [cue, rest @ ..] = self.part.cues else {
            return Ok(Incoming::Closed);
        };
        let (until, octets) = *cue;
        let has_come = match until {
            Until::Now => true,
            Until::Accepted => self.scene.accepted.load(Ordering::SeqCst),
            Until::Carried => self.scene.carried.load(Ordering::SeqCst),
        };
        if !has_come {
            self.quiets = self.quiets.saturating_add(1);
            thread::yield_now();
            return Ok(Incoming::Quiet);
        }
        self.part.cues = rest;
        if octets.is_empty() {
            self.scene.closed.fetch_add(1, Ordering::SeqCst);
            return Ok(Incoming::Closed);
        }
        match Vec::from_slice(alloc, octets) {
            Ok(octets) => Ok(Incoming::Message(Octets::from_vec(octets))),
            Err(_) => Err(LinkFault::NoMemory),
        }
    }

    /// A message begins with its function: 7 is Connect-Accept, 1 is Encapsulated-NPDU.
    fn put(&mut self, _alloc: Global, m: &[u8]) -> Result<(), LinkFault> {
        match m.first() {
            Some(7) => {
                if self.part.is_later {
                    self.scene.accepted.store(true, Ordering::SeqCst);
                }
            }
            Some(1) => self.scene.carried.store(true, Ordering::SeqCst),
            _ => {}
        }
        Ok(())
    }

    fn close(&mut self, _alloc: Global, code: u16, _reason: &str) -> Result<(), LinkFault> {
        if code == 1001 {
            self.scene.away.fetch_add(1, Ordering::SeqCst);
        }
        Ok(())
    }

    fn set_connection(&mut self, _conn: u64) {}

    fn wake(&mut self, _conn: u64) {}
}
