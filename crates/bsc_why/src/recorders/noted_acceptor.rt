//! An acceptor that notes its port.
ghost use Rattle.std.specs.Prelude.{◌≡◌, None, false};

use bsc_edge::{Acceptor, Arrived, Failed, LinkFault};
use bsc_octets::Vmac;
use std::alloc::Global;

/// What became of the port of an acceptor.
#[derive(Clone, Copy, Debug, PartialEq, Eq)]
pub struct DoorNote {
    /// The TCP port that was to be bound last, if any was.
    pub port: Option<u16>,
    /// Whether it was bound.
    pub is_bound: bool,
}

/// An acceptor over another, which notes which port was to be bound, and whether it was.
#[derive(Drop)]
pub struct NotedAcceptor<A> {
    acceptor: A,
    note: DoorNote,
}

impl<A> NotedAcceptor<A> {
    /// An acceptor over this one, which is bound to no port.
    pub fn new(acceptor: A) -> NotedAcceptor<A>
        ensures acceptor { result.acceptor ≡ acceptor }
        ensures port { result.note.port ≡ None }
        ensures bound { result.note.is_bound ≡ false }
    {
        NotedAcceptor {
            acceptor,
            note: DoorNote {
                port: None,
                is_bound: false,
            },
        }
    }

    /// What became of its port.
    pub fn note(&self) -> DoorNote {
        self.note
    }
}

impl<L, A: Acceptor<L>> Acceptor<L> for NotedAcceptor<A> {
    ghost faults = { λ a. A.faults a.acceptor };

    ghost quiets = { λ a. A.quiets a.acceptor };

    ghost bound = { λ a. A.bound a.acceptor };

    ghost left = { λ a. A.left a.acceptor };

    ghost came = { λ a. A.came a.acceptor };

    ghost fresh = { A.fresh };

    ghost came_fresh = { λ a. A.came_fresh a.acceptor };

    ghost waits = { λ a. A.waits a.acceptor };

    ghost stops = { λ a. A.stops a.acceptor };

    fn bind(&mut self, port: u16, owner: Vmac) -> Result<(), Failed> {
        let answer = self.acceptor.bind(port, owner);
        self.note = DoorNote {
            port: Some(port),
            is_bound: answer.is_ok(),
        };
        answer
    }

    fn next(&mut self, alloc: Global, wait_ms: u32) -> Result<Arrived<L>, LinkFault> {
        self.acceptor.next(alloc, wait_ms)
    }

    fn wake_all(&mut self, at: u64) {
        self.acceptor.wake_all(at);
    }
}
