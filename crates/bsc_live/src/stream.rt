//! Streams over sockets that don't block.
ghost use Rattle.bsc_live.specs.Written.{written};

use crate::deferred_wakes::DeferredWakes;
use crate::held::Held;
use crate::lingering::Lingering;
use crate::socket::LiveSocket;
use crate::waker::Waker;
use crate::watch::{SeatView, Watch};
use crate::wire::Wire;
use mio::net::TcpStream;
use std::alloc::Global;
use std::io::{self, Read, Write};
use std::net::Net;
use std::sync::{Arc, Wait};
use std::time::Clock;

/// A stream over a socket that doesn't block. A read waits until octets are there, the bell rings or the time is over,
/// and then answers `WouldBlock`; a write waits until its octets are taken, and answers `TimedOut` once its own time is
/// over. It has three descriptors: the socket, the poll and the bell's. Where it has a place to linger at, its socket goes there
/// when it is dropped.
///
/// Where it holds what is written, that leaves together, in one call of the system: at the next read, once there is more than
/// it holds, and when the stream is dropped. A fault of the socket shows there then, and from there on the stream takes and gives
/// nothing more. It may also make the rings that its link owes: at the next read, and before a write waits.
///
/// It tells contracts what was written: what the socket took, by what its writes answered, and behind that what is held.
#[derive(Drop)]
pub struct LiveStream<R: Clock + Wait + Drop> {
    held: Held<LiveSocket<R>>,
}

impl<R: Clock + Net + Wait + Copy + Drop> LiveStream<R> {
    /// A stream over this socket, whose small messages aren't held back. What is written between two flushes has
    /// `write_ms` milliseconds to leave.
    pub fn over(
        rt: R,
        alloc: Global,
        socket: TcpStream,
        write_ms: u32,
    ) -> io::Result<LiveStream<R>> {
        Ok(LiveStream {
            held: Held::over(alloc, LiveSocket::over(rt, alloc, socket, write_ms)?),
        })
    }
}

impl<R: Clock + Wait + Drop> LiveStream<R> {
    /// The same stream, which is waited for at this watch too. A read that doesn't wait asks the system for octets only where
    /// some may be there.
    pub fn watched_by(self, watch: &Arc<Watch>) -> io::Result<LiveStream<R>> {
        let mut stream = self;
        stream.held.wire.watch(watch)?;
        Ok(stream)
    }

    /// The same stream, whose socket lingers here once it is dropped.
    pub fn lingering_at(self, lingering: &Arc<Lingering>) -> io::Result<LiveStream<R>> {
        let mut stream = self;
        stream.held.wire.linger(lingering)?;
        Ok(stream)
    }

    /// The same stream, which holds what is written.
    pub fn holding(self) -> LiveStream<R> {
        let mut stream = self;
        stream.held.begin();
        stream
    }

    /// The same stream, which makes the rings that are noted here.
    pub fn ringing(self, debts: &Arc<DeferredWakes>) -> io::Result<LiveStream<R>> {
        let mut stream = self;
        stream.held.wire.ring(debts)?;
        Ok(stream)
    }

    /// What tells whether it may have something, where it is waited for with others.
    pub(crate) fn seat_view(&self) -> Option<SeatView> {
        self.held.wire.seat_view()
    }

    /// The stream's bell, to be shared.
    pub fn bell(&self) -> io::Result<Arc<Waker>> {
        self.held.wire.bell()
    }
}

impl<R: Clock + Wait + Drop> Read for LiveStream<R> {
    fn read(&mut self, buf: &mut [u8]) -> io::Result<usize> {
        self.held.read(buf)
    }
}

impl<R: Clock + Wait + Drop> Write for LiveStream<R> {
    ghost contents = { λ s. written (⟦<LiveSocket<R> as Wire>⟧.left s.held.wire) s.held.kept.held.items s.held.kept.gone };

    fn write(&mut self, buf: &[u8]) -> io::Result<usize> {
        self.held.write(buf)
    }

    fn flush(&mut self) -> io::Result<()> {
        self.held.flush()
    }
}
