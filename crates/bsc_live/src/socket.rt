//! Sockets that don't block, as a stream waits for them.
ghost use Rattle.std.specs.Prelude.{◌≡◌, Some};
ghost use Rattle.std.specs.Io.{WritesAtMost};
ghost use Rattle.std.specs.Io.KnownBytes.{WriteAppends};

use crate::deferred_wakes::DeferredWakes;
use crate::lingering::Lingering;
use crate::moment::{Moment, wait_of};
use crate::raw::RawSocket;
use crate::waker::Waker;
use crate::watch::{Seat, SeatView, Watch};
use crate::wire::Wire;
use mio::net::TcpStream;
use mio::{Events, Interest, Poll, Token};
use std::alloc::Global;
use std::io::{self, ErrorKind};
use std::net::Net;
use std::sync::{Arc, Wait};
use std::time::Clock;

const SOCKET: Token = Token(0);

const BELL: Token = Token(1);

/// A socket that doesn't block. A read waits until octets are there, the bell rings or the time is over, and then answers
/// `WouldBlock`; a write waits until its octets are taken, and answers `TimedOut` once its own time is over. It has three
/// descriptors: the socket, the poll and the bell's. Where it has a place to linger at, the socket goes there when it is dropped.
///
/// It may make the rings that its link owes: at the next read, and before a write waits.
///
/// A read that waits asks the socket only where it may have something: not behind one that took all that was there, until the poll
/// has told of more, or of nothing in the time of the reads.
pub(crate) struct LiveSocket<R: Clock + Wait + Drop> {
    clock: R,
    raw: RawSocket,
    poll: Poll,
    events: Events,
    bell: Arc<Waker>,
    /// When the reads are over, once one had to know.
    until: Option<Moment>,
    /// The socket had no more at the last read of it, and the poll will tell when it has.
    is_drained: bool,
    /// It said itself that it has no more, and the poll has told of nothing since.
    is_empty: bool,
    /// The poll told that the peer's stream has ended or broken off.
    is_ended: bool,
    /// The poll tells also when the socket takes octets again.
    tells_room: bool,
    write_ms: u32,
    /// When the octets that were written since the last flush must have left, once one of them had to wait.
    write_until: Option<Moment>,
    /// Where the rings are noted that its link owes, if it may owe any.
    debts: Option<Arc<DeferredWakes>>,
    /// Where it is waited for with others.
    seat: Option<Seat>,
    /// Where its socket lingers once it is dropped.
    lingering: Option<Arc<Lingering>>,
}

/// What a poll told of the socket.
#[derive(Clone, Copy)]
struct PollReport {
    /// It may have octets, or its end.
    more: bool,
    /// The poll told of nothing at all.
    nothing: bool,
    /// The peer's stream has ended or broken off.
    end: bool,
}

/// What the events of a poll tell of the socket.
fn told_by(events: &Events) -> PollReport {
    let mut told = PollReport {
        more: false,
        nothing: events.is_empty(),
        end: false,
    };
    for event in events.iter() {
        if event.token() == SOCKET {
            told.more = true;
            told.end = told.end || event.is_read_closed() || event.is_error();
        }
    }
    told
}

impl<R: Clock + Net + Wait + Copy + Drop> LiveSocket<R> {
    /// This socket, whose small messages aren't held back. What is written between two flushes has `write_ms` milliseconds to leave.
    pub(crate) fn over(
        rt: R,
        alloc: Global,
        socket: TcpStream,
        write_ms: u32,
    ) -> io::Result<LiveSocket<R>> {
        let mut socket = socket;
        socket.set_nodelay(true)?;
        let poll = Poll::new(&rt)?;
        let waker = mio::Waker::new(poll.registry(), BELL)?;
        poll.registry()
            .register(&mut socket, SOCKET, Interest::READABLE)?;
        let Ok(events) = Events::with_capacity(alloc, 4) else {
            return Err(io::Error::from(ErrorKind::OutOfMemory));
        };
        let Ok(bell) = Arc::new(alloc, Waker::new(waker)) else {
            return Err(io::Error::from(ErrorKind::OutOfMemory));
        };
        Ok(LiveSocket {
            clock: rt,
            raw: RawSocket::new(socket),
            poll,
            events,
            bell,
            until: None,
            is_drained: false,
            is_empty: false,
            is_ended: false,
            tells_room: false,
            write_ms,
            write_until: None,
            debts: None,
            seat: None,
            lingering: None,
        })
    }
}

impl<R: Clock + Wait + Drop> LiveSocket<R> {
    /// Has it waited for at this watch too. A read that doesn't wait asks the system for octets only where some may be there.
    pub(crate) fn watch(&mut self, watch: &Arc<Watch>) -> io::Result<()>
        ensures { self.new.raw.left.items ≡ self.old.raw.left.items }
    {
        self.seat = Some(Seat::take(watch, &mut self.raw.socket)?);
        Ok(())
    }

    /// Has it linger here once it is dropped.
    pub(crate) fn linger(&mut self, lingering: &Arc<Lingering>) -> io::Result<()>
        ensures { self.new.raw.left.items ≡ self.old.raw.left.items }
    {
        let Ok(lingering) = Arc::try_clone(lingering) else {
            return Err(io::Error::from(ErrorKind::OutOfMemory));
        };
        self.lingering = Some(lingering);
        Ok(())
    }

    /// Has it make the rings that are noted here.
    pub(crate) fn ring(&mut self, debts: &Arc<DeferredWakes>) -> io::Result<()>
        ensures { self.new.raw.left.items ≡ self.old.raw.left.items }
    {
        let Ok(debts) = Arc::try_clone(debts) else {
            return Err(io::Error::from(ErrorKind::OutOfMemory));
        };
        self.debts = Some(debts);
        Ok(())
    }

    /// What tells whether it may have something, where it is waited for with others.
    pub(crate) fn seat_view(&self) -> Option<SeatView> {
        match &self.seat {
            Some(seat) => seat.view(),
            None => None,
        }
    }

    /// Its bell, to be shared.
    pub(crate) fn bell(&self) -> io::Result<Arc<Waker>> {
        match Arc::try_clone(&self.bell) {
            Ok(bell) => Ok(bell),
            Err(_) => Err(io::Error::from(ErrorKind::OutOfMemory)),
        }
    }

    /// Makes the rings that its link owes.
    fn rings(&self) {
        if let Some(debts) = &self.debts {
            debts.settle(&self.clock);
        }
    }

    /// When the reads are over. Their time begins now, where none had to know before.
    fn until(&mut self, now: Moment) -> Moment
        ensures { self.new.raw.left.items ≡ self.old.raw.left.items }
    {
        let until = match self.until {
            Some(until) => until,
            None => self.bell.until(now),
        };
        self.until = Some(until);
        until
    }

    /// Notes what the last poll told of the socket. Where that is nothing at all, the socket may have something all the same, unless
    /// it said itself that it hasn't.
    fn looks(&mut self)
        ensures { self.new.raw.left.items ≡ self.old.raw.left.items }
    {
        let told = told_by(&self.events);
        let more = told.more || (told.nothing && !self.is_empty);
        self.is_drained = self.is_drained && !more;
        self.is_empty = self.is_empty && !told.more;
        self.is_ended = self.is_ended || told.end;
    }

    /// Sleeps until something is new. False where the time is over or the bell has rung; true may come for no reason,
    /// so that the caller looks again.
    fn sleeps(&mut self) -> io::Result<bool>
        ensures { self.new.raw.left.items ≡ self.old.raw.left.items }
    {
        if !self.bell.waits() {
            return Ok(false);
        }
        let now = Moment::now(&self.clock)?;
        let left = self.until(now).left(now);
        if left == 0 {
            return Ok(false);
        }
        if !self.bell.falls_asleep() {
            // Rings without end can't keep the socket from being read.
            self.is_drained = false;
            return Ok(false);
        }
        let polled = self.poll.poll(&mut self.events, Some(wait_of(left)));
        let rung = self.bell.wakes_up_rung();
        self.looks();
        polled?;
        Ok(!rung)
    }

    /// Has the poll tell when the socket takes octets again.
    fn asks_for_room(&mut self) -> io::Result<()>
        ensures { self.new.raw.left.items ≡ self.old.raw.left.items }
    {
        if !self.tells_room {
            self.poll.registry().reregister(
                &mut self.raw.socket,
                SOCKET,
                Interest::READABLE | Interest::WRITABLE,
            )?;
            self.tells_room = true;
        }
        Ok(())
    }

    /// Waits until the socket takes octets again, within the time of a write. A ring is kept for the next read.
    fn waits_to_write(&mut self) -> io::Result<()>
        ensures { self.new.raw.left.items ≡ self.old.raw.left.items }
    {
        self.rings();
        self.asks_for_room()?;
        let now = Moment::now(&self.clock)?;
        let until = match self.write_until {
            Some(until) => until,
            None => now.after(self.write_ms),
        };
        self.write_until = Some(until);
        let left = until.left(now);
        if left == 0 {
            return Err(io::Error::from(ErrorKind::TimedOut));
        }
        let polled = self.poll.poll(&mut self.events, Some(wait_of(left)));
        self.looks();
        polled
    }

    /// Writes octets of these to the socket, waits until it takes some, and says how many.
    fn writes(&mut self, buf: &[u8]) -> io::Result<usize>
        ensures bound { WritesAtMost result buf.now }
        ensures left { WriteAppends (Some self.old.raw.left.items) (Some self.new.raw.left.items) result buf.now }
    {
        for _ in 0..u64::MAX {
            match self.raw.write(buf) {
                Ok(n) => return Ok(n),
                Err(error) => {
                    if error.kind() == ErrorKind::WouldBlock {
                        self.waits_to_write()?;
                    } else if error.kind() != ErrorKind::Interrupted {
                        return Err(error);
                    }
                }
            }
        }
        Err(io::Error::from(ErrorKind::TimedOut))
    }

    /// Whether the time of the reads is over.
    fn is_late(&mut self) -> io::Result<bool>
        ensures { self.new.raw.left.items ≡ self.old.raw.left.items }
    {
        if !self.bell.waits() {
            return Ok(true);
        }
        let now = Moment::now(&self.clock)?;
        Ok(self.until(now).left(now) == 0)
    }

    /// Whether this read comes too late. A peer that never lets a message end can't keep its reader past the time.
    fn is_too_late(&mut self) -> io::Result<bool>
        ensures { self.new.raw.left.items ≡ self.old.raw.left.items }
    {
        if self.bell.is_first_read() {
            self.until = None;
            return Ok(false);
        }
        self.is_late()
    }

    /// Whether there is nothing to read and nothing to wait for.
    fn is_cold(&self) -> bool {
        match &self.seat {
            Some(seat) => !self.bell.waits() && !seat.is_hot(),
            None => false,
        }
    }

    /// Notes whether a read of the socket gave octets. Where it did, more may be there, also in the buffer of who reads.
    fn note(&self, gave: bool) {
        if let Some(seat) = &self.seat {
            seat.set_hot(gave);
        }
    }
}

impl<R: Clock + Wait + Drop> Wire for LiveSocket<R> {
    ghost left = { λ s. Some s.raw.left.items };

    fn get(&mut self, buf: &mut [u8]) -> io::Result<usize> {
        self.rings();
        if self.is_too_late()? || self.is_cold() {
            return Err(io::Error::from(ErrorKind::WouldBlock));
        }
        for _ in 0..u64::MAX {
            if self.is_drained && self.bell.waits() {
                if !self.sleeps()? {
                    return Err(io::Error::from(ErrorKind::WouldBlock));
                }
            } else {
                match self.raw.read(buf) {
                    Ok(n) => {
                        self.note(true);
                        // Where the stream has ended no event need tell so again.
                        self.is_drained = 0 < n && n < buf.len() && !self.is_ended;
                        self.is_empty = false;
                        return Ok(n);
                    }
                    Err(error) => {
                        if error.kind() == ErrorKind::WouldBlock {
                            self.note(false);
                            self.is_drained = true;
                            self.is_empty = true;
                            if !self.bell.waits() {
                                return Err(error);
                            }
                        } else if error.kind() != ErrorKind::Interrupted {
                            return Err(error);
                        }
                    }
                }
            }
        }
        Err(io::Error::from(ErrorKind::WouldBlock))
    }

    fn put(&mut self, octets: &[u8]) -> io::Result<usize> {
        self.writes(octets)
    }

    fn rest(&mut self) -> io::Result<()> {
        self.write_until = None;
        Ok(())
    }
}

impl<R: Clock + Wait + Drop> Drop for LiveSocket<R> {
    fn drop(self) {
        let LiveSocket {
            clock,
            raw,
            poll: _,
            events: _,
            bell: _,
            until: _,
            is_drained: _,
            is_empty: _,
            is_ended: _,
            tells_room: _,
            write_ms: _,
            write_until: _,
            debts: _,
            seat,
            lingering,
        } = self;
        let mut socket = raw.into_inner();
        if let Some(seat) = seat {
            seat.leave(&mut socket);
        }
        if let Some(lingering) = lingering {
            lingering.take(&clock, socket);
        }
    }
}
