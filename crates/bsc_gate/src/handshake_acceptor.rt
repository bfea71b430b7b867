//! An acceptor of one thread whose handshakes wait in one poll.
ghost use Rattle.std.specs.Prelude.{◌≡◌, ◌≤◌, true, false, is_some, [], ◌∷◌, Some, None, Ok, Err, IsErr, IfOk, IfSome};
ghost use Rattle.std.specs.List.{list_all, list_any};
ghost use Rattle.std.proofs.Common.{refl};
ghost use Rattle.bsc_edge.specs.declared.fault.LinkFault.{LinkFault};
ghost use Rattle.bsc_edge.specs.Told.{Grows, IsNoLink, Leaves, Stays, ToldIs, arrived_in};
ghost use Rattle.bsc_outside.specs.Faults.{HasRisen};
ghost use Rattle.bsc_gate.specs.Arriving.{IfLink};
ghost use Rattle.tungstenite.specs.Heads.{Heard};

use crate::done::Done;
use crate::handshakes::Handshakes;
use crate::listening::Listening;
use crate::socket_link::{HANDSHAKE_MS, SocketLink, accepted};
use crate::turned::{Turned, Turning, turning_at};
use bsc_edge::{Acceptor, Arrived, Failed, Kind, LinkFault};
use bsc_live::{LOOK_MS, Lingering, Moment, Seat, Wakers, Watch};
use bsc_octets::{NoMemory, Vmac};
use mio::net::{TcpListener, TcpStream};
use mio::unix::SourceFd;
use mio::{Events, Interest, Poll, Token};
use std::alloc::Global;
use std::io::{self, ErrorKind};
use std::net::{Ipv4Addr, Net, SocketAddr, SocketAddrV4};
use std::os::fd::AsRawFd;
use std::random::RandomSource;
use std::sync::{Arc, Wait};
use std::time::{Clock, Duration};

/// The listener's token. The handshake at place i has the token i + 1.
const LISTENER: Token = Token(0);

/// So many streams are taken, and so many events are looked at, between two waits.
const BATCH: usize = 64;

/// Late handshakes are looked for at least this often, in microseconds.
const SWEEP: u64 = 100_000;

/// Where a stream couldn't be taken, the next try comes after so many microseconds.
const AGAIN: u64 = 10_000;

/// Sockets that linger are looked at this often, in microseconds.
const LOOK: u64 = 1_000 * LOOK_MS as u64;

/// So many links of a gate that is watched may wait to be handed out. Each has a seat, and others need some too.
const DONE: usize = 256;

/// What the listener may hold of which no event will tell.
#[derive(Clone, Copy, PartialEq, Eq)]
enum Backlog {
    /// Nothing.
    Empty,
    /// Streams: a batch ended before they did.
    More,
    /// Streams that can't be taken yet, as where no descriptor is left.
    Stuck,
}

/// Takes the streams that come to a port, and hands out links whose handshake is done. All handshakes wait in one poll
/// with the listener, each for 1,000 ms at most as a whole; where all places are taken the oldest goes. A stream that
/// fails, or that can't be taken, is no fault of the gate. It tells contracts the port that it is bound to.
#[derive(Drop)]
pub struct HandshakeAcceptor<R: Clock + Net + Wait + Copy + Drop> {
    rt: R,
    host: Ipv4Addr,
    kind: Kind,
    bells: Arc<Wakers>,
    poll: Poll,
    events: Events,
    listener: Option<TcpListener>,
    /// The port that it is bound to.
    bound: Option<u16>,
    backlog: Backlog,
    handshakes: Handshakes,
    done: Done<SocketLink<R>>,
    watch: Option<Arc<Watch>>,
    seat: Option<Seat>,
    lingering: Option<Arc<Lingering>>,
    faults: u64,
    quiets: u64,
}

/// The tokens of the events, and how many there are.
fn tokens_of(events: &Events) -> ([Token; BATCH], usize) {
    let mut tokens = [LISTENER; BATCH];
    let mut count = 0usize;
    for event in events.iter() {
        if let Some(token) = tokens.get_mut(count) {
            *token = event.token();
            count = count.saturating_add(1);
        }
    }
    (tokens, count)
}

impl<R: Clock + Net + Wait + RandomSource + Copy + Drop> HandshakeAcceptor<R> {
    /// A gate that will listen at this host for links of this kind, and has at most `places` handshakes at work.
    pub fn new(
        rt: R,
        alloc: Global,
        host: Ipv4Addr,
        kind: Kind,
        bells: Arc<Wakers>,
        places: usize,
    ) -> io::Result<HandshakeAcceptor<R>>
        ensures kind { IfOk result (λ g. g.kind ≡ kind) }
        ensures bound { IfOk result (λ g. g.bound ≡ None) }
    {
        let Ok(handshakes) = Handshakes::new(alloc, places) else {
            return Err(io::Error::from(ErrorKind::OutOfMemory));
        };
        let Ok(events) = Events::with_capacity(alloc, BATCH) else {
            return Err(io::Error::from(ErrorKind::OutOfMemory));
        };
        Ok(HandshakeAcceptor {
            rt,
            host,
            kind,
            bells,
            poll: Poll::new(&rt)?,
            events,
            listener: None,
            bound: None,
            backlog: Backlog::Empty,
            handshakes,
            done: Done::new(alloc),
            watch: None,
            seat: None,
            lingering: None,
            faults: 0,
            quiets: 0,
        })
    }

    /// The same gate, which is waited for at this watch, as are its links.
    pub fn watched_by(self, watch: Arc<Watch>) -> io::Result<HandshakeAcceptor<R>>
        ensures kind { IfOk result (λ g. g.kind ≡ self.kind) }
        ensures bound { IfOk result (λ g. g.bound ≡ self.bound) }
    {
        let mut gate = self;
        let fd = gate.poll.as_raw_fd();
        gate.seat = Some(Seat::take(&watch, &mut SourceFd(&fd))?);
        gate.watch = Some(watch);
        Ok(gate)
    }

    /// The same gate, whose links' sockets linger here once they are dropped. While it waits, it looks at all that linger here.
    pub fn lingering_at(self, lingering: Arc<Lingering>) -> HandshakeAcceptor<R>
        ensures kind { result.kind ≡ self.kind }
        ensures bound { result.bound ≡ self.bound }
    {
        let mut gate = self;
        gate.lingering = Some(lingering);
        gate
    }

    /// Looks at the sockets that linger. Whether others go on.
    fn has_lingering(&self) -> bool {
        match &self.lingering {
            Some(lingering) => lingering.look(&self.rt),
            None => false,
        }
    }

    /// Says at its watch whether it has more of which no event will tell.
    fn note(&self, is_full: bool) {
        if let Some(seat) = &self.seat {
            seat.set_hot(is_full || self.backlog == Backlog::More || !self.done.is_empty());
        }
    }

    /// The address that it listens at, once it is bound. Of port 0 the system chose one.
    pub fn address(&self) -> Option<SocketAddr> {
        match &self.listener {
            Some(listener) => listener.local_addr().ok(),
            None => None,
        }
    }

    /// The port that it is bound to, as it was asked for.
    pub fn port(&self) -> Option<u16>
        ensures { result ≡ self.now.bound }
    {
        self.bound
    }

    /// How many streams were turned away, by why.
    pub fn turned(&self) -> Turned
        ensures { result ≡ self.now.handshakes.turned }
    {
        self.handshakes.turned()
    }

    /// Listens at the port.
    fn listen(&mut self, port: u16) -> io::Result<()>
        ensures kind { self.new.kind ≡ self.old.kind }
        ensures bound { IfOk result (λ _. self.new.bound ≡ Some port) }
        ensures faults { self.new.faults ≡ self.old.faults }
        ensures quiets { self.new.quiets ≡ self.old.quiets }
    {
        let Listening { listener, at } = Listening::bind(
            &self.rt,
            SocketAddrV4::new(self.host, port),
        )?;
        let mut listener = listener;
        self.poll
            .registry()
            .register(&mut listener, LISTENER, Interest::READABLE)?;
        self.listener = Some(listener);
        self.bound = Some(at.port());
        self.backlog = Backlog::More;
        Ok(())
    }

    /// Begins the handshake of a stream.
    fn admit(&mut self, alloc: Global, socket: TcpStream, until: Moment)
        ensures faults { self.new.faults ≡ self.old.faults }
        ensures quiets { self.new.quiets ≡ self.old.quiets }
        ensures bound { self.new.bound ≡ self.old.bound }
        ensures kind { self.new.kind ≡ self.old.kind }
    {
        let Some(place) = self.handshakes.place() else {
            self.handshakes.turn_away(Turning::PushedOut);
            return;
        };
        self.handshakes
            .begin(alloc, place, socket, self.kind, until);
        // Most often its peer has sent all by now, and no event need tell of more.
        self.drive(alloc, place);
        self.handshakes.register(self.poll.registry(), place);
    }

    /// The link of this kind over a socket whose handshake is done waits to be handed out, unless it is turned away.
    fn keep(
        &mut self,
        alloc: Global,
        socket: TcpStream,
        kind: Kind,
        is_registered: bool,
    ) -> Result<(), Turning>
        requires { Heard }
        ensures faults { self.new.faults ≡ self.old.faults }
        ensures quiets { self.new.quiets ≡ self.old.quiets }
        ensures bound { self.new.bound ≡ self.old.bound }
        ensures kind { self.new.kind ≡ self.old.kind }
        ensures turned { self.new.handshakes ≡ self.old.handshakes }
    {
        let mut socket = socket;
        if is_registered && self.poll.registry().deregister(&mut socket).is_err() {
            return Err(Turning::Failed);
        }
        if self.watch.is_some() && DONE <= self.done.len() {
            return Err(Turning::PushedOut);
        }
        let link = accepted(
            self.rt,
            alloc,
            socket,
            kind,
            &self.bells,
            &self.watch,
            &self.lingering,
        );
        match link {
            Ok(link) => {
                if self.done.push(link) {
                    Ok(())
                } else {
                    Err(Turning::NoMemory)
                }
            }
            Err(fault) => Err(turning_at(fault)),
        }
    }

    /// Goes on with a handshake. Its link waits to be handed out where it is done.
    fn drive(&mut self, alloc: Global, place: usize)
        ensures faults { self.new.faults ≡ self.old.faults }
        ensures quiets { self.new.quiets ≡ self.old.quiets }
        ensures bound { self.new.bound ≡ self.old.bound }
        ensures kind { self.new.kind ≡ self.old.kind }
    {
        let Some((socket, kind, is_registered)) = self.handshakes.go_on(place) else {
            return;
        };
        if let Err(why) = self.keep(alloc, socket, kind, is_registered) {
            self.handshakes.turn_away(why);
        }
    }

    /// The next stream, if one can be taken; else says what the listener holds.
    fn take_stream(&mut self) -> Option<TcpStream>
        ensures faults { self.new.faults ≡ self.old.faults }
        ensures quiets { self.new.quiets ≡ self.old.quiets }
        ensures bound { self.new.bound ≡ self.old.bound }
        ensures kind { self.new.kind ≡ self.old.kind }
    {
        let taken = match &self.listener {
            Some(listener) => listener.accept(),
            None => Err(io::Error::from(ErrorKind::WouldBlock)),
        };
        match taken {
            Ok((socket, _)) => Some(socket),
            Err(error) => {
                self.backlog = match error.kind() {
                    ErrorKind::WouldBlock => Backlog::Empty,
                    // The peer went before it was taken: others may stand behind it.
                    ErrorKind::ConnectionAborted => Backlog::More,
                    ErrorKind::OutOfMemory => {
                        self.handshakes.turn_away(Turning::NoMemory);
                        Backlog::Stuck
                    }
                    // No descriptor is left for it.
                    _ => {
                        self.handshakes.turn_away(Turning::NoDescriptor);
                        Backlog::Stuck
                    }
                };
                None
            }
        }
    }

    /// Takes the streams that have come, a batch at most.
    fn take_streams(&mut self, alloc: Global, now: Moment)
        ensures faults { self.new.faults ≡ self.old.faults }
        ensures quiets { self.new.quiets ≡ self.old.quiets }
        ensures bound { self.new.bound ≡ self.old.bound }
        ensures kind { self.new.kind ≡ self.old.kind }
    {
        self.backlog = Backlog::More;
        for _ in 0..BATCH {
            match self.take_stream() {
                Some(socket) => self.admit(alloc, socket, now.after(HANDSHAKE_MS)),
                None => return,
            }
        }
    }

    /// Goes on with what has something new.
    fn drive_all(&mut self, alloc: Global, tokens: &[Token])
        ensures faults { self.new.faults ≡ self.old.faults }
        ensures quiets { self.new.quiets ≡ self.old.quiets }
        ensures bound { self.new.bound ≡ self.old.bound }
        ensures kind { self.new.kind ≡ self.old.kind }
    {
        for token in tokens {
            match token.0.checked_sub(1) {
                Some(place) => self.drive(alloc, place),
                None => self.backlog = Backlog::More,
            }
        }
    }

    /// Waits at most so many microseconds, and goes on with what has come. Gives the time behind the wait.
    fn turn(&mut self, alloc: Global, left: u64) -> io::Result<Moment>
        ensures faults { self.new.faults ≡ self.old.faults }
        ensures quiets { self.new.quiets ≡ self.old.quiets }
        ensures bound { self.new.bound ≡ self.old.bound }
        ensures kind { self.new.kind ≡ self.old.kind }
    {
        let wait = match self.backlog {
            Backlog::Empty => left.min(SWEEP),
            Backlog::More => 0,
            Backlog::Stuck => left.min(AGAIN),
        };
        let wait = if self.has_lingering() {
            wait.min(LOOK)
        } else {
            wait
        };
        self.poll
            .poll(&mut self.events, Some(Duration::from_micros(wait)))?;
        let (tokens, count) = tokens_of(&self.events);
        self.drive_all(alloc, tokens.get(..count).unwrap_or(&[]));
        let now = Moment::now(&self.rt)?;
        if self.backlog != Backlog::Empty {
            self.take_streams(alloc, now);
        }
        self.handshakes.sweep(now);
        self.handshakes.look();
        self.note(count == BATCH);
        Ok(now)
    }

    /// Whether it may have something to do: a handshake is at work, a link is done, the listener holds streams, or an event came at
    /// its watch. Without a watch it may.
    fn may_be_busy(&self) -> bool
        ensures { result ≡ false → list_any (λ row. is_some row) self.now.handshakes.rows.items ≡ false }
    {
        if self.handshakes.may_be_busy() {
            return true;
        }
        match &self.seat {
            Some(seat) => seat.is_hot() || self.backlog != Backlog::Empty || !self.done.is_empty(),
            None => true,
        }
    }

    /// The link that was done first. One of another kind isn't handed out.
    fn take_done(&mut self) -> Option<SocketLink<R>>
        ensures asked { IfSome result (λ l. (l.kind ≡ self.old.kind) × ¬ (¬ Heard)) }
        ensures faults { self.new.faults ≡ self.old.faults }
        ensures quiets { self.new.quiets ≡ self.old.quiets }
        ensures bound { self.new.bound ≡ self.old.bound }
        ensures kind { self.new.kind ≡ self.old.kind }
    {
        let link = self.done.pop()?;
        if link.kind() == self.kind {
            Some(link)
        } else {
            None
        }
    }

    /// The link that is done first, within so many milliseconds.
    fn wait_for(&mut self, alloc: Global, wait_ms: u32) -> io::Result<Option<SocketLink<R>>>
        ensures asked { IfOk result (λ o. IfSome o (λ l. (l.kind ≡ self.old.kind) × ¬ (¬ Heard))) }
        ensures faults { self.new.faults ≡ self.old.faults }
        ensures quiets { self.new.quiets ≡ self.old.quiets }
        ensures bound { self.new.bound ≡ self.old.bound }
        ensures kind { self.new.kind ≡ self.old.kind }
    {
        if wait_ms == 0 && !self.may_be_busy() {
            return Ok(None);
        }
        let mut now = Moment::now(&self.rt)?;
        let until = now.after(wait_ms);
        for _ in 0..u64::MAX {
            if let Some(link) = self.take_done() {
                return Ok(Some(link));
            }
            let left = until.left(now);
            now = self.turn(alloc, left)?;
            if left == 0 {
                return Ok(self.take_done());
            }
        }
        Ok(None)
    }
}

impl<R: Clock + Net + Wait + RandomSource + Copy + Drop> Acceptor<SocketLink<R>>
    for HandshakeAcceptor<R> {
    ghost faults = { λ g. g.faults };

    ghost quiets = { λ g. g.quiets };

    ghost bound = { λ g. Some g.bound };

    ghost left = { λ _. None };

    ghost came_fresh = { λ _. refl };

    ghost waits = { λ _. None };

    fn bind(&mut self, port: u16, _owner: Vmac) -> Result<(), Failed>
        // It stays of the kind that it was made for.
        ensures kind { self.new.kind ≡ self.old.kind }
        ensures bound { IfOk result (λ _. ToldIs (Some self.new.bound) (Some port)) }
        ensures later { self.old.faults ≤ self.new.faults }
        ensures failed { IsErr result → HasRisen self.old.faults self.new.faults }
        ensures quiets { self.old.quiets ≤ self.new.quiets }
    {
        match self.listen(port) {
            Ok(()) => Ok(()),
            Err(_) => {
                self.faults = self.faults.saturating_add(1);
                Err(Failed)
            }
        }
    }

    fn next(&mut self, alloc: Global, wait_ms: u32) -> Result<Arrived<SocketLink<R>>, LinkFault>
        // A link that is handed out was asked for: it isn't so that no head was taken which asks for an upgrade with a valid key.
        ensures asked { IfLink result (λ _. ¬ (¬ Heard)) }
        // It is of the gate's kind.
        ensures kind { IfLink result (λ l. l.kind ≡ self.old.kind) }
        ensures bound { Stays (Some self.old.bound) (Some self.new.bound) }
        ensures left { Leaves None None result }
        ensures came { Grows None None (arrived_in result) }
        ensures fresh { list_all (λ _. true) (arrived_in result) ≡ true }
        ensures waits { Grows None None (wait_ms ∷ []) }
        ensures later { self.old.faults ≤ self.new.faults }
        ensures failed { result ≡ Err LinkFault.Failed → HasRisen self.old.faults self.new.faults }
        ensures quiets { self.old.quiets ≤ self.new.quiets }
        ensures quiet { IsNoLink result → HasRisen self.old.quiets self.new.quiets }
    {
        match self.wait_for(alloc, wait_ms) {
            Ok(Some(link)) => Ok(Arrived::Link(link)),
            Ok(None) => {
                self.quiets = self.quiets.saturating_add(1);
                Ok(Arrived::Quiet)
            }
            Err(_) => {
                self.faults = self.faults.saturating_add(1);
                Err(LinkFault::Failed)
            }
        }
    }

    fn wake_all(&mut self, _at: u64) {
        self.bells.ring_all(&self.rt);
    }
}
