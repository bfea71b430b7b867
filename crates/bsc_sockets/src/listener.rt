//! The real acceptor, and what an operator is told of it.
ghost use Rattle.std.specs.Prelude.{◌≡◌, ◌≤◌, true, ◌&&◌, [], None, Some, IfOk};
ghost use Rattle.std.specs.List.{list_all};
ghost use Rattle.bsc_edge.specs.Told.{arrived_in, is_untold};
ghost use Rattle.bsc_sockets.specs.Telling.{TellsRise, risen};

use crate::boxed_link::BoxedLink;
use crate::links::RealLink;
use crate::numbers::Numbers;
use crate::waiting::Shared;
use bsc_edge::{Acceptor, Arrived, Failed, Kind, Link, LinkFault, ToldLink};
use bsc_gate::{HandshakeAcceptor, Turned};
use bsc_live::Wakers;
use bsc_log::{LoggedAcceptor, Logging, Turning, logging_of};
use bsc_octets::Vmac;
use bsc_past::Past;
use std::alloc::Global;
use std::env::Env;
use std::io::{self, Eprint, Stderr};
use std::net::{Ipv4Addr, Net};
use std::random::RandomSource;
use std::sync::{Arc, Wait};
use std::time::Clock;

/// At most so many handshakes are at work.
const PLACES: usize = 256;

/// A gate that is made where it is bound, and tells on standard error what is behind it; with a log, where it has somewhere to write
/// one and the environment asks for it. It tells contracts to which port it is bound, how long it was asked to wait, which links
/// came, and with which Stops it woke all of them.
#[derive(Drop)]
pub struct Listener<R: Clock + Net + Wait + Eprint + Copy + Drop> {
    rt: R,
    alloc: Global,
    kind: Kind,
    shared: Shared,
    /// Where a log is written, if anywhere.
    stderr: Option<Stderr>,
    gate: Option<LoggedAcceptor<HandshakeAcceptor<R>, R>>,
    /// Where it keeps what it counts for others to see, if anywhere.
    numbers: Option<Arc<Numbers>>,
    links: u64,
    faults: u64,
    quiets: u64,
    bound: Option<u16>,
    waits: Past<u32>,
    came: Past<RealLink<R>>,
    stops: Past<u64>,
    // Nothing was said on a link that came, when it came.
    ghost came_fresh: { list_all (λ l. is_untold (Some l.link.value.talk.items) && is_untold (Some l.link.value.notices.items)) came.items ≡ true },
}

impl<R: Clock + Net + Wait + Eprint + Copy + Drop> Listener<R> {
    pub fn new(rt: R, alloc: Global, kind: Kind, shared: Shared) -> Listener<R>
        ensures bound { result.bound ≡ None }
        ensures waits { result.waits.items ≡ [] }
        ensures came { result.came.items ≡ [] }
        ensures stops { result.stops.items ≡ [] }
    {
        Listener {
            rt,
            alloc,
            kind,
            shared,
            stderr: None,
            gate: None,
            numbers: None,
            links: 0,
            faults: 0,
            quiets: 0,
            bound: None,
            waits: Past::new(),
            came: Past::new(),
            stops: Past::new(),
        }
    }

    /// The same door, with a log there, where the environment asks for one.
    pub fn logged_at(self, stderr: Stderr) -> Listener<R>
        ensures rt { result.rt ≡ self.rt }
        ensures alloc { result.alloc ≡ self.alloc }
        ensures kind { result.kind ≡ self.kind }
        ensures shared { result.shared ≡ self.shared }
        ensures stderr { result.stderr ≡ Some stderr }
        ensures gate { result.gate ≡ self.gate }
        ensures faults { result.faults ≡ self.faults }
        ensures quiets { result.quiets ≡ self.quiets }
        ensures bound { result.bound ≡ self.bound }
        ensures waits { result.waits ≡ self.waits }
        ensures came { result.came ≡ self.came }
        ensures stops { result.stops ≡ self.stops }
    {
        let mut door = self;
        door.stderr = Some(stderr);
        door
    }

    /// The same door, which keeps there how many links have come, and how many streams it turned away.
    pub fn counted_at(self, numbers: Arc<Numbers>) -> Listener<R>
        ensures bound { result.bound ≡ self.bound }
        ensures waits { result.waits ≡ self.waits }
        ensures came { result.came ≡ self.came }
        ensures stops { result.stops ≡ self.stops }
    {
        let mut door = self;
        door.numbers = Some(numbers);
        door
    }
}

/// What the logs of links share that are written there, if anywhere, where the environment asks for them.
fn logging_at<R: Env + Copy>(
    rt: R,
    stderr: Option<Stderr>,
    alloc: Global,
    kind: Kind,
) -> Option<Logging<R>> {
    match stderr {
        Some(stderr) => logging_of(rt, stderr, alloc, kind),
        None => None,
    }
}

/// The same gate, which shares this with the links of the program.
fn sharing<R: Clock + Net + Wait + RandomSource + Copy + Drop>(
    gate: HandshakeAcceptor<R>,
    shared: &Shared,
) -> io::Result<HandshakeAcceptor<R>>
    ensures kind { IfOk result (λ g. g.kind ≡ gate.kind) }
    ensures bound { IfOk result (λ g. g.bound ≡ gate.bound) }
{
    let Ok(lingering) = Arc::try_clone(&shared.lingering) else {
        return Err(io::Error::from(io::ErrorKind::OutOfMemory));
    };
    let gate = gate.lingering_at(lingering);
    match &shared.watch {
        Some(watch) => match Arc::try_clone(watch) {
            Ok(watch) => gate.watched_by(watch),
            Err(_) => Err(io::Error::from(io::ErrorKind::OutOfMemory)),
        },
        None => Ok(gate),
    }
}

/// A gate for links of this kind that is bound to this port, for this owner.
fn open<R: Clock + Net + Wait + RandomSource + Copy + Drop>(
    rt: R,
    alloc: Global,
    kind: Kind,
    port: u16,
    owner: Vmac,
    shared: &Shared,
) -> io::Result<HandshakeAcceptor<R>>
    ensures kind { IfOk result (λ g. g.kind ≡ kind) }
    ensures bound { IfOk result (λ g. g.bound ≡ Some port) }
{
    let Ok(bells) = Wakers::new(alloc) else {
        return Err(io::Error::from(io::ErrorKind::OutOfMemory));
    };
    let bells = Arc::new(alloc, bells)?;
    let gate = HandshakeAcceptor::new(rt, alloc, Ipv4Addr::LOCALHOST, kind, bells, PLACES)?;
    let mut gate = sharing(gate, shared)?;
    match gate.bind(port, owner) {
        Ok(()) => Ok(gate),
        Err(_) => Err(io::Error::from(io::ErrorKind::AddrInUse)),
    }
}

/// Tells on standard error who takes links of this kind at this port.
fn tell_open<R: Eprint>(rt: &R, kind: Kind, port: u16, owner: Vmac) {
    let [a, b, c, d, e, f] = owner.0;
    let (who, takes, protocol) = match kind {
        Kind::Hub => ("hub", "serves", "hub.bsc.bacnet.org"),
        Kind::Direct => ("node", "accepts", "dc.bsc.bacnet.org"),
    };
    let _ = eprintln!(rt;
        "bsc: {who} {a:02X}{b:02X}{c:02X}{d:02X}{e:02X}{f:02X} {takes} ws://127.0.0.1:{port}/ as {protocol}"
    );
}

/// How many streams were turned away between these counts of a gate, by why.
fn risen(before: Turned, after: Turned) -> [(Turning, u64); 7]
    ensures { result ≡ risen before after }
{
    [
        (
            Turning::NoProtocol,
            after.no_protocol.saturating_sub(before.no_protocol),
        ),
        (Turning::Late, after.late.saturating_sub(before.late)),
        (
            Turning::LongHead,
            after.long_head.saturating_sub(before.long_head),
        ),
        (
            Turning::NoDescriptor,
            after.no_descriptor.saturating_sub(before.no_descriptor),
        ),
        (
            Turning::PushedOut,
            after.pushed_out.saturating_sub(before.pushed_out),
        ),
        (
            Turning::NoMemory,
            after.no_memory.saturating_sub(before.no_memory),
        ),
        (Turning::Failed, after.failed.saturating_sub(before.failed)),
    ]
}

/// Keeps there, if anywhere, how many links have come, and how many streams the gate turned away.
fn keep_numbers<R: Clock + Net + Wait + RandomSource + Copy + Drop>(
    numbers: &Option<Arc<Numbers>>,
    gate: &Option<LoggedAcceptor<HandshakeAcceptor<R>, R>>,
    links: u64,
) {
    if let (Some(numbers), Some(gate)) = (numbers, gate) {
        numbers.store_links(links);
        numbers.store_turned(gate.acceptor().turned());
    }
}

/// How many links have come, with what was answered now.
fn links_after<L>(links: u64, answer: &Result<Arrived<L>, LinkFault>) -> u64 {
    match answer {
        Ok(Arrived::Link(_)) => links.saturating_add(1),
        Ok(Arrived::Quiet) | Err(_) => links,
    }
}

/// What a gate answers next, in memory of its own. Its log tells which streams it turned away meanwhile.
fn next_of<R: Clock + Net + Wait + RandomSource + Copy + Drop>(
    gate: &mut LoggedAcceptor<HandshakeAcceptor<R>, R>,
    alloc: Global,
    wait_ms: u32,
) -> Result<Arrived<RealLink<R>>, LinkFault>
    ensures fresh { list_all (λ l. is_untold (⟦<RealLink<R> as Link>⟧.talk l) && is_untold (⟦<RealLink<R> as Link>⟧.notices l))
        (arrived_in result) ≡ true }
    ensures told { TellsRise gate.old.acceptor.handshakes.turned gate.new.acceptor.handshakes.turned gate.old.logging gate.new.logging }
{
    let before = gate.acceptor().turned();
    let answer = gate.next(alloc, wait_ms);
    let after = gate.acceptor().turned();
    if before != after {
        gate.tell_turned(&risen(before, after));
    }
    boxed(alloc, answer)
}

/// What an acceptor answered, with its link in memory of its own.
fn boxed<L: Link + Drop>(
    alloc: Global,
    answer: Result<Arrived<L>, LinkFault>,
) -> Result<Arrived<BoxedLink<ToldLink<L>>>, LinkFault>
    ensures fresh { list_all (λ l. is_untold (⟦<BoxedLink<ToldLink<L>> as Link>⟧.talk l) && is_untold (⟦<BoxedLink<ToldLink<L>> as Link>⟧.notices l))
        (arrived_in result) ≡ true }
{
    match answer {
        Ok(Arrived::Link(link)) => {
            Ok(Arrived::Link(BoxedLink::new(alloc, ToldLink::new(link))?))
        }
        Ok(Arrived::Quiet) => Ok(Arrived::Quiet),
        Err(fault) => Err(fault),
    }
}

impl<R: Clock + Net + Wait + Eprint + Env + RandomSource + Copy + Drop> Acceptor<RealLink<R>>
    for Listener<R> {
    ghost faults = { λ d. d.faults };

    ghost quiets = { λ d. d.quiets };

    ghost bound = { λ d. Some d.bound };

    ghost left = { λ _. None };

    ghost came = { λ d. Some d.came.items };

    ghost waits = { λ d. Some d.waits.items };

    ghost stops = { λ d. Some d.stops.items };

    // Nothing was said on a link that comes.
    ghost fresh = { λ l. is_untold (⟦<RealLink<R> as Link>⟧.talk l) && is_untold (⟦<RealLink<R> as Link>⟧.notices l) };

    ghost came_fresh = { λ d. d.came_fresh };

    fn bind(&mut self, port: u16, owner: Vmac) -> Result<(), Failed> {
        match open(self.rt, self.alloc, self.kind, port, owner, &self.shared) {
            Ok(gate) => {
                tell_open(&self.rt, self.kind, port, owner);
                let logging = logging_at(self.rt, self.stderr, self.alloc, self.kind);
                self.bound = gate.port();
                self.gate = Some(LoggedAcceptor::new(gate, logging));
                Ok(())
            }
            Err(_) => {
                self.faults = self.faults.saturating_add(1);
                Err(Failed)
            }
        }
    }

    fn next(&mut self, alloc: Global, wait_ms: u32) -> Result<Arrived<RealLink<R>>, LinkFault> {
        let answer = match &mut self.gate {
            Some(gate) => next_of(gate, alloc, wait_ms),
            None => Err(LinkFault::Failed),
        };
        self.links = links_after(self.links, &answer);
        keep_numbers(&self.numbers, &self.gate, self.links);
        self.waits.add(&wait_ms);
        match &answer {
            Ok(Arrived::Link(link)) => self.came.add(link),
            Ok(Arrived::Quiet) => self.quiets = self.quiets.saturating_add(1),
            Err(LinkFault::Failed) => self.faults = self.faults.saturating_add(1),
            _ => {}
        }
        answer
    }

    fn wake_all(&mut self, at: u64) {
        self.stops.add(&at);
        if let Some(gate) = &mut self.gate {
            gate.wake_all(at);
        }
    }
}
