//! One wait for a gate and for a link, over loopback.
use bsc_edge::{Acceptor, Arrived, Incoming, Kind, Link, Waiter};
use bsc_gate::{HandshakeAcceptor, SocketLink};
use bsc_live::{Moment, Seat, SeatWaker, Wakers, Watcher};
use bsc_octets::Vmac;
use std::alloc::Global;
use std::io::Write;
use std::net::{Ipv4Addr, Net, SocketAddr, TcpStream};
use std::random::RandomSource;
use std::sync::{Arc, Wait};
use std::test::*;
use std::thread;
use std::time::{Clock, Duration};

/// A handshake with the key that the standard has for an example (RFC 6455, 1.3).
const HANDSHAKE: &str = concat!(
    "GET / HTTP/1.1\r\nHost: localhost\r\nUpgrade: websocket\r\nConnection: Upgrade\r\n",
    "Sec-WebSocket-Key: dGhlIHNhbXBsZSBub25jZQ==\r\nSec-WebSocket-Version: 13\r\n",
    "Sec-WebSocket-Protocol: dc.bsc.bacnet.org\r\n\r\n",
);

/// What comes within five waits for a gate and for the link that arrived there: the first octet of a message, A for who arrives,
/// C for a close, F for a fault. The first waits may find only that there is no more of what came before.
fn comes<R: Clock + Net + Wait + RandomSource + Copy + Drop>(
    alloc: Global,
    watcher: &mut Watcher<R>,
    gate: &mut HandshakeAcceptor<R>,
    link: &mut Option<SocketLink<R>>,
    most_ms: u32,
) -> Option<u8> {
    for _ in 0..5u32 {
        watcher.wait(most_ms);
        if let Ok(Arrived::Link(arrived)) = gate.next(alloc, 0) {
            *link = Some(arrived);
            return Some(b'A');
        }
        if let Some(link) = link {
            match link.receive(alloc, 0) {
                Ok(Incoming::Message(m)) => return m.as_slice().first().copied(),
                Ok(Incoming::Closed) => return Some(b'C'),
                Ok(Incoming::Quiet) => {}
                _ => return Some(b'F'),
            }
        }
    }
    None
}

/// Whether what came, wait by wait, is right, and how many microseconds it took: until all messages were there, where nothing came, and until the close.
#[derive(Drop)]
struct Scene {
    is_right: bool,
    heard: u64,
    rested: u64,
    closed: u64,
}

/// A peer arrives at this port. It sends three messages in one write, with the first octets of a fourth, then the rest of that,
/// then nothing, and then a close.
fn meet<R: Clock + Net + Wait + RandomSource + Copy + Drop>(
    rt: R,
    alloc: Global,
    watcher: &mut Watcher<R>,
    gate: &mut HandshakeAcceptor<R>,
    link: &mut Option<SocketLink<R>>,
    port: u16,
) -> Option<Scene> {
    let begun = Moment::now(&rt).ok()?;
    let at = SocketAddr::from((Ipv4Addr::LOCALHOST, port));
    let mut far = TcpStream::connect(&rt, at).ok()?;
    far.write_all(HANDSHAKE.as_bytes()).ok()?;
    let arrived = comes(alloc, watcher, gate, link, 10_000);
    far.write_all(b"\x82\x81\0\0\0\0a\x82\x81\0\0\0\0b\x82\x81\0\0\0\0c\x82\x81\0")
        .ok()?;
    let first = comes(alloc, watcher, gate, link, 10_000);
    let second = comes(alloc, watcher, gate, link, 10_000);
    let third = comes(alloc, watcher, gate, link, 10_000);
    far.write_all(b"\0\0\0d").ok()?;
    let fourth = comes(alloc, watcher, gate, link, 10_000);
    let heard = Moment::now(&rt).ok()?;
    let nothing = comes(alloc, watcher, gate, link, 50);
    let rested = Moment::now(&rt).ok()?;
    far.write_all(b"\x88\x80\0\0\0\0").ok()?;
    let close = comes(alloc, watcher, gate, link, 10_000);
    let closed = Moment::now(&rt).ok()?;
    let came = [arrived, first, second, third, fourth, nothing, close];
    let wanted = [
        Some(b'A'),
        Some(b'a'),
        Some(b'b'),
        Some(b'c'),
        Some(b'd'),
        None,
        Some(b'C'),
    ];
    Some(Scene {
        is_right: came == wanted,
        heard: heard.left(begun),
        rested: rested.left(heard),
        closed: closed.left(rested),
    })
}

/// Each wait of ten seconds ends long before its time: for who arrives, for messages of which three come in one write and one in
/// pieces, and for a close. Where nothing comes, waits last their time.
#[test]
fn a_wait_ends_when_something_comes(rt: HostRuntime) -> Result<(), Fail> {
    let alloc = rt.alloc();
    let mut watcher = Watcher::new(rt, alloc, 4)?;
    let bells = Arc::new(alloc, Wakers::new(alloc)?)?;
    let gate = HandshakeAcceptor::new(rt, alloc, Ipv4Addr::LOCALHOST, Kind::Direct, bells, 8)?;
    let mut gate = gate.watched_by(watcher.watch()?)?;
    let mut link = None;
    assert!(rt; gate.bind(0, Vmac([0; 6])).is_ok());
    let port = match gate.address() {
        Some(address) => address.port(),
        None => 0,
    };
    let Some(
        Scene {
            is_right,
            heard,
            rested,
            closed,
        },
    ) = meet(rt, alloc, &mut watcher, &mut gate, &mut link, port)
    else {
        panic!(rt; "the peer does all of it");
    };
    assert!(rt; is_right);
    assert!(rt; heard < 9_000_000);
    assert!(rt; 90_000 < rested);
    assert!(rt; closed < 9_000_000);
    Ok(())
}

/// Wakes once, and lets its waker go right behind that.
fn wake_once(waker: SeatWaker) {
    waker.wake();
}

/// A wake from another thread ends a wait of ten seconds at once, also where its waker is gone by then. Where none comes behind it, a
/// wait lasts its time.
#[test]
fn a_wake_ends_a_wait(rt: HostRuntime) -> Result<(), Fail> {
    let mut watcher = Watcher::new(rt, rt.alloc(), 2)?;
    let (seat, waker) = Seat::with_waker(rt.alloc(), &watcher.watch()?)?;
    seat.set_hot(false);
    let begun = Moment::now(&rt)?;
    let (mut watcher, ()) = thread::join(
        &rt,
        move || -> Watcher<HostRuntime> {
            watcher.wait(10_000);
            watcher
        },
        move || {
            // Most often the other one sleeps by then; where it doesn't, its wait takes no time.
            thread::sleep(&rt, Duration::from_millis(20));
            wake_once(waker);
        },
    );
    let woken = Moment::now(&rt)?;
    assert!(rt; seat.is_hot());
    assert!(rt; woken.left(begun) < 9_000_000);
    seat.set_hot(false);
    watcher.wait(50);
    assert!(rt; !seat.is_hot());
    assert!(rt; 45_000 < Moment::now(&rt)?.left(woken));
    Ok(())
}
