//! A gate, a stream that says nothing, and dialers of both kinds; and a Stop that ends a wait.
use bsc_edge::{Acceptor, Arrived, Dialer, Incoming, Kind, Link, LinkFault};
use bsc_gate::{HandshakeAcceptor, SocketLink, SocketOpener};
use bsc_live::{Moment, Wakers};
use bsc_octets::Vmac;
use bsc_ws::StreamDialer;
use mio::net::TcpStream;
use std::alloc::Global;
use std::net::{Ipv4Addr, SocketAddr};
use std::sync::Arc;
use std::test::*;
use std::thread;
use std::time::{Clock, Duration};

/// The next message, however many quiets come before.
fn message<L: Link>(alloc: Global, link: &mut L) -> Option<Vec<u8>> {
    for _ in 0..1_000 {
        match link.receive(alloc, 100) {
            Ok(Incoming::Message(m)) => return Some(m.into_vec()),
            Ok(Incoming::Quiet) => {}
            _ => return None,
        }
    }
    None
}

/// Of the links of both kinds that are dialled one is refused, and over the other a message goes there and back, while a silent
/// stream is turned away as late.
#[test]
fn a_dialer_meets_a_gate(rt: HostRuntime) -> Result<(), Fail> {
    let alloc = rt.alloc();
    let bells = Arc::new(alloc, Wakers::new(alloc)?)?;
    let others = Arc::try_clone(&bells)?;
    let mut gate = HandshakeAcceptor::new(rt, alloc, Ipv4Addr::LOCALHOST, Kind::Hub, bells, 8)?;
    assert!(rt; gate.bind(0, Vmac([0; 6])).is_ok());
    let port = match gate.address() {
        Some(address) => address.port(),
        None => 0,
    };
    let at = SocketAddr::from((Ipv4Addr::LOCALHOST, port));
    let silent = TcpStream::connect(&rt, at)?;
    let (served, dialled) = thread::join(
        &rt,
        move || -> bool {
            let mut echoed = false;
            for _ in 0..200 {
                if let Ok(Arrived::Link(link)) = gate.next(alloc, 50) {
                    let mut link = link;
                    if let Some(m) = message(alloc, &mut link) {
                        echoed = link.put(alloc, m.as_slice()).is_ok();
                    }
                }
                let turned = gate.turned();
                if echoed && turned.no_protocol == 1 && turned.late == 1 {
                    return true;
                }
            }
            false
        },
        move || -> bool {
            let mut dialer = StreamDialer::new(SocketOpener::new(rt, others));
            let Ok(uri) = format!(in alloc; "ws://localhost:{port}/") else {
                return false;
            };
            let other = dialer.dial(alloc, uri.as_bytes(), Kind::Direct);
            if !matches!(other, Err(LinkFault::Failed)) {
                return false;
            }
            let Ok(link) = dialer.dial(alloc, uri.as_bytes(), Kind::Hub) else {
                return false;
            };
            let mut link = link;
            if link.put(alloc, b"over").is_err() {
                return false;
            }
            match message(alloc, &mut link) {
                Some(m) => m.as_slice() == b"over".as_slice(),
                None => false,
            }
        },
    );
    drop(silent);
    assert!(rt; served);
    assert!(rt; dialled);
    Ok(())
}

/// Whether a receive that might wait for ten minutes gives nothing within five.
fn comes_back<R: Clock, L: Link>(rt: &R, alloc: Global, link: &mut L) -> bool {
    let Ok(begun) = Moment::now(rt) else {
        return false;
    };
    let came = link.receive(alloc, 600_000);
    let Ok(end) = Moment::now(rt) else {
        return false;
    };
    matches!(came, Ok(Incoming::Quiet)) && end.left(begun) < 300_000_000
}

/// The wait of a link that a gate has handed out ends long before its time: at a Stop, and then as another link wakes it.
#[test]
fn a_stop_and_a_wake_end_waits(rt: HostRuntime) -> Result<(), Fail> {
    let alloc = rt.alloc();
    let bells = Arc::new(alloc, Wakers::new(alloc)?)?;
    let others = Arc::try_clone(&bells)?;
    let mut gate = HandshakeAcceptor::new(rt, alloc, Ipv4Addr::LOCALHOST, Kind::Hub, bells, 8)?;
    assert!(rt; gate.bind(0, Vmac([0; 6])).is_ok());
    let port = match gate.address() {
        Some(address) => address.port(),
        None => 0,
    };
    let (served, dialled) = thread::join(
        &rt,
        move || -> Option<(HandshakeAcceptor<HostRuntime>, SocketLink<HostRuntime>)> {
            for _ in 0..200u32 {
                if let Ok(Arrived::Link(link)) = gate.next(alloc, 50) {
                    return Some((gate, link));
                }
            }
            None
        },
        move || -> Option<SocketLink<HostRuntime>> {
            let mut dialer = StreamDialer::new(SocketOpener::new(rt, others));
            let Ok(uri) = format!(in alloc; "ws://localhost:{port}/") else {
                return None;
            };
            match dialer.dial(alloc, uri.as_bytes(), Kind::Hub) {
                Ok(link) => Some(link),
                Err(_) => None,
            }
        },
    );
    let (Some((mut gate, mut link)), Some(mut dialled)) = (served, dialled) else {
        panic!(rt; "a link comes");
    };
    link.set_connection(7);
    let ((stopped, mut link), gate) = thread::join(
        &rt,
        move || -> (bool, SocketLink<HostRuntime>) {
            let back = comes_back(&rt, alloc, &mut link);
            (back, link)
        },
        move || -> HandshakeAcceptor<HostRuntime> {
            // Most often the link sleeps by then; where it doesn't, the ring is kept.
            thread::sleep(&rt, Duration::from_millis(50));
            gate.wake_all(0);
            gate
        },
    );
    let (woken, dialled) = thread::join(
        &rt,
        move || -> bool { comes_back(&rt, alloc, &mut link) },
        move || -> SocketLink<HostRuntime> {
            thread::sleep(&rt, Duration::from_millis(50));
            dialled.wake(7);
            dialled
        },
    );
    drop(dialled);
    drop(gate);
    assert!(rt; stopped);
    assert!(rt; woken);
    Ok(())
}

/// A gate that is bound to a port listens there, and tells it.
#[test]
fn listens_at_its_port(rt: HostRuntime) -> Result<(), Fail> {
    let alloc = rt.alloc();
    let bells = Arc::new(alloc, Wakers::new(alloc)?)?;
    let others = Arc::try_clone(&bells)?;
    let mut first = HandshakeAcceptor::new(rt, alloc, Ipv4Addr::LOCALHOST, Kind::Hub, bells, 1)?;
    assert!(rt; first.bind(0, Vmac([0; 6])).is_ok());
    let free = match first.address() {
        Some(address) => address.port(),
        None => 0,
    };
    drop(first);
    let mut second = HandshakeAcceptor::new(rt, alloc, Ipv4Addr::LOCALHOST, Kind::Hub, others, 1)?;
    assert!(rt; second.bind(free, Vmac([0; 6])).is_ok());
    let port = match second.address() {
        Some(address) => address.port(),
        None => 0,
    };
    assert!(rt; free != 0 && port == free && second.port() == Some(free));
    Ok(())
}
