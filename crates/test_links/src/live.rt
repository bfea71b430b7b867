//! Rings before a sleep, octets beside rings, and a write that its peer doesn't take.
use bsc_edge::Patience;
use bsc_live::{LivePatience, LiveStream, Moment, Wakers};
use mio::net::TcpStream;
use std::io::{self, ErrorKind, Read, Write};
use std::net::{self, Ipv4Addr, SocketAddr, TcpListener};
use std::sync::{Arc, Wait};
use std::test::*;
use std::time::Clock;

/// Two ends of a connection over loopback.
pub fn ends(rt: &HostRuntime) -> io::Result<(TcpStream, net::TcpStream)> {
    let listener = TcpListener::bind(rt, SocketAddr::from((Ipv4Addr::LOCALHOST, 0)))?;
    let near = TcpStream::connect(rt, listener.local_addr()?)?;
    let (far, _) = listener.accept()?;
    Ok((near, far))
}

/// How many octets a read gives that might wait for ten minutes, or why it gives none: `WouldBlock` where nothing came,
/// `TimedOut` where it took more than five minutes.
pub fn received<R: Clock + Wait + Drop>(
    rt: &R,
    stream: &mut LiveStream<R>,
) -> Result<usize, ErrorKind> {
    let mut into = [0u8; 64];
    let Ok(begun) = Moment::now(rt) else {
        return Err(ErrorKind::TimedOut);
    };
    let came = stream.read(&mut into);
    let Ok(end) = Moment::now(rt) else {
        return Err(ErrorKind::TimedOut);
    };
    if end.left(begun) >= 300_000_000 {
        return Err(ErrorKind::TimedOut);
    }
    match came {
        Ok(n) => Ok(n),
        Err(error) => Err(error.kind()),
    }
}

/// A ring before the sleep ends the next sleep, and one of another connection doesn't count. Rings before each sleep don't keep
/// octets from being read. What the peer doesn't read runs out of its time.
#[test]
fn a_ring_before_the_sleep_is_kept(rt: HostRuntime) -> Result<(), Fail> {
    let alloc = rt.alloc();
    let (near, mut far) = ends(&rt)?;
    let mut stream = LiveStream::over(rt, alloc, near, 50)?;
    let bell = stream.bell()?;
    let bells = Arc::new(alloc, Wakers::new(alloc)?)?;
    let mut patience = LivePatience::new(rt, stream.bell()?, bells);
    patience.set_connection(7);
    assert_eq!(rt; patience.set(600_000), Ok(()));
    patience.wake(8);
    patience.wake(7);
    assert!(rt; received(&rt, &mut stream) == Err(ErrorKind::WouldBlock));
    far.write_all(b"octets")?;
    let mut is_read = false;
    for _ in 0..3u32 {
        bell.ring();
        bell.set_wait(600_000);
        is_read = is_read || received(&rt, &mut stream) == Ok(6);
    }
    assert!(rt; is_read);
    for _ in 0..100_000u32 {
        if let Err(error) = stream.write(&[0u8; 4096]) {
            assert!(rt; error.kind() == ErrorKind::TimedOut);
            return Ok(());
        }
    }
    panic!(rt; "a write runs out of its time")
}
