//! What a stream is told of its socket, and whom its link tells.
use crate::live::{ends, received};
use bsc_edge::Patience;
use bsc_live::{DeferredWakes, LivePatience, LiveStream, Wakers};
use std::io::{ErrorKind, Write};
use std::net::Shutdown;
use std::sync::Arc;
use std::test::*;
use std::thread;
use std::time::Duration;

/// Octets that come behind a read that took all, before the next one and during it, are read at once, and so is the end that comes
/// with some.
#[test]
fn what_comes_behind_a_read_is_told(rt: HostRuntime) -> Result<(), Fail> {
    let alloc = rt.alloc();
    let (near, mut far) = ends(&rt)?;
    let mut stream = LiveStream::over(rt, alloc, near, 50)?;
    let bell = stream.bell()?;
    bell.set_wait(20);
    assert!(rt; received(&rt, &mut stream) == Err(ErrorKind::WouldBlock));
    far.write_all(b"octets")?;
    bell.set_wait(600_000);
    assert!(rt; received(&rt, &mut stream) == Ok(6));
    far.write_all(b"octet")?;
    thread::sleep(&rt, Duration::from_millis(20));
    bell.set_wait(600_000);
    assert!(rt; received(&rt, &mut stream) == Ok(5));
    let (heard, sent) = thread::join(
        &rt,
        move || -> bool {
            let mut heard = true;
            for wanted in [3, 4, 0] {
                bell.set_wait(600_000);
                heard = received(&rt, &mut stream) == Ok(wanted) && heard;
            }
            heard
        },
        move || -> bool {
            // Most often the reader sleeps by then; where it doesn't, all is told at once.
            thread::sleep(&rt, Duration::from_millis(50));
            let first = far.write_all(b"abc").is_ok();
            thread::sleep(&rt, Duration::from_millis(50));
            let second = far.write_all(b"abcd").is_ok();
            let end = far.shutdown(Shutdown::Write).is_ok();
            thread::sleep(&rt, Duration::from_millis(50));
            first && second && end
        },
    );
    assert!(rt; sent && heard);
    Ok(())
}

/// How a sleep is ended by another thread.
#[derive(Clone, Copy)]
enum Rung {
    /// By a ring.
    AtOnce,
    /// By a ring that was put off, as the stream of the link that owes it is read.
    AsRead,
    /// At the eighth wait of that link.
    AtTheEighthWait,
    /// As that link is dropped.
    AsDropped,
}

/// A ring from another thread ends a sleep. What a link owes is rung as its stream is read, at the eighth wait, and as it is
/// dropped.
#[test]
fn a_ring_ends_a_sleep(rt: HostRuntime) -> Result<(), Fail> {
    let alloc = rt.alloc();
    for rung in [
        Rung::AtOnce,
        Rung::AsRead,
        Rung::AtTheEighthWait,
        Rung::AsDropped,
    ] {
        let bells = Arc::new(alloc, Wakers::new(alloc)?)?;
        let (near, _far) = ends(&rt)?;
        let debts = Arc::new(alloc, DeferredWakes::new(alloc))?;
        let mut from = LiveStream::over(rt, alloc, near, 50)?.ringing(&debts)?;
        let sender = LivePatience::new(rt, from.bell()?, Arc::try_clone(&bells)?);
        let mut sender = sender.owing(debts);
        let (near, _other) = ends(&rt)?;
        let mut to = LiveStream::over(rt, alloc, near, 50)?;
        let bell = to.bell()?;
        let mut receiver = LivePatience::new(rt, to.bell()?, Arc::try_clone(&bells)?);
        sender.set_connection(3);
        receiver.set_connection(7);
        assert_eq!(rt; receiver.set(600_000), Ok(()));
        let (comes_back, _left) = thread::join(
            &rt,
            move || -> bool { received(&rt, &mut to) == Err(ErrorKind::WouldBlock) },
            move || -> Option<LivePatience<HostRuntime>> {
                // Most often the other one sleeps by then; where it doesn't, the ring comes at once and is kept.
                thread::sleep(&rt, Duration::from_millis(50));
                if let Rung::AtOnce = rung {
                    bell.ring();
                    return Some(sender);
                }
                sender.wake(7);
                sender.wake(8);
                if let Rung::AsDropped = rung {
                    drop(sender);
                    return None;
                }
                let waits = if let Rung::AsRead = rung { 1u32 } else { 8 };
                for _ in 0..waits {
                    let _ = sender.set(0);
                    sender.wake(7);
                }
                if let Rung::AsRead = rung {
                    let _ = received(&rt, &mut from);
                }
                Some(sender)
            },
        );
        assert!(rt; comes_back);
    }
    Ok(())
}
