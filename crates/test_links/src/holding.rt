//! Streams that hold what is written, over loopback.
use crate::live::{ends, received};
use bsc_live::LiveStream;
use std::io::{ErrorKind, Read, Write};
use std::test::*;

/// What is written in pieces leaves together at the next read. More than is held leaves at once, in its order, and what is
/// written last as the stream is dropped.
#[test]
fn what_is_held_leaves_together(rt: HostRuntime) -> Result<(), Fail> {
    let alloc = rt.alloc();
    let (near, mut far) = ends(&rt)?;
    let mut stream = LiveStream::over(rt, alloc, near, 50)?.holding();
    let mut into = [0u8; 8];
    for piece in [b"fi", b"rs", b"t."] {
        stream.write_all(piece)?;
        stream.flush()?;
    }
    assert!(rt; received(&rt, &mut stream) == Err(ErrorKind::WouldBlock));
    assert!(rt; far.read(&mut into)? == 6 && into.starts_with(b"first."));
    stream.write_all(b"more..")?;
    for _ in 0..40u32 {
        stream.write_all(&[7u8; 512])?;
    }
    drop(stream);
    let mut left = 20_486usize;
    let mut is_first = true;
    for _ in 0..20_486u32 {
        let n = far.read(&mut into)?;
        assert!(rt; !is_first || into.starts_with(b"more.."));
        is_first = false;
        left = left.saturating_sub(n);
        if n == 0 {
            break;
        }
    }
    assert!(rt; left == 0 && far.read(&mut into)? == 0);
    Ok(())
}
