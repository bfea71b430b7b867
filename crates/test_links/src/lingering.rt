//! Sockets that linger, over loopback.
use crate::live::ends;
use bsc_live::{Lingering, LiveStream, Moment};
use std::io::{Read, Write};
use std::net::Shutdown;
use std::sync::Arc;
use std::test::*;

/// What a stream wrote last, while octets of its peer were unread, is read by the peer, and then the end. Where the peer goes on
/// sending, the socket lingers until that ends too; one that never ends is let go after a second.
#[test]
fn what_was_written_last_is_read(rt: HostRuntime) -> Result<(), Fail> {
    let alloc = rt.alloc();
    for goes_on in [true, false] {
        let lingering = Arc::new(alloc, Lingering::new(alloc)?)?;
        assert!(rt; !lingering.look(&rt));
        let begun = Moment::now(&rt)?;
        let (near, mut far) = ends(&rt)?;
        let mut stream = LiveStream::over(rt, alloc, near, 50)?.lingering_at(&lingering)?;
        far.write_all(b"unread")?;
        stream.write_all(b"last")?;
        drop(stream);
        if goes_on {
            for _ in 0..20u32 {
                far.write_all(b"more")?;
                assert!(rt; lingering.look(&rt));
            }
        } else {
            lingering.outlast(&rt);
            lingering.outlast(&rt);
            assert!(rt; !lingering.look(&rt));
        }
        let mut into = [0u8; 8];
        assert!(rt; far.read(&mut into)? == 4 && into.starts_with(b"last"));
        assert!(rt; far.read(&mut into)? == 0);
        let _ = far.shutdown(Shutdown::Write);
        lingering.outlast(&rt);
        assert!(rt; !lingering.look(&rt));
        assert!(rt; (Moment::now(&rt)?.left(begun) < 900_000) == goes_on);
    }
    Ok(())
}
