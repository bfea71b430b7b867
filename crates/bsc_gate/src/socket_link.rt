//! Links over sockets.
ghost use Rattle.std.specs.Prelude.{◌≡◌, IfOk};
ghost use Rattle.tungstenite.specs.Heads.{Heard};

use bsc_edge::{Kind, LinkFault};
use bsc_live::{DeferredWakes, Lingering, LivePatience, LiveStream, Wakers, Watch};
use bsc_ws::{RandomKeys, StreamLink, settle};
use mio::net::TcpStream;
use std::alloc::Global;
use std::io;
use std::net::Net;
use std::random::RandomSource;
use std::sync::{Arc, Wait};
use std::time::Clock;

/// A link over a socket, dialled or accepted. It draws its keys from the machine; one that was accepted draws none.
pub type SocketLink<R> = StreamLink<LiveStream<R>, LivePatience<R>, RandomKeys<R>>;

/// A handshake's time as a whole, in milliseconds.
pub const HANDSHAKE_MS: u32 = 1_000;

/// The time in which a peer must take a put, in milliseconds.
pub const WRITE_MS: u32 = 5_000;

/// A live stream over a socket, which is waited for at this watch and lingers here, where there is one.
fn stream_over<R: Clock + Net + Wait + Copy + Drop>(
    rt: R,
    alloc: Global,
    socket: TcpStream,
    watch: &Option<Arc<Watch>>,
    lingering: &Option<Arc<Lingering>>,
) -> io::Result<LiveStream<R>> {
    let stream = LiveStream::over(rt, alloc, socket, WRITE_MS)?;
    let stream = match lingering {
        Some(lingering) => stream.lingering_at(lingering)?,
        None => stream,
    };
    match watch {
        Some(watch) => stream.watched_by(watch),
        None => Ok(stream),
    }
}

/// A live stream over a socket, and the patience of its link.
pub(crate) fn alive<R: Clock + Net + Wait + Copy + Drop>(
    rt: R,
    alloc: Global,
    socket: TcpStream,
    bells: &Arc<Wakers>,
    watch: &Option<Arc<Watch>>,
    lingering: &Option<Arc<Lingering>>,
) -> Result<(LiveStream<R>, LivePatience<R>), LinkFault> {
    let Ok(stream) = stream_over(rt, alloc, socket, watch, lingering) else {
        return Err(LinkFault::Failed);
    };
    let Ok(bell) = stream.bell() else {
        return Err(LinkFault::NoMemory);
    };
    let Ok(bells) = Arc::try_clone(bells) else {
        return Err(LinkFault::NoMemory);
    };
    let patience = LivePatience::new(rt, bell, bells).beside(&stream);
    Ok((stream, patience))
}

/// The link of this kind over a socket whose handshake is done. Where nobody waits for it together with others, what is put before the next
/// receive leaves together, and whom it wakes by then is woken behind that: who waits at a watch does so before it receives, and what
/// it has put is to have left by then.
pub(crate) fn accepted<R: Clock + Net + Wait + RandomSource + Copy + Drop>(
    rt: R,
    alloc: Global,
    socket: TcpStream,
    kind: Kind,
    bells: &Arc<Wakers>,
    watch: &Option<Arc<Watch>>,
    lingering: &Option<Arc<Lingering>>,
) -> Result<SocketLink<R>, LinkFault>
    requires { Heard }
    ensures { IfOk result (λ l. l.kind ≡ kind) }
{
    let (stream, wait) = alive(rt, alloc, socket, bells, watch, lingering)?;
    if watch.is_some() {
        return Ok(settle(alloc, stream, wait, RandomKeys::new(rt), kind));
    }
    let Ok(debts) = Arc::new(alloc, DeferredWakes::new(alloc)) else {
        return Err(LinkFault::NoMemory);
    };
    let Ok(stream) = stream.holding().ringing(&debts) else {
        return Err(LinkFault::NoMemory);
    };
    let wait = wait.owing(debts);
    Ok(settle(alloc, stream, wait, RandomKeys::new(rt), kind))
}
