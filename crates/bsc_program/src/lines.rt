//! The lines that a node is asked by as it runs.
ghost use Rattle.bsc_ring.specs.Ends.{IsNewInlet};

use bsc_cli::{Asked, ReadWords};
use bsc_input::{LineInbox, OptionalInbox, feed_lines};
use bsc_live_lines::{LiveLines, Refusals};
use bsc_outside::{ReaderSource, Sink, ToldSource};
use bsc_player::{end_with, out_of_memory};
use bsc_ring::{Inlet, make};
use bsc_sockets::{LineRouser, LiveInbox, RealWaiter};
use bsc_why::StderrRefusals;
use std::alloc::Global;
use std::io::{Eprint, Read};
use std::net::Net;
use std::sync::Wait;
use std::thread::{self, Threads};
use std::time::Clock;

/// So many lines wait for the node at most. While as many do, the thread that reads them waits.
const WAITING: u32 = 256;

/// The lines of the program, and who is told of those that are refused.
pub(crate) type Lines<R> = LiveLines<OptionalInbox<LiveInbox>, StderrRefusals<R>>;

/// Whether these words ask for a node that is asked by lines.
fn has_lines(read: &ReadWords<'_>) -> bool {
    matches!(read.asked, Ok(Asked::LiveNode { .. }))
}

/// Starts the thread that reads the lines of this reader and puts them into a ring. Whether it was started. Nobody joins it: it may
/// stand in its read when the node has ended.
fn start_reading<
    R: Threads + Clock + Wait + Copy + Send + Drop + 'static,
    I: Read + Send + Drop + 'static,
>(rt: &R, alloc: Global, reader: I, rouser: LineRouser, inlet: Inlet) -> bool
    requires { IsNewInlet inlet }
{
    let handle = *rt;
    let started = thread::spawn(
        rt,
        move || -> ()
            requires { IsNewInlet inlet }
        {
            let mut source = ToldSource::new(ReaderSource::new(reader));
            let _ = feed_lines(&handle, alloc, &mut source, &rouser, inlet);
        },
    );
    started.is_ok()
}

/// The inbox of the lines that a thread reads of this reader; or the status of a run without it. Where the node can't be woken or no
/// thread can be started, the lines can't be read.
fn read_lines<
    R: Threads + Clock + Net + Wait + Copy + Send + Drop + 'static,
    I: Read + Send + Drop + 'static,
    K: Sink,
>(rt: &R, alloc: Global, waiter: &RealWaiter<R>, reader: I, sink: &mut K) -> Result<LiveInbox, u8> {
    let Ok((inlet, outlet)) = make(alloc, WAITING) else {
        return Err(out_of_memory(sink));
    };
    let Ok((inbox, rouser)) = waiter.inbox(alloc, outlet) else {
        return Err(end_with(sink, b"fault read\n", 3));
    };
    if start_reading(rt, alloc, reader, rouser, inlet) {
        Ok(inbox)
    } else {
        Err(end_with(sink, b"fault read\n", 3))
    }
}

/// The lines that a node of these words is asked by, which a thread reads of this reader; of other words there are none, and nobody
/// reads. Or the status of a run without them.
pub(crate) fn lines_of<
    R: Threads + Clock + Net + Wait + Eprint + Copy + Send + Drop + 'static,
    I: Read + Send + Drop + 'static,
    K: Sink,
>(
    rt: &R,
    alloc: Global,
    read: &ReadWords<'_>,
    waiter: &RealWaiter<R>,
    reader: I,
    sink: &mut K,
) -> Result<Lines<R>, u8> {
    let inbox = if has_lines(read) {
        Some(read_lines(rt, alloc, waiter, reader, sink)?)
    } else {
        None
    };
    Ok(LiveLines::new(OptionalInbox::new(inbox), StderrRefusals::new(*rt, alloc)))
}

/// Says on standard error how many lines stood unread where a fault ended the node.
pub(crate) fn tell_unread<R: Eprint, I: LineInbox + Drop, T: Refusals + Drop>(
    rt: &R,
    status: u8,
    lines: LiveLines<I, T>,
) {
    let (_, unread) = lines.count_unread();
    if status != 0 && unread > 0 {
        let _ = eprintln!(rt; "unread lines {unread}");
    }
}
