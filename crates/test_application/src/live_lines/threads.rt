//! Lines that one thread reads and another takes.
ghost use Rattle.bsc_ring.specs.Ends.{IsNewInlet};

use bsc_input::{FeedEnd, LineInbox, RingInbox, Rouser, Taken, feed_lines};
use bsc_octets::NoMemory;
use bsc_outside::MemSource;
use bsc_ring::{Inlet, make};
use std::alloc::Global;
use std::sync::Wait;
use std::test::Fail;
use std::thread;
use std::thread::Threads;
use std::time::Clock;

/// So many lines are read.
const COUNT: u32 = 400;

/// Rouses nobody: whoever takes asks again.
#[derive(Drop)]
struct Nobody;

impl Rouser for Nobody {
    fn rouse(&self) {}
}

/// The lines that say these numbers, from 0.
fn numbers(alloc: Global, count: u32) -> Result<Vec<u8>, NoMemory> {
    let mut text = Vec::new(alloc);
    for n in 0..count {
        text.extend_from_slice(format!(in alloc; "{n}\n")?.as_bytes())?;
    }
    Ok(text)
}

/// Whether a line says this number.
fn says(alloc: Global, line: &[u8], n: u32) -> bool {
    match format!(in alloc; "{n}") {
        Ok(text) => line == text.as_bytes(),
        Err(_) => false,
    }
}

/// How many lines were taken by the end, and whether they say their numbers.
fn take_all<R: Wait>(rt: &R, alloc: Global, inbox: &mut RingInbox) -> (u32, bool) {
    let mut count: u32 = 0;
    let mut in_order = true;
    for _ in rt.forever() {
        match inbox.take() {
            Taken::Line(line) => {
                in_order = says(alloc, line.as_slice(), count) && in_order;
                count = count.saturating_add(1);
            }
            Taken::Nothing => thread::yield_now(),
            Taken::End => return (count, in_order && !inbox.has_failed()),
        }
    }
    unreachable!()
}

/// One thread reads an input in pieces of seven octets, over a ring of four lines; the other takes.
fn across<R: Threads + Clock + Wait + Sync>(
    rt: &R,
    alloc: Global,
) -> Result<(bool, u32, bool), NoMemory> {
    let text = numbers(alloc, COUNT)?;
    let text = text.as_slice();
    let (inlet, outlet) = make(alloc, 4)?;
    let mut inbox = RingInbox::new(outlet);
    let (end, (count, in_order)) = thread::join(
        rt,
        move || -> bool
            requires { IsNewInlet inlet }
        {
            let mut source = MemSource::in_pieces(text, 7, &[]);
            let (_inlet, end) = feed_lines(rt, alloc, &mut source, &Nobody, inlet);
            matches!(end, FeedEnd::All)
        },
        move || -> (u32, bool) { take_all(rt, alloc, &mut inbox) },
    );
    Ok((end, count, in_order))
}

#[test]
fn all_lines_come_in_order(rt: HostRuntime) -> Result<(), Fail> {
    let (all, count, in_order) = across(&rt, rt.alloc())?;
    assert!(rt; all && in_order && count == COUNT);
    Ok(())
}
