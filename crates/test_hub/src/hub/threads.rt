//! Four threads on one hub, which stay at addresses or send, and what they note. `courses` has the tests.
ghost use Rattle.std.specs.Prelude.{◌≡◌, IfOk};
ghost use Rattle.bsc_ring.specs.Ends.{outlet_mark};
ghost use Rattle.bsc_hub.specs.Passing.{IsCaller, IsOwnAs};
ghost use Rattle.bsc_hub.specs.Testing.{vmac_at};

use super::{address, enter, new_hub, who};
use bsc_desk::{OneReply, prepare};
use bsc_history::{Told, Worn};
use bsc_hub::{Hub, Pass};
use bsc_octets::{NoMemory, Octets};
use bsc_ring::{Outlet, Take};
use std::alloc::Global;
use std::sync::Wait;
use std::thread;
use std::thread::Threads;

/// The last octet of the address that all unicasts are sent to.
pub const RECEIVERS: u8 = 10;

/// What a thread does.
#[derive(Clone, Copy)]
pub enum Task {
    /// It stays so often at the address of this last octet: until the End, or where it doesn't wait only until no frame is there.
    Stay { last: u8, rounds: u32, waits: bool },
    /// It sends so many unicasts from the address of this last octet: each until it is told as appended, or where it doesn't insist
    /// once.
    Send { from: u8, count: u16, insists: bool },
}

/// What a thread begins with.
#[derive(Drop)]
struct Part {
    pass: Pass,
    task: Task,
}

#[derive(Clone, Copy, PartialEq, Eq)]
pub enum What {
    Sent,
    Came,
}

/// A unicast that was told as appended, or a frame that came: the connection whose outbox it joined; the place of its
/// entry, or which frame of its outlet it was; the last octet of its sender's address; and its Message ID.
#[derive(Clone, Copy)]
pub struct Note {
    pub what: What,
    pub conn: u64,
    pub at: u64,
    pub from: u8,
    pub id: u16,
}

/// What a thread comes to: its pass, how many calls of the hub it made, and what it noted.
#[derive(Drop)]
pub struct Done {
    pub pass: Pass,
    pub calls: u64,
    pub notes: Vec<Note>,
}

/// A frame that came. One that is no unicast of a sender is noted as of none.
fn came(conn: u64, at: u64, frame: &Octets) -> Note {
    let octets = frame.as_slice();
    let mut note = Note {
        what: What::Came,
        conn,
        at,
        from: 0,
        id: 0,
    };
    if let [_function, _flags, high, low, .., from] = octets {
        if octets == [1, 8, *high, *low, 2, 0, 0, 0, 0, *from].as_slice() {
            note.from = *from;
            note.id = u16::from_be_bytes([*high, *low]);
        }
    }
    note
}

/// A unicast, if it was told as appended.
fn sent(told: Result<Told<OneReply>, Worn>, from: u8, id: u16) -> Option<Note> {
    match told {
        Ok(
            Told {
                at,
                said: OneReply::Appended(look),
            },
        ) => Some(Note {
            what: What::Sent,
            conn: look.conn,
            at,
            from,
            id,
        }),
        Ok(_) => None,
        Err(_) => None,
    }
}

/// Takes until the End, or where it doesn't wait until no frame is there, and notes what comes.
fn drain<R: Wait>(rt: &R, conn: u64, outlet: &mut Outlet, waits: bool, notes: &mut Vec<Note>)
    ensures { outlet_mark outlet.new ≡ outlet_mark outlet.old }
{
    for _ in rt.forever() {
        match outlet.take() {
            Take::Frame(frame) => {
                let _memory = notes.push(came(conn, outlet.taken(), &frame));
            }
            Take::Closed(_) => return,
            Take::Empty => if !waits {
                return;
            },
        }
        thread::yield_now();
    }
    unreachable!()
}

/// Joins in place of who holds the address, takes, and leaves. The answer is whether it joined.
fn stay<R: Wait>(
    rt: &R,
    alloc: Global,
    hub: &Hub,
    pass: &mut Pass,
    last: u8,
    waits: bool,
    notes: &mut Vec<Note>,
) -> bool
    requires { IsCaller hub.now pass.old }
    ensures { IsCaller hub.now pass.new }
{
    match hub.connect(rt, alloc, pass, who(last)) {
        Err(_) => false,
        Ok(joined) => {
            let mut outlet = joined.outlet;
            drain(rt, joined.conn, &mut outlet, waits, notes);
            let _told = hub.leave(rt, pass, joined.conn, outlet);
            true
        }
    }
}

/// Stays so often, or until the hub has stopped.
fn receive<R: Wait>(
    rt: &R,
    alloc: Global,
    hub: &Hub,
    pass: Pass,
    last: u8,
    rounds: u32,
    waits: bool,
) -> Done
    requires { IsCaller hub.now pass }
    ensures { IsCaller hub.now result.pass }
{
    let mut pass = pass;
    let mut calls = 0u64;
    let mut notes = Vec::new(alloc);
    for _ in 0..rounds {
        calls = calls.saturating_add(1);
        if !stay(rt, alloc, hub, &mut pass, last, waits, &mut notes) {
            return Done { pass, calls, notes };
        }
        calls = calls.saturating_add(1);
    }
    Done { pass, calls, notes }
}

/// Sends unicast `id`, once.
fn send_once<R: Wait>(
    rt: &R,
    alloc: Global,
    hub: &Hub,
    pass: &mut Pass,
    conn: u64,
    from: u8,
    id: u16,
) -> Option<Note>
    requires { IsCaller hub.now pass.old × IsOwnAs pass.old conn (vmac_at from) }
    ensures { IsCaller hub.now pass.new × IsOwnAs pass.new conn (vmac_at from) }
{
    let [high, low] = id.to_be_bytes();
    let message = [1, 4, high, low, 2, 0, 0, 0, 0, RECEIVERS];
    let Ok(frame) = prepare(alloc, &message, address(from)) else {
        return None;
    };
    let told = hub.forward_one(rt, pass, conn, frame);
    sent(told, from, id)
}

/// Sends unicast `id` until it is told as appended, or once, and answers how many calls that took, and the note of it.
fn insist<R: Wait>(
    rt: &R,
    alloc: Global,
    hub: &Hub,
    pass: &mut Pass,
    conn: u64,
    from: u8,
    id: u16,
    insists: bool,
) -> (u64, Option<Note>)
    requires { IsCaller hub.now pass.old × IsOwnAs pass.old conn (vmac_at from) }
    ensures { IsCaller hub.now pass.new × IsOwnAs pass.new conn (vmac_at from) }
{
    let mut calls = 0u64;
    for _ in rt.forever() {
        calls = calls.saturating_add(1);
        let note = send_once(rt, alloc, hub, pass, conn, from, id);
        if note.is_some() || !insists {
            return (calls, note);
        }
        thread::yield_now();
    }
    unreachable!()
}

/// Sends all unicasts of a connection, and answers how many calls that took.
fn send_all<R: Wait>(
    rt: &R,
    alloc: Global,
    hub: &Hub,
    pass: &mut Pass,
    conn: u64,
    from: u8,
    count: u16,
    insists: bool,
    notes: &mut Vec<Note>,
) -> u64
    requires { IsCaller hub.now pass.old × IsOwnAs pass.old conn (vmac_at from) }
    ensures { IsCaller hub.now pass.new }
{
    let mut calls = 0u64;
    for id in 0..count {
        let (more, note) = insist(rt, alloc, hub, pass, conn, from, id, insists);
        if let Some(note) = note {
            let _memory = notes.push(note);
        }
        calls = calls.saturating_add(more);
    }
    calls
}

/// Joins, and sends: what a thread comes to that sends.
fn send<R: Wait>(
    rt: &R,
    alloc: Global,
    hub: &Hub,
    pass: Pass,
    from: u8,
    count: u16,
    insists: bool,
) -> Done
    requires { IsCaller hub.now pass }
    ensures { IsCaller hub.now result.pass }
{
    let mut pass = pass;
    let mut notes = Vec::new(alloc);
    match enter(rt, alloc, hub, &mut pass, from) {
        Some((conn, _outlet)) => {
            let calls = send_all(
                rt, alloc, hub, &mut pass, conn, from, count, insists, &mut notes,
            );
            Done {
                pass,
                calls: calls.saturating_add(1),
                notes,
            }
        }
        None => Done {
            pass,
            calls: 1,
            notes,
        },
    }
}

/// Does what a thread is to do.
fn run<R: Wait>(rt: &R, alloc: Global, hub: &Hub, part: Part) -> Done
    requires { IsCaller hub.now part.pass }
    ensures { IsCaller hub.now result.pass }
{
    match part.task {
        Task::Stay {
            last,
            rounds,
            waits,
        } => receive(rt, alloc, hub, part.pass, last, rounds, waits),
        Task::Send {
            from,
            count,
            insists,
        } => send(rt, alloc, hub, part.pass, from, count, insists),
    }
}

/// What two threads come to together. Their passes are joined.
fn unite(hub: &Hub, one: Done, two: Done) -> Done
    requires one { IsCaller hub.now one.pass }
    requires two { IsCaller hub.now two.pass }
    ensures { IsCaller hub.now result.pass }
{
    let mut pass = one.pass;
    let mut notes = one.notes;
    hub.join(&mut pass, two.pass);
    let _memory = notes.extend_from_slice(two.notes.as_slice());
    Done {
        pass,
        calls: one.calls.saturating_add(two.calls),
        notes,
    }
}

/// Two threads.
fn run_both<R: Threads + Wait + Sync>(
    rt: &R,
    alloc: Global,
    hub: &Hub,
    first: Part,
    second: Part,
) -> Done
    requires first { IsCaller hub.now first.pass }
    requires second { IsCaller hub.now second.pass }
    ensures { IsCaller hub.now result.pass }
{
    let (one, two) = thread::join(
        rt,
        move || -> Done
            requires { IsCaller hub.now first.pass }
            ensures { IsCaller hub.entry.now result.pass }
        { run(rt, alloc, hub, first) },
        move || -> Done
            requires { IsCaller hub.now second.pass }
            ensures { IsCaller hub.entry.now result.pass }
        { run(rt, alloc, hub, second) },
    );
    unite(hub, one, two)
}

/// Asks for the counts until a connection was taken over, and answers how many calls that took.
fn await_takeover<R: Wait>(rt: &R, hub: &Hub, pass: &mut Pass) -> u64
    requires { IsCaller hub.now pass.old }
    ensures { IsCaller hub.now pass.new }
{
    let mut calls = 0u64;
    for _ in rt.forever() {
        calls = calls.saturating_add(1);
        match hub.counts(rt, pass) {
            Ok(told) => if told.said.replaced > 0 {
                return calls;
            },
            Err(_) => return calls,
        }
        thread::yield_now();
    }
    unreachable!()
}

/// Stops the hub, if it is to be, once a connection was taken over.
fn stop<R: Wait>(rt: &R, hub: &Hub, done: Done, stops: bool) -> Done
    requires { IsCaller hub.now done.pass }
    ensures { IsCaller hub.now result.pass }
{
    if !stops {
        return done;
    }
    let mut pass = done.pass;
    let waited = await_takeover(rt, hub, &mut pass);
    let _told = hub.stop(rt, &mut pass);
    Done {
        pass,
        calls: done.calls.saturating_add(waited).saturating_add(1),
        notes: done.notes,
    }
}

/// All four threads. Where it is to be, the hub is stopped when the last two have ended.
fn run_all<R: Threads + Wait + Sync>(
    rt: &R,
    alloc: Global,
    hub: &Hub,
    pair: (Part, Part),
    other: (Part, Part),
    stops: bool,
) -> Done
    requires pair { IsCaller hub.now pair.0.pass × IsCaller hub.now pair.1.pass }
    requires other { IsCaller hub.now other.0.pass × IsCaller hub.now other.1.pass }
    ensures { IsCaller hub.now result.pass }
{
    let (first, second) = pair;
    let (third, fourth) = other;
    let (one, two) = thread::join(
        rt,
        move || -> Done
            requires { IsCaller hub.now first.pass × IsCaller hub.now second.pass }
            ensures { IsCaller hub.entry.now result.pass }
        { run_both(rt, alloc, hub, first, second) },
        move || -> Done
            requires { IsCaller hub.now third.pass × IsCaller hub.now fourth.pass }
            ensures { IsCaller hub.entry.now result.pass }
        { stop(rt, hub, run_both(rt, alloc, hub, third, fourth), stops) },
    );
    unite(hub, one, two)
}

/// Four threads that do this at a new hub: the hub, and what they come to.
pub fn run_new<R: Threads + Wait + Sync>(
    rt: &R,
    alloc: Global,
    pair: (Task, Task),
    other: (Task, Task),
    stops: bool,
) -> Result<(Hub, Done), NoMemory>
    ensures { IfOk result (λ r. IsCaller r.0 r.1.pass) }
{
    let (hub, mut pass) = new_hub(alloc, 8, 1 << 40, 4)?;
    let Ok(second) = hub.split(rt, &mut pass) else {
        return Err(NoMemory);
    };
    let Ok(third) = hub.split(rt, &mut pass) else {
        return Err(NoMemory);
    };
    let Ok(fourth) = hub.split(rt, &mut pass) else {
        return Err(NoMemory);
    };
    let first = Part { pass, task: pair.0 };
    let second = Part {
        pass: second,
        task: pair.1,
    };
    let third = Part {
        pass: third,
        task: other.0,
    };
    let fourth = Part {
        pass: fourth,
        task: other.1,
    };
    let done = run_all(rt, alloc, &hub, (first, second), (third, fourth), stops);
    Ok((hub, done))
}
