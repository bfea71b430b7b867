//! What is made of the machine before a run.
use bsc_edge::{Kind, Places};
use bsc_octets::NoMemory;
use bsc_serve::SESSIONS;
use bsc_sockets::{Listener, Numbers, RealDialer, RealWaiter, real_dialer};
use bsc_why::{DiskNote, KeptFiles, NotedDisk, ToldFiles};
use std::alloc::Global;
use std::cell::Cell;
use std::env::Env;
use std::fs::Files;
use std::io::{Eprint, Stderr};
use std::net::Net;
use std::random::RandomSource;
use std::rc::Rc;
use std::sync::{Arc, Wait};
use std::time::Clock;

/// What waits for, makes and takes links of this kind. A log of them is written there, where the environment asks for one, and what the acceptor counts is kept. (A struct of
/// these would have to repeat what its dialer is.)
pub(crate) fn sockets_of<H: Clock + Net + RandomSource + Wait + Eprint + Copy + Drop>(
    rt: H,
    alloc: Global,
    kind: Kind,
    stderr: Stderr,
    numbers: Arc<Numbers>,
) -> Result<(RealWaiter<H>, RealDialer<H>, Listener<H>), NoMemory> {
    let Ok(waiter) = RealWaiter::of(rt, alloc, kind) else {
        return Err(NoMemory);
    };
    let (Ok(of_links), Ok(of_gate)) = (waiter.shared(), waiter.shared()) else {
        return Err(NoMemory);
    };
    let dialer = real_dialer(rt, alloc, of_links)?;
    let door = Listener::new(rt, alloc, kind, of_gate)
        .logged_at(stderr)
        .counted_at(numbers);
    Ok((waiter, dialer, door))
}

/// The files, and the threads' places.
#[derive(Drop)]
pub(crate) struct Rooms<H: Files> {
    pub files: ToldFiles<KeptFiles<NotedDisk<H>>>,
    /// Why the last file couldn't be read, where it couldn't.
    pub unread: DiskNote,
    pub places: Arc<Places>,
}

/// The files of the machine, and places for the threads of sessions.
pub(crate) fn rooms_of<H: Files + Drop>(rt: H, alloc: Global) -> Result<Rooms<H>, NoMemory> {
    let unread = Rc::new(alloc, Cell::new(None))?;
    let files = ToldFiles::new(KeptFiles::new(NotedDisk::new(rt, unread.clone()?)));
    let places = Places::make(alloc, SESSIONS)?;
    Ok(Rooms {
        files,
        unread,
        places,
    })
}
