//! `bsc`: the switching layer of BACnet Secure Connect, on the command line.
//!
//! All that the program does is `run` of `bsc_commands`, which `running` calls. `main` hands it standard input and output, the
//! files, the clock, the random octets, the links and the threads of the machine that it is on, and the file that stops a hub, where
//! the words name one (`stop_file`), which also tells how the hub is doing (`status`). Lines that a node is asked by as it runs are read by a thread of their own (`lines`). Where the
//! run ends with a fault, `tell` of `bsc_why` says on standard error why, by what was heard of these.
#![tactic(auto)]

mod lines;
mod parts;
mod running;
mod status;
mod stop_file;
mod texts;
mod threading;

use bsc_cli::{Asked, ReadWords};
use bsc_edge::{DiskJournals, JournalFile, Kind, Monotonic, Places, Unstarted, launch};
use bsc_node_command::RandomWords;
use bsc_node_run::NodeParts;
use bsc_player::out_of_memory;
use bsc_serve::ServingParts;
use bsc_sockets::Numbers;
use lines::{lines_of, tell_unread};
use parts::{Rooms, rooms_of, sockets_of};
use running::{acceptor_of, outside_of, run_outside, sink_of, source_of, spawner_of, tell_why};
use status::Teller;
use std::alloc::Global;
use std::io;
use std::process::ExitCode;
use std::sync::Arc;
use stop_file::{StopFile, status_path_of, stop_path};
use texts::texts_of;
use threading::{Job, SessionThread, thread_of};

/// The session of a link of the machine.
type RealJob = Job<HostRuntime, JournalFile<HostRuntime>>;

/// The kind of the links that are accepted by these words: a node accepts direct connections.
fn kind_of(read: &ReadWords<'_>) -> Kind {
    match read.asked {
        Ok(Asked::Node { .. }) => Kind::Direct,
        Ok(Asked::LiveNode { .. }) => Kind::Direct,
        Ok(_) | Err(_) => Kind::Hub,
    }
}

fn main(rt: HostRuntime) -> ExitCode {
    let alloc = rt.alloc();
    let mut sink = sink_of(io::writer(&rt));
    let Ok(texts) = texts_of(&rt, alloc) else {
        return ExitCode::from(out_of_memory(&mut sink));
    };
    let read = ReadWords::of(alloc, texts.words.as_slice());
    let (Ok(numbers), Ok(status_file)) = (
        Arc::new(alloc, Numbers::new()),
        status_path_of(alloc, &read),
    ) else {
        return ExitCode::from(out_of_memory(&mut sink));
    };
    let Ok(of_door) = Arc::try_clone(&numbers) else {
        return ExitCode::from(out_of_memory(&mut sink));
    };
    let teller = Teller::new(rt, alloc, status_file, numbers);
    let mut stop_file = StopFile::new(rt, stop_path(&read), teller);
    let Ok(rooms) = rooms_of(rt, alloc) else {
        return ExitCode::from(out_of_memory(&mut sink));
    };
    let Rooms {
        files,
        unread,
        places,
    } = rooms;
    let Ok(sockets) = sockets_of(rt, alloc, kind_of(&read), rt.stderr(), of_door) else {
        return ExitCode::from(out_of_memory(&mut sink));
    };
    let (waiter, dialer, door) = sockets;
    let mut lines = match lines_of(&rt, alloc, &read, &waiter, rt.stdin(), &mut sink) {
        Ok(lines) => lines,
        Err(status) => return ExitCode::from(status),
    };
    let begin = move |alloc: Global, places: &Arc<Places>, job: RealJob| -> Result<
        SessionThread<HostRuntime, JournalFile<HostRuntime>>,
        Unstarted<RealJob>,
    > { thread_of(launch(&rt, alloc, places, job)) };
    let mut outside = outside_of(
        source_of(alloc, rt.reader()),
        sink,
        files,
        NodeParts {
            waiter,
            random: RandomWords::new(rt),
            dialer,
        },
        ServingParts {
            acceptor: acceptor_of(door),
            clock: Monotonic::new(rt),
            spawner: spawner_of(rt, alloc, begin, places),
            journals: DiskJournals::new(rt),
        },
    );
    let status = run_outside(&rt, alloc, &read, &mut outside, &mut stop_file, &mut lines);
    tell_unread(&rt, status, lines);
    tell_why(
        &rt,
        alloc,
        status,
        read,
        texts.are_all,
        unread.get(),
        &outside,
    );
    outside.node.waiter.outlast_lingering(&rt);
    ExitCode::from(status)
}
