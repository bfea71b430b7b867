//! The run, as `main` asks for it.
ghost use Rattle.std.specs.Prelude.{◌≡◌, [], Some, None};

use bsc_cli::ReadWords;
use bsc_commands::{Outside, run};
use bsc_edge::{
    Acceptor, Clock, Dialer, DiskJournal, Files, Job, Journals, Link, Places, Spawner,
    ThreadSpawner, Waiter,
};
use bsc_hub::Kept;
use bsc_hub_command::HubPlace;
use bsc_input::LiveInput;
use bsc_live_lines::{LiveLines, Refusals};
use bsc_node_run::{NodeParts, Words};
use bsc_outside::{Sink, Source, ToldSource, ToldWriter, WriterSink};
use bsc_serve::{ServingParts, StopAsker};
use bsc_session::SessionJob;
use bsc_why::{Heard, KeptFiles, KeptSource, NotedAcceptor, NotedSink, ToldFiles, name_in, tell};
use std::alloc::Global;
use std::env::Env;
use std::io::{self, Eprint, Read, Write};
use std::net::Net;
use std::sync::{Arc, Wait};
use std::thread::Threads;

/// The input over this reader. It tells each read, and none was made.
pub(crate) fn source_of<I: Read>(alloc: Global, reader: I) -> ToldSource<KeptSource<I>>
    ensures reads { ⟦<ToldSource<KeptSource<I>> as Source>⟧.reads result ≡ Some [] }
{
    ToldSource::new(KeptSource::new(alloc, reader))
}

/// The output over this writer. It tells what was taken of it, and nothing was.
pub(crate) fn sink_of<X: Write>(writer: X) -> NotedSink<WriterSink<ToldWriter<X>>>
    ensures held { ⟦<NotedSink<WriterSink<ToldWriter<X>>> as Sink>⟧.held result ≡ Some [] }
{
    NotedSink::new(WriterSink::new(ToldWriter::new(writer)))
}

/// The acceptor over this one. It tells what that one does: its port, its waits and the links that came.
pub(crate) fn acceptor_of<L, A: Acceptor<L>>(acceptor: A) -> NotedAcceptor<A>
    ensures bound { ⟦<NotedAcceptor<A> as Acceptor<L>>⟧.bound result ≡ A.bound acceptor }
    ensures waits { ⟦<NotedAcceptor<A> as Acceptor<L>>⟧.waits result ≡ A.waits acceptor }
    ensures came { ⟦<NotedAcceptor<A> as Acceptor<L>>⟧.came result ≡ A.came acceptor }
{
    NotedAcceptor::new(acceptor)
}

/// A spawner of threads that begins jobs so.
pub(crate) fn spawner_of<J: Job, T, H, F>(
    rt: H,
    alloc: Global,
    begin: F,
    places: Arc<Places>,
) -> ThreadSpawner<J, T, H, F>
    ensures { result.begin ≡ begin }
{
    ThreadSpawner::new(rt, alloc, begin, places)
}

/// The objects outside, with no hub made yet.
pub(crate) fn outside_of<S, K, F, C, V, W, A, D, N, J, P>(
    source: S,
    sink: K,
    files: F,
    node: NodeParts<V, W, D>,
    parts: ServingParts<A, C, P, J>,
) -> Outside<S, K, F, C, V, W, A, D, N, J, P>
    ensures spawner { result.parts.spawner ≡ parts.spawner }
    ensures kept { result.place.kept.hub ≡ None }
    ensures own { result.place.own ≡ None }
{
    Outside {
        source,
        sink,
        files,
        node,
        place: HubPlace {
            kept: Kept {
                hub: None,
                pass: None,
            },
            own: None,
        },
        parts,
        why: None,
    }
}

/// Does what the words ask for, and answers the status. The asker may ask for the stop of a hub. It is `run` of `bsc_commands`, with nothing before it and nothing behind.
/// What that promises of the objects outside it promises here, at any types. `main` needs the status alone: at the types of the
/// machine these promises would be more than a check of `main` can hold.
pub(crate) fn run_outside<
    R: Threads + Wait + Sync,
    S: Source,
    K: Sink,
    F: Files,
    C: Clock + Drop,
    V: Waiter,
    W: Words,
    L: Link + Drop,
    A: Acceptor<L>,
    D: Dialer<L>,
    N: Sink + Drop,
    J: Journals<N>,
    P: Spawner<SessionJob<L, C, N>>,
    Q: StopAsker,
    I: LiveInput + Drop,
    T: Refusals + Drop,
>(
    rt: &R,
    alloc: Global,
    read: &ReadWords<'_>,
    outside: &mut Outside<S, K, F, C, V, W, A, D, N, J, P>,
    asker: &mut Q,
    lines: &mut LiveLines<I, T>,
) -> u8
    requires can { P.can_start outside.old.parts.spawner }
    requires kept { outside.old.place.kept.hub ≡ None }
    requires own { outside.old.place.own ≡ None }
{
    run(rt, alloc, read, outside, asker, lines)
}

/// Says on standard error why a run ended with this status, where that is a fault, by what was heard of the objects outside.
pub(crate) fn tell_why<
    R: Env + Eprint + Net,
    I: Read,
    K: Sink,
    F: Files,
    C,
    V,
    W,
    A,
    D,
    X: Write,
    J,
    P,
>(
    rt: &R,
    alloc: Global,
    status: u8,
    read: ReadWords<'_>,
    has_texts: bool,
    file_error: Option<io::Error>,
    outside: &Outside<
        ToldSource<KeptSource<I>>,
        NotedSink<K>,
        ToldFiles<KeptFiles<F>>,
        C,
        V,
        W,
        NotedAcceptor<A>,
        D,
        DiskJournal<X>,
        J,
        P,
    >,
) {
    let mut room = [0; 256];
    let length = rt.arg(0, &mut room).ok();
    let has_lost_a_line = match &outside.place.own {
        Some(journal) => journal.has_failed(),
        None => false,
    };
    let heard = Heard {
        called: name_in(&room, length),
        read,
        has_texts,
        input: outside.source.source().kept(),
        input_error: outside.source.source().error(),
        line: outside.sink.line(),
        files: outside.files.files().given(),
        file: outside.files.files().text(),
        file_error,
        door: outside.parts.acceptor.note(),
        has_lost_a_line,
        why: match &outside.why {
            Some(why) => Some(why.as_slice()),
            None => None,
        },
    };
    tell(rt, alloc, status, &heard);
}
