//! A hub that is served, in memory: links that meet, links that get no session, and each end.
ghost use Rattle.std.specs.Arc.{arc_value};
ghost use Rattle.bsc_edge.specs.Threads.{Begins, job_of};
ghost use Rattle.bsc_hub.specs.Passing.{IsCaller};

use crate::books::{KeptJournal, KeptJournals, Still};
use crate::peers::{LIMITS, NONE, new_hub};
use crate::scene::{CLOSING, CuedLink, FIRST, JOINING, LATER, OTHER, Part, Scene};
use bsc_edge::{
    MemAcceptor, MemSpawner, Places, Promised, Running, Spawner, ThreadSpawner, Unstarted, launch,
};
use bsc_history::Counts;
use bsc_hub::{Hub, Pass};
use bsc_octets::{NoMemory, read_identity};
use bsc_policy::{Policy, PolicyFault};
use bsc_serve::{MemAsker, ServeEnd, ServeTerms, ServedHub, ServingParts, serve_on};
use bsc_session::{SessionEnd, SessionJob};
use std::alloc::Global;
use std::process::Abort;
use std::sync::atomic::{AtomicBool, AtomicU64, Ordering};
use std::sync::{Arc, Wait};
use std::test::*;

type Session = SessionJob<CuedLink, Still, KeptJournal>;

/// What is left of it.
type Left = SessionEnd<CuedLink, Still, KeptJournal>;

/// The thread of a session.
type Thread = Running<Result<Left, Session>, Promised<Session>>;

/// The greatest number of receives of a session that meets another: time enough for a thread to start.
const TURNS: u64 = 50_000_000;

/// The line of the Stop of a hub at which nobody connected.
const STOP_LINE: &str =
    "0 0 stop counts joined=0 replaced=0 refused=0 unicasts=0 broadcasts=0 appended=0 dropped=0 full=0 missed=0\n";

/// What a hub is served with: for how many sessions it has numbers; the links that arrive; which calls of the acceptor and of
/// the spawner fail, and which beginning of a journal; at which look the stop is asked for; whether the own journal takes nothing,
/// whether sessions have journals, and whether there is a policy, which admits A alone.
#[derive(Drop)]
struct Served {
    numbers: u8,
    parts: &'static [Part],
    accepts: &'static [u64],
    starts: &'static [u64],
    begins: u64,
    asks: u64,
    is_full: bool,
    is_recorded: bool,
    is_guarded: bool,
}

/// Two links that close at once, where nothing fails.
const TWO: Served = Served {
    numbers: 7,
    parts: &[CLOSING, CLOSING],
    accepts: &[],
    starts: &[],
    begins: 0,
    asks: u64::MAX,
    is_full: false,
    is_recorded: false,
    is_guarded: false,
};

/// Two links that meet.
const MEETING: Served = Served {
    parts: &[FIRST, LATER],
    ..TWO
};

/// The prefix of journals, for as long as the hub is there.
fn prefix_beside(_: &Arc<Hub>) -> &str {
    "j"
}

/// A policy that admits A alone.
fn of_a(alloc: Global) -> Result<Policy, PolicyFault> {
    let a = read_identity(&[
        2, 0, 0, 0, 0, 10, 10, 10, 10, 10, 10, 10, 10, 10, 10, 10, 10, 10, 10, 10, 10, 10, 6, 64,
        5, 217,
    ]);
    let mut policy = Policy::make(alloc);
    policy.member(a.device, a.vmac, "a")?;
    policy.settle()?;
    Ok(policy)
}

/// The links and the journals of a hub, and what starts its sessions.
type Parts<P> = ServingParts<MemAcceptor<'static, CuedLink>, Still, P, KeptJournals>;

/// Serves a hub: how that ends.
fn serve_links<'a, R: Wait, P: Spawner<Session>>(
    rt: &'a R,
    alloc: Global,
    hub: &'a Arc<Hub>,
    policy: &'a Option<Arc<Policy>>,
    pass: &mut Pass,
    asked: &Served,
    own: &mut KeptJournal,
    parts: &mut Parts<P>,
) -> ServeEnd
    requires pass { IsCaller (arc_value hub.now) pass.old }
    requires can { P.can_start parts.old.spawner }
{
    let terms = ServeTerms {
        limits: LIMITS,
        turns: TURNS,
        sessions: Some(asked.parts.len() as u64),
    };
    let prefix = if asked.is_recorded {
        Some(prefix_beside(hub))
    } else {
        None
    };
    serve_on(
        ServedHub {
            rt,
            alloc,
            hub,
            terms,
            prefix,
            policy,
        },
        pass,
        own,
        parts,
        &mut MemAsker::at_look(asked.asks),
    )
}

/// Serves a new hub: how that ends, the spawner, the own journal, and what is noted of the links.
fn serve<R: Wait, P: Spawner<Session> + Drop>(
    rt: &R,
    alloc: Global,
    asked: &Served,
    spawner: P,
) -> Result<(ServeEnd, P, KeptJournal, Arc<Scene>), NoMemory>
    requires { P.can_start spawner }
{
    let (hub, mut pass) = new_hub(alloc, 64, u64::from(asked.numbers) + 1)?;
    let hub = Arc::new(alloc, hub)?;
    let scene = Scene {
        accepted: AtomicBool::new(false),
        carried: AtomicBool::new(false),
        away: AtomicU64::new(0),
        closed: AtomicU64::new(0),
    };
    let scene = Arc::new(alloc, scene)?;
    let mut links = Vec::new(alloc);
    for part in asked.parts {
        links.push(CuedLink {
            part: *part,
            quiets: 0,
            scene: Arc::try_clone(&scene)?,
        })?;
    }
    let policy = if asked.is_guarded {
        let Ok(policy) = of_a(alloc) else {
            return Err(NoMemory);
        };
        Some(Arc::new(alloc, policy)?)
    } else {
        None
    };
    let mut own = KeptJournal {
        octets: Vec::new(alloc),
        is_full: asked.is_full,
        faults: 0,
    };
    let mut parts = ServingParts {
        acceptor: MemAcceptor::new(alloc, links, asked.accepts),
        clock: Still,
        spawner,
        journals: KeptJournals {
            failing: asked.begins,
            begun: 0,
            faults: 0,
        },
    };
    let end = serve_links(
        rt, alloc, &hub, &policy, &mut pass, asked, &mut own, &mut parts,
    );
    let ServingParts { spawner, .. } = parts;
    Ok((end, spawner, own, scene))
}

/// The sessions of two links run beside each other, and a session hands on a message before its next receive: the first
/// link gives its message when the peer of the later one was accepted, and both close only when it was put on that.
#[test]
fn a_message_is_carried_at_once(rt: HostRuntime) -> Result<(), Fail> {
    let alloc = rt.alloc();
    let begin = move |alloc: Global, places: &Arc<Places>, job: Session| -> Result<
        Thread,
        Unstarted<Session>,
    > { launch(&rt, alloc, places, job) };
    let spawner = ThreadSpawner::new(rt, alloc, begin, Places::make(alloc, 8)?);
    let (end, _spawner, _own, scene) = serve(&rt, alloc, &MEETING, spawner)?;
    let counts = Counts {
        joined: 2,
        unicasts: 1,
        appended: 1,
        ..NONE
    };
    assert_eq!(rt;
        end,
        ServeEnd::Done {
            counts,
            unstarted: 0
        }
    );
    assert_eq!(rt; scene.closed.load(Ordering::SeqCst), 2);
    Ok(())
}

/// There is no memory for a session.
fn begin_none(session: Session) -> Result<Thread, Unstarted<Session>>
    ensures { Begins job_of result session }
{
    Err(Unstarted::NoMemory(session))
}

/// There is no memory for the first of two jobs: its link is closed, and no link is taken after it.
#[test]
fn want_of_memory_ends_serving(rt: HostRuntime) -> Result<(), Fail> {
    let alloc = rt.alloc();
    let begin = move |_alloc: Global, _places: &Arc<Places>, job: Session| -> Result<
        Thread,
        Unstarted<Session>,
    > { begin_none(job) };
    let spawner = ThreadSpawner::new(rt, alloc, begin, Places::make(alloc, 1)?);
    let (end, _spawner, _own, scene) = serve(&rt, alloc, &TWO, spawner)?;
    assert_eq!(rt; end, ServeEnd::NoMemory);
    assert_eq!(rt; scene.away.load(Ordering::SeqCst), 1);
    Ok(())
}

/// What a hub is served with, and what comes of it: how that ends, how many links were closed with 1001 and how many gave
/// Closed, how many jobs were taken, and what the own journal has.
struct Row {
    asked: Served,
    end: ServeEnd,
    away: u64,
    closed: u64,
    jobs: usize,
    own: &'static str,
}

const ROWS: [Row; 12] = [
    // Each session has joined and left before the hub is stopped: its counts have both.
    Row {
        asked: Served {
            parts: &[JOINING, JOINING],
            is_recorded: true,
            ..TWO
        },
        end: ServeEnd::Done {
            counts: Counts { joined: 2, ..NONE },
            unstarted: 0,
        },
        away: 0,
        closed: 2,
        jobs: 2,
        own: "4 0 stop counts joined=2 replaced=0 refused=0 unicasts=0 broadcasts=0 appended=0 dropped=0 full=0 missed=0\n",
    },
    // A device that the policy doesn't admit doesn't join.
    Row {
        asked: Served {
            parts: &[OTHER, JOINING],
            is_guarded: true,
            ..TWO
        },
        end: ServeEnd::Done {
            counts: Counts { joined: 1, ..NONE },
            unstarted: 0,
        },
        away: 0,
        closed: 1,
        jobs: 2,
        own: "2 0 stop counts joined=1 replaced=0 refused=0 unicasts=0 broadcasts=0 appended=0 dropped=0 full=0 missed=0\n",
    },
    // The second of three starts fails; and at a hub with one number there is none for a second session.
    Row {
        asked: Served {
            parts: &[CLOSING, CLOSING, CLOSING],
            starts: &[2],
            ..TWO
        },
        end: ServeEnd::Done {
            counts: NONE,
            unstarted: 1,
        },
        away: 1,
        closed: 2,
        jobs: 2,
        own: STOP_LINE,
    },
    Row {
        asked: Served {
            numbers: 1,
            parts: &[CLOSING, CLOSING, CLOSING],
            ..TWO
        },
        end: ServeEnd::Done {
            counts: NONE,
            unstarted: 2,
        },
        away: 2,
        closed: 1,
        jobs: 1,
        own: STOP_LINE,
    },
    // The line of the Stop is put into the own journal.
    Row {
        asked: TWO,
        end: ServeEnd::Done {
            counts: NONE,
            unstarted: 0,
        },
        away: 0,
        closed: 2,
        jobs: 2,
        own: STOP_LINE,
    },
    // The acceptor fails: the session that has begun is awaited, and the hub is stopped.
    Row {
        asked: Served {
            accepts: &[2],
            ..TWO
        },
        end: ServeEnd::AcceptFault,
        away: 0,
        closed: 1,
        jobs: 1,
        own: STOP_LINE,
    },
    // The stop is asked for before the second link: it isn't taken, the hub is stopped, and then the session that has begun is
    // awaited. Asked for at the first look no link is taken.
    Row {
        asked: Served { asks: 2, ..TWO },
        end: ServeEnd::Requested {
            counts: Some(NONE),
            unstarted: 0,
        },
        away: 0,
        closed: 1,
        jobs: 1,
        own: STOP_LINE,
    },
    Row {
        asked: Served { asks: 1, ..TWO },
        end: ServeEnd::Requested {
            counts: Some(NONE),
            unstarted: 0,
        },
        away: 0,
        closed: 0,
        jobs: 0,
        own: STOP_LINE,
    },
    // The own journal takes no line, and the stop was asked for.
    Row {
        asked: Served {
            asks: 2,
            is_full: true,
            ..TWO
        },
        end: ServeEnd::JournalFault,
        away: 0,
        closed: 1,
        jobs: 1,
        own: "",
    },
    // A journal can't be begun, for the second of two links.
    Row {
        asked: Served {
            begins: 2,
            is_recorded: true,
            ..TWO
        },
        end: ServeEnd::JournalFault,
        away: 1,
        closed: 1,
        jobs: 1,
        own: STOP_LINE,
    },
    // The own journal takes no line; that goes before a fault of the acceptor.
    Row {
        asked: Served {
            is_full: true,
            ..TWO
        },
        end: ServeEnd::JournalFault,
        away: 0,
        closed: 2,
        jobs: 2,
        own: "",
    },
    Row {
        asked: Served {
            accepts: &[2],
            is_full: true,
            ..TWO
        },
        end: ServeEnd::JournalFault,
        away: 0,
        closed: 1,
        jobs: 1,
        own: "",
    },
];

#[test]
fn each_end(rt: HostRuntime) -> Result<(), Fail> {
    let alloc = rt.alloc();
    for (place, row) in ROWS.iter().enumerate() {
        let spawner = MemSpawner::new(alloc, row.asked.starts);
        let (end, spawner, own, scene) = serve(&rt, alloc, &row.asked, spawner)?;
        assert!(rt;
            end == row.end && spawner.taken() == Some(row.jobs),
            "row {place}"
        );
        assert!(rt;
            scene.away.load(Ordering::SeqCst) == row.away,
            "row {place}"
        );
        assert!(rt;
            scene.closed.load(Ordering::SeqCst) == row.closed,
            "row {place}"
        );
        assert!(rt; own.octets.as_slice() == row.own.as_bytes(), "row {place}");
    }
    Ok(())
}
