//! Each object once, with a fault in it.
ghost use Rattle.std.specs.Prelude.{⊤};

mod journals;

use bsc_edge::{
    Acceptor, Arrived, Clock, Dialer, Disk, Failed, FileFault, Files, Incoming, Job, Kind, Link,
    LinkFault, MemAcceptor, MemClock, MemDialer, MemFile, MemFiles, MemLink, MemPatience,
    MemSpawner, MemWaiter, Monotonic, Patience, Places, Promised, Running, Spawner, ThreadSpawner,
    Unstarted, Waiter, launch,
};
use bsc_octets::{NoMemory, Octets, Vmac};
use std::alloc::Global;
use std::process::Abort;
use std::sync::{Arc, Mutex, Wait};
use std::test::*;

fn octets(alloc: Global, of: &[u8]) -> Result<Octets, NoMemory> {
    Ok(Octets::from_vec(Vec::from_slice(alloc, of)?))
}

/// What a link in memory gives, and which of its calls fail: the second, the seventh and the eighth.
#[test]
fn links_in_memory(rt: HostRuntime) -> Result<(), Fail> {
    let alloc = rt.alloc();
    let mut gives = Vec::new(alloc);
    gives.push(Incoming::Message(octets(alloc, b"m")?))?;
    gives.push(Incoming::Text)?;
    gives.push(Incoming::Quiet)?;
    let mut link = MemLink::new(alloc, gives, &[2, 7, 8]);
    for wanted in b"mFTQC".iter() {
        let given = match link.receive(alloc, 20) {
            Ok(Incoming::Message(m)) => m.as_slice().first().copied().unwrap_or(0),
            Ok(Incoming::Text) => b'T',
            Ok(Incoming::Quiet) => b'Q',
            Ok(Incoming::Closed) => b'C',
            Err(_) => b'F',
        };
        assert_eq!(rt; given, *wanted);
    }
    assert_eq!(rt; link.put(alloc, b"p"), Ok(()));
    assert_eq!(rt; link.put(alloc, b"q"), Err(LinkFault::Failed));
    assert_eq!(rt; link.close(alloc, 1008, "idle"), Err(LinkFault::Failed));
    assert_eq!(rt; link.talk().unwrap_or(&[]).len(), 8);
    Ok(())
}

#[test]
fn clocks(rt: HostRuntime) -> Result<(), Fail> {
    let alloc = rt.alloc();
    let mut clock = MemClock::new(alloc, &[5, 3, 1 << 63]);
    assert_eq!(rt; clock.now(), 5);
    assert_eq!(rt; clock.now(), 5);
    assert_eq!(rt; clock.another(alloc)?.now(), (1 << 62) - 1);
    assert!(rt; clock.readings().unwrap_or(&[]) == [5, 5].as_slice());
    let mut real = Monotonic::new(rt);
    let first = real.now();
    assert!(rt; 0 < first);
    assert!(rt; first <= real.another(alloc)?.now());
    Ok(())
}

/// What a load answers: the first octet of the file, or None where it failed.
fn loaded<F: Files>(alloc: Global, files: &mut F, path: &str) -> Option<u8> {
    match files.load(alloc, path) {
        Ok(o) => o.as_slice().first().copied(),
        Err(FileFault::Failed) => None,
        Err(FileFault::NoMemory) => Some(b'?'),
    }
}

#[test]
fn files(rt: HostRuntime) -> Result<(), Fail> {
    let alloc = rt.alloc();
    let mut held = Vec::new(alloc);
    held.push(MemFile {
        path: octets(alloc, b"a")?,
        octets: octets(alloc, b"one")?,
    })?;
    let mut files = MemFiles::new(held, &[2]);
    assert_eq!(rt; loaded(alloc, &mut files, "a"), Some(b'o'));
    assert_eq!(rt; loaded(alloc, &mut files, "a"), None);
    assert_eq!(rt; loaded(alloc, &mut files, "b"), None);
    let mut disk = Disk::new(rt);
    assert_eq!(rt;
        loaded(alloc, &mut disk, "/proc/sys/kernel/ostype"),
        Some(b'L')
    );
    assert_eq!(rt; loaded(alloc, &mut disk, "/proc/none"), None);
    Ok(())
}

#[test]
fn acceptors_and_waits_in_memory(rt: HostRuntime) -> Result<(), Fail> {
    let alloc = rt.alloc();
    let mut acceptor = MemAcceptor::new(alloc, Vec::from_slice(alloc, &[7u64])?, &[1, 3]);
    assert_eq!(rt; acceptor.bind(1, Vmac([0; 6])), Err(Failed));
    assert_eq!(rt; acceptor.bind(4443, Vmac([0; 6])), Ok(()));
    assert_eq!(rt; acceptor.bound(), Some(4443));
    assert!(rt; matches!(acceptor.next(alloc, 20), Err(LinkFault::Failed)));
    assert_eq!(rt; acceptor.left(), 1);
    assert!(rt; matches!(acceptor.next(alloc, 0), Ok(Arrived::Link(7))));
    assert!(rt; matches!(acceptor.next(alloc, 5), Ok(Arrived::Quiet)));
    assert!(rt; acceptor.waits().unwrap_or(&[]) == [20, 0, 5].as_slice());
    let mut patience = MemPatience::new(alloc, &[1]);
    assert_eq!(rt; patience.set(1), Err(Failed));
    assert_eq!(rt; patience.set(20), Ok(()));
    assert!(rt; patience.waits().unwrap_or(&[]) == [20].as_slice());
    let mut waiter = MemWaiter::new(alloc);
    waiter.wait(0);
    waiter.wait(50);
    assert!(rt; waiter.waits().unwrap_or(&[]) == [0, 50].as_slice());
    Ok(())
}

/// Adds one to a sum, and leaves what that is then.
#[derive(Drop)]
struct Adds(Arc<Mutex<u64>>);

impl Job for Adds {
    type Done = u64;

    ghost works = { λ _ _. ⊤ };

    fn work<R: Wait>(self, rt: &R) -> u64 {
        let mut sum = self.0.lock(rt);
        *sum = sum.saturating_add(1);
        *sum
    }
}

/// Whether a job that adds to this sum is started; else it comes back.
fn starts<P: Spawner<Adds>, R: Wait>(
    rt: &R,
    alloc: Global,
    spawner: &mut P,
    sum: &Arc<Mutex<u64>>,
) -> Result<bool, NoMemory>
    requires { P.can_start spawner.old }
    ensures { P.can_start spawner.new }
{
    let Ok(sum) = Arc::try_clone(sum) else {
        return Err(NoMemory);
    };
    match spawner.start(rt, alloc, Adds(sum)) {
        Ok(()) => Ok(true),
        Err(Unstarted::Failed(_)) => Ok(false),
        Err(Unstarted::NoMemory(_)) => Err(NoMemory),
    }
}

/// None ends by itself. Where an end is waited for the oldest is worked off; and the others can be had as they are.
#[test]
fn jobs_in_memory(rt: HostRuntime) -> Result<(), Fail> {
    let alloc = rt.alloc();
    let sum = Arc::new(alloc, Mutex::new(0u64))?;
    let mut spawner = MemSpawner::new(alloc, &[2]);
    assert!(rt; starts(&rt, alloc, &mut spawner, &sum)?);
    assert_eq!(rt; spawner.ended(&rt), None);
    assert_eq!(rt; spawner.next_end(&rt), Some(1));
    assert_eq!(rt; spawner.next_end(&rt), None);
    assert!(rt; !starts(&rt, alloc, &mut spawner, &sum)?);
    assert!(rt; starts(&rt, alloc, &mut spawner, &sum)?);
    assert_eq!(rt; spawner.taken(), Some(2));
    for job in Vec::from(spawner.into_jobs()) {
        assert_eq!(rt; job.work(&rt), 2);
    }
    assert_eq!(rt; *sum.lock(&rt), 2);
    Ok(())
}

/// Two places: while jobs have them, the next comes back. The job that has ended is given back while the other one runs, without a
/// wait. A place is free again when what is left of its job was given back: a hundred jobs run one after another.
#[test]
fn threads(rt: HostRuntime) -> Result<(), Fail> {
    let alloc = rt.alloc();
    let slow = Arc::new(alloc, Mutex::new(10u64))?;
    let quick = Arc::new(alloc, Mutex::new(20u64))?;
    let begin = move |alloc: Global, places: &Arc<Places>, job: Adds| -> Result<
        Running<Result<u64, Adds>, Promised<Adds>>,
        Unstarted<Adds>,
    > { launch(&rt, alloc, places, job) };
    let mut spawner = ThreadSpawner::new(rt, alloc, begin, Places::make(alloc, 2)?);
    let held = slow.lock(&rt);
    assert!(rt; starts(&rt, alloc, &mut spawner, &slow)?);
    assert_eq!(rt; spawner.ended(&rt), None);
    assert!(rt; starts(&rt, alloc, &mut spawner, &quick)?);
    assert!(rt; !starts(&rt, alloc, &mut spawner, &quick)?);
    assert_eq!(rt; spawner.next_end(&rt), Some(21));
    for n in 22..122 {
        assert!(rt; starts(&rt, alloc, &mut spawner, &quick)?);
        assert_eq!(rt; spawner.next_end(&rt), Some(n));
    }
    assert_eq!(rt; spawner.ended(&rt), None);
    drop(held);
    assert_eq!(rt; spawner.next_end(&rt), Some(11));
    assert_eq!(rt; spawner.next_end(&rt), None);
    Ok(())
}

#[test]
fn dialers_in_memory(rt: HostRuntime) -> Result<(), Fail> {
    let alloc = rt.alloc();
    let mut dialer = MemDialer::new(alloc, Vec::from_slice(alloc, &[7])?, &[1]);
    assert_eq!(rt;
        dialer.dial(alloc, b"ws://a", Kind::Hub),
        Err(LinkFault::Failed)
    );
    assert_eq!(rt; dialer.dial(alloc, b"ws://b", Kind::Direct), Ok(7u64));
    assert_eq!(rt; dialer.left(), 0);
    assert_eq!(rt;
        dialer.dial(alloc, b"ws://c", Kind::Hub),
        Err(LinkFault::Failed)
    );
    assert_eq!(rt; dialer.dialled().unwrap_or(&[]).len(), 3);
    Ok(())
}
