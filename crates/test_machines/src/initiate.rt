//! A machine against steps worked out by hand.
ghost use Rattle.std.specs.Prelude.{◌≡◌, true, IfSome};
ghost use Rattle.std.proofs.Props.{props};
ghost use Rattle.bsc_initiate.specs.Standing.{is_open, AwaitsWebsocket, IsOpen, LeavesInitiating};
ghost use Rattle.test_machines.specs.Waiting.{init_goes_on, is_unopened};

use crate::messages::{Came, Does, put, verdict};
use crate::peers::{hub, node};
use bsc_accept::{Closing, Times};
use bsc_checks::{Phase, Verdict};
use bsc_initiate::{InitStep, Initiating};
use bsc_octets::Identity;
use std::alloc::Global;
use std::process::Abort;

/// What a machine is told.
#[derive(Clone, Copy)]
enum Told {
    /// Its WebSocket has opened; the Connect-Request has this Message ID.
    Opened(u16),
    Came(Came),
    Finish(u16),
    Tick(u16),
}

/// When something is told, what, and what the machine does.
type Row = (u64, Told, Does);

const TIMES: Times = Times {
    connect_wait: 10_000,
    disconnect_wait: 10_000,
    heartbeat: 300_000,
};

/// What a machine that started at 0 is told, and what it does.
const UNACCEPTED: [&[Row]; 6] = [
    // The peer refuses.
    &[
        (5, Told::Opened(1), Does::Puts(0x06, 1)),
        (10, Told::Came(Came::Nak(0x06, 1)), Does::IsRefused(151)),
    ],
    // Answers with another Message ID or for another function don't count; the connect wait is that since the start.
    &[
        (5, Told::Opened(1), Does::Puts(0x06, 1)),
        (10, Told::Came(Came::Accept(2)), Does::Nothing),
        (20, Told::Came(Came::Nak(0x06, 2)), Does::Nothing),
        (30, Told::Came(Came::Nak(0x08, 1)), Does::Nothing),
        (40, Told::Came(Came::Heartbeat(1)), Does::Nothing),
        (50, Told::Came(Came::Silence), Does::Nothing),
        (60, Told::Came(Came::Refused(4)), Does::Puts(0x00, 4)),
        (9_999, Told::Tick(2), Does::Nothing),
        (10_000, Told::Tick(2), Does::Closes(Closing::CONNECT_WAIT)),
    ],
    // The WebSocket doesn't open.
    &[
        (9_999, Told::Tick(1), Does::Nothing),
        (10_000, Told::Tick(1), Does::Closes(Closing::CONNECT_WAIT)),
    ],
    // The accept comes late, but before a tick.
    &[
        (5, Told::Opened(1), Does::Puts(0x06, 1)),
        (10_001, Told::Came(Came::Accept(1)), Does::Connects),
        (10_002, Told::Tick(2), Does::Nothing),
    ],
    // It is to end before it is accepted.
    &[(3, Told::Finish(1), Does::Closes(Closing::NORMAL))],
    &[
        (5, Told::Opened(1), Does::Puts(0x06, 1)),
        (6, Told::Finish(2), Does::Closes(Closing::NORMAL)),
    ],
];

const JOIN: [Row; 2] = [
    (5, Told::Opened(1), Does::Puts(0x06, 1)),
    (10, Told::Came(Came::Accept(1)), Does::Connects),
];

/// What a machine that was accepted at 10 is told, and what it does.
const ACCEPTED: [&[Row]; 6] = [
    // The peer falls silent.
    &[
        (300_009, Told::Tick(2), Does::Nothing),
        (300_010, Told::Tick(2), Does::Puts(0x0A, 2)),
        (300_011, Told::Tick(3), Does::Nothing),
        (600_009, Told::Tick(3), Does::Nothing),
        (600_010, Told::Tick(3), Does::Closes(Closing::IDLE)),
    ],
    // A message that passed nowhere counts as a message all the same.
    &[
        (300_010, Told::Tick(2), Does::Puts(0x0A, 2)),
        (400_000, Told::Came(Came::Silence), Does::Nothing),
        (699_999, Told::Tick(3), Does::Nothing),
        (700_000, Told::Tick(3), Does::Puts(0x0A, 3)),
        (1_000_000, Told::Tick(4), Does::Closes(Closing::IDLE)),
    ],
    // It serves, and then it is to end.
    &[
        (20, Told::Came(Came::Solicitation(7)), Does::HandsUp),
        (21, Told::Came(Came::Nak(0x06, 1)), Does::HandsUp),
        (22, Told::Came(Came::HeartbeatAck(9)), Does::Nothing),
        (30, Told::Came(Came::Heartbeat(8)), Does::Puts(0x0B, 8)),
        (31, Told::Came(Came::Refused(12)), Does::Puts(0x00, 12)),
        (40, Told::Finish(2), Does::Puts(0x08, 2)),
        (41, Told::Finish(3), Does::Nothing),
        (45, Told::Came(Came::Heartbeat(5)), Does::Nothing),
        (50, Told::Came(Came::DisconnectAck(3)), Does::Nothing),
        (
            60,
            Told::Came(Came::DisconnectAck(2)),
            Does::Closes(Closing::NORMAL),
        ),
    ],
    // A NAK of the Disconnect-Request ends it too.
    &[
        (40, Told::Finish(2), Does::Puts(0x08, 2)),
        (41, Told::Came(Came::Nak(0x06, 2)), Does::Nothing),
        (
            50,
            Told::Came(Came::Nak(0x08, 2)),
            Does::Closes(Closing::NORMAL),
        ),
    ],
    // The Disconnect-Request isn't answered.
    &[
        (40, Told::Finish(2), Does::Puts(0x08, 2)),
        (10_039, Told::Tick(3), Does::Nothing),
        (10_040, Told::Tick(3), Does::Closes(Closing::NORMAL)),
    ],
    // The peer ends it.
    &[(
        20,
        Told::Came(Came::Disconnect(9)),
        Does::PutsAndCloses(0x09, 9, Closing::NORMAL),
    )],
];

fn done(step: &InitStep) -> Does {
    match step {
        InitStep::Put(octets) => {
            let (function, id) = put(octets);
            Does::Puts(function, id)
        }
        InitStep::PutClose(octets, closing) => {
            let (function, id) = put(octets);
            Does::PutsAndCloses(function, id, *closing)
        }
        InitStep::Connected(who) => if *who == hub() {
            Does::Connects
        } else {
            Does::Nothing
        },
        InitStep::Refused { code } => Does::IsRefused(*code),
        InitStep::Up => Does::HandsUp,
        InitStep::Close(closing) => Does::Closes(*closing),
        InitStep::Nothing => Does::Nothing,
    }
}

/// A machine, with what may be told to it next: that its WebSocket has opened where that is unopened, and all else where it
/// runs.
#[derive(Clone, Copy)]
struct Machine {
    initiating: Initiating,
    running: bool,
    unopened: bool,
    ghost if_running: { running ≡ true → is_open initiating.stage ≡ true } by { Prim.hlevel props },
    ghost if_unopened: { unopened ≡ true → is_unopened initiating.stage ≡ true } by { Prim.hlevel props },
}

/// Whether messages, ticks and a finish may come after a step.
fn goes_on(step: &InitStep) -> bool
    ensures { result ≡ init_goes_on step.now }
{
    match step {
        InitStep::PutClose(..) | InitStep::Refused { .. } | InitStep::Close(_) => false,
        InitStep::Put(_) | InitStep::Connected(_) | InitStep::Up | InitStep::Nothing => true,
    }
}

/// A machine after its step.
#[tactic(auto, using(crate::proofs::Waits::left_running))]
fn left(initiating: Initiating, step: &InitStep) -> Machine
    requires { LeavesInitiating step.now initiating }
{
    Machine {
        initiating,
        running: goes_on(step),
        unopened: false,
    }
}

impl Machine {
    #[tactic(auto, using(crate::proofs::Waits::awaits_unopened))]
    fn start(own: Identity, times: Times, now: u64) -> Machine {
        Machine {
            initiating: Initiating::start(own, times, now),
            running: true,
            unopened: true,
        }
    }

    /// The machine, where messages, ticks and a finish may come.
    fn open(&self) -> Option<Initiating>
        ensures { IfSome result (λ m. IsOpen m) }
    {
        if self.running {
            Some(self.initiating)
        } else {
            None
        }
    }

    /// The machine, where its WebSocket is unopened.
    #[tactic(auto, using(crate::proofs::Waits::unopened_awaits))]
    fn awaiting(&self) -> Option<Initiating>
        ensures { IfSome result (λ m. AwaitsWebsocket m) }
    {
        if self.unopened {
            Some(self.initiating)
        } else {
            None
        }
    }

    /// Its step where it is told something, and what it is then. None where that may not come.
    fn step(&self, alloc: Global, now: u64, told: Told) -> Option<(Initiating, InitStep)>
        ensures { IfSome result (λ x. LeavesInitiating x.1 x.0) }
    {
        match told {
            Told::Opened(id) => {
                let mut machine = self.awaiting()?;
                let step = machine.opened(now, id);
                Some((machine, step))
            }
            Told::Came(came) => {
                let mut machine = self.open()?;
                let step = machine.message(now, &verdict(alloc, came));
                Some((machine, step))
            }
            Told::Finish(id) => {
                let mut machine = self.open()?;
                let step = machine.finish(now, id);
                Some((machine, step))
            }
            Told::Tick(id) => {
                let mut machine = self.open()?;
                let step = machine.tick(now, id);
                Some((machine, step))
            }
        }
    }

    /// Tells it something. None where that may not come.
    fn tell(&mut self, alloc: Global, now: u64, told: Told) -> Option<InitStep> {
        let (initiating, step) = self.step(alloc, now, told)?;
        *self = left(initiating, &step);
        Some(step)
    }

    /// What it does where it is told something. None where that may not come.
    fn does(&mut self, alloc: Global, now: u64, told: Told) -> Option<Does> {
        match self.tell(alloc, now, told) {
            Some(step) => Some(done(&step)),
            None => None,
        }
    }
}

fn run(rt: &impl Abort, alloc: Global, machine: &mut Machine, rows: &[Row]) {
    for (now, told, want) in rows {
        assert!(rt;
            machine.does(alloc, *now, *told) == Some(*want),
            "at {now}: {want:?}"
        );
    }
}

/// A machine whose WebSocket opened at once, and what an answer to its Connect-Request brought about.
fn dialled(own: Identity, times: Times, now: u64, answer: &Verdict) -> (Initiating, InitStep) {
    let mut machine = Initiating::start(own, times, now);
    let _request = machine.opened(now, 1);
    let step = machine.message(now, answer);
    (machine, step)
}

#[test]
fn machines_make_the_worked_steps(rt: HostRuntime) {
    for rows in UNACCEPTED.iter() {
        let mut machine = Machine::start(node(), TIMES, 0);
        run(&rt, rt.alloc(), &mut machine, rows);
    }
    for rows in ACCEPTED.iter() {
        let mut machine = Machine::start(node(), TIMES, 0);
        run(&rt, rt.alloc(), &mut machine, &JOIN);
        run(&rt, rt.alloc(), &mut machine, rows);
    }
}

/// Whether a machine puts these octets where it is told something, and is in this phase then.
fn puts(alloc: Global, machine: &mut Machine, told: Told, wanted: &[u8], phase: Phase) -> bool {
    let put = match machine.tell(alloc, 5, told) {
        Some(InitStep::Put(octets)) => octets.as_slice() == wanted,
        _ => false,
    };
    put && machine.initiating.phase() == Some(phase)
}

const REQUEST: [u8; 30] = [
    0x06, 0x00, 0x00, 0x01, 2, 0, 0, 0, 0, 0x0B, 0xBB, 0xBB, 0xBB, 0xBB, 0xBB, 0xBB, 0xBB, 0xBB,
    0xBB, 0xBB, 0xBB, 0xBB, 0xBB, 0xBB, 0xBB, 0xBB, 0x06, 0x40, 0x05, 0xD9,
];

#[test]
fn a_connection_has_its_octets_peer_and_phases(rt: HostRuntime) {
    let alloc = rt.alloc();
    let mut machine = Machine::start(node(), TIMES, 0);
    assert!(rt; machine.initiating.phase().is_none());
    assert!(rt;
        puts(
            alloc,
            &mut machine,
            Told::Opened(1),
            &REQUEST,
            Phase::AwaitingAccept
        )
    );
    assert!(rt; machine.does(alloc, 5, Told::Came(Came::Accept(1))) == Some(Does::Connects));
    assert!(rt; machine.initiating.phase() == Some(Phase::Connected));
    assert!(rt;
        puts(
            alloc,
            &mut machine,
            Told::Finish(2),
            &[0x08, 0x00, 0x00, 0x02],
            Phase::Disconnecting
        )
    );
    let (other, step) = dialled(node(), TIMES, 0, &verdict(alloc, Came::Nak(0x06, 1)));
    assert!(rt; done(&step) == Does::IsRefused(151));
    assert!(rt; other.phase().is_none());
}
