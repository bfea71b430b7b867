//! Machines against steps worked out by hand, and against a second reading of the rules.
ghost use Rattle.std.specs.Prelude.{◌<◌, IfSome};
ghost use Rattle.bsc_accept.specs.Standing.{IsConnected};

mod reading;
mod rows;
mod telling;

use crate::messages::{Came, Does};
use crate::peers::hub;
use bsc_accept::{Accepting, Closing, Step, Times};
use bsc_checks::Verdict;
use bsc_history::{End, Refusal};
use bsc_octets::Identity;
use reading::Reading;
use rows::{ASKING, CLOSINGS, CONNECTED, HUB_TIMES, JOIN, JOINED, NOT_JOINED, Row};
use std::alloc::Global;
use std::process::Abort;
use telling::{Machine, Told};

/// A machine that was started, asked, and joined: it is connected.
fn connected(own: Identity, times: Times, now: u64, request: &Verdict) -> Option<Accepting>
    ensures { IfSome result (λ machine. IsConnected machine) }
{
    let mut machine = Accepting::start(own, times, now);
    match machine.message(now, request) {
        Step::Ask(_) => {
            let _accept = machine.joined();
            Some(machine)
        }
        _ => None,
    }
}

fn run(rt: &impl Abort, alloc: Global, machine: &mut Machine, rows: &[Row]) {
    for (now, told, want) in rows {
        assert!(rt;
            machine.does(alloc, *now, *told) == Some(*want),
            "at {now}: {want:?}"
        );
    }
}

#[test]
fn machines_make_the_worked_steps(rt: HostRuntime) {
    for rows in ASKING.iter() {
        let mut machine = Machine::start(hub(), HUB_TIMES, 0);
        run(&rt, rt.alloc(), &mut machine, rows);
    }
    for rows in CONNECTED.iter() {
        let mut machine = Machine::start(hub(), HUB_TIMES, 0);
        run(&rt, rt.alloc(), &mut machine, &JOIN);
        run(&rt, rt.alloc(), &mut machine, rows);
    }
}

#[test]
fn replies_have_the_octets_of_the_worked_scripts(rt: HostRuntime) {
    for rows in [JOINED.as_slice(), NOT_JOINED.as_slice()] {
        let mut machine = Machine::start(hub(), HUB_TIMES, 0);
        run(&rt, rt.alloc(), &mut machine, &JOIN[..1]);
        for (told, octets) in rows {
            match machine.tell(rt.alloc(), 1, *told) {
                Some(Step::Put(put)) => assert!(rt; put.as_slice() == *octets),
                Some(Step::PutClose(put, _)) => assert!(rt; put.as_slice() == *octets),
                _ => assert!(rt; false, "{octets:?}"),
            }
        }
    }
}

#[test]
fn reasons_have_their_texts(rt: HostRuntime) {
    for (closing, code, text) in CLOSINGS.iter() {
        assert!(rt;
            closing.code == *code && closing.reason.text() == *text,
            "{code} {text}"
        );
    }
}

/// The next of a row of numbers that look drawn (a linear congruence of Knuth's), below `below`.
fn drawn(seed: &mut u64, below: u64) -> u64
    requires { 0 < below }
    ensures { result < below }
{
    *seed = seed
        .wrapping_mul(6_364_136_223_846_793_005)
        .wrapping_add(1_442_695_040_888_963_407);
    (*seed >> 33) % below
}

/// Something that is told, drawn.
fn something(seed: &mut u64) -> Told {
    let id = if drawn(seed, 2) == 0 { 1 } else { 2 };
    match drawn(seed, 18) {
        0 => Told::Came(Came::Request(id)),
        1 => Told::Came(Came::Heartbeat(id)),
        2 => Told::Came(Came::Disconnect(id)),
        3 => Told::Came(Came::DisconnectAck(id)),
        4 => Told::Came(Came::Nak(0x08, id)),
        5 => Told::Came(Came::Nak(0x06, id)),
        6 => Told::Came(Came::Refused(id)),
        7 => Told::Came(Came::Silence),
        8 => Told::Came(Came::Carried),
        9 => Told::NotJoined(Refusal::Duplicate { holder: None }),
        10 => Told::NotJoined(Refusal::TableFull { rows: 1 }),
        11 => Told::NotJoined(Refusal::Stopped),
        12 => Told::Ended(End::Full),
        13 => Told::Ended(End::Replaced),
        14 => Told::Finish(id),
        15 => Told::Tick,
        _ => Told::Joined,
    }
}

/// Short waits, so that some of them pass.
const TIMES: Times = Times {
    connect_wait: 60,
    disconnect_wait: 40,
    heartbeat: 4,
};

/// Machines and readers of the rules are told the same, for as long as both last, and then begin anew.
#[test]
fn ten_thousand_events_give_the_steps_of_the_second_reading(rt: HostRuntime) {
    for start in [1, 20, 300, 4_000] {
        let mut seed = start;
        let mut now = 0u64;
        let (mut events, mut idle) = (0u32, 0u32);
        let mut machine = Machine::start(hub(), TIMES, 0);
        let mut reading = Reading::start(TIMES, 0);
        for turn in 0..8_000 {
            let told = something(&mut seed);
            let leap = if drawn(&mut seed, 8) == 0 { 50 } else { 8 };
            now = now.saturating_add(drawn(&mut seed, leap));
            if let Some(does) = machine.does(rt.alloc(), now, told) {
                assert!(rt;
                    reading.step(now, told) == does,
                    "seed {start}, turn {turn}"
                );
                events = events.saturating_add(1);
                if does == Does::Closes(Closing::IDLE) {
                    idle = idle.saturating_add(1);
                }
            }
            if reading.over {
                machine = Machine::start(hub(), TIMES, now);
                reading = Reading::start(TIMES, now);
            }
        }
        assert!(rt; events >= 2_500 && idle >= 5, "seed {start}");
    }
}
