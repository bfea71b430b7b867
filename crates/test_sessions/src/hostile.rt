//! Links that give what is wrong, too much or nothing, or fail at it: how their sessions end, and what the hub then knows.
ghost use Rattle.bsc_hub.specs.Passing.{IsCaller};

use crate::peers::{CONNECT_A, LIMITS, NONE, new_hub};
use bsc_edge::{Incoming, MemClock, MemLink, Said};
use bsc_history::{Counts, End, Refusal};
use bsc_hub::{Hub, Pass};
use bsc_octets::{NoMemory, Octets, read_identity};
use bsc_ring::Take;
use bsc_session::{Ended, SessionSetup, Why, serve_connection};
use std::alloc::Global;
use std::sync::Wait;
use std::test::*;

/// What a link gives.
#[derive(Clone, Copy)]
enum Gives {
    Octets(&'static [u8]),
    /// A unicast of 1,601 octets, one more than the hub takes.
    TooLong,
    Text,
    Quiet,
}

/// What a link gives before Closed, which of its calls fail, and the readings of the clock. Then what comes of it: how the session
/// ends, the code of its closing, 0 where there is none, and its reason; and how many entries the hub then has, with its counts.
#[derive(Clone, Copy)]
struct Row {
    gives: &'static [Gives],
    failing: &'static [u64],
    readings: &'static [u64],
    ended: Ended,
    closing: (u16, &'static str),
    entries: u64,
    counts: Counts,
}

/// How the session of A ends, whose peer closes behind its connect.
const JOINED: Ended = Ended {
    why: Why::PeerClosed,
    conn: Some(1),
    taken: 0,
    empties: 1,
    turns: 2,
};

/// A connects, and its peer closes.
const JOINING: Row = Row {
    gives: &[Gives::Octets(CONNECT_A)],
    failing: &[],
    readings: &[],
    ended: JOINED,
    closing: (0, ""),
    entries: 2,
    counts: Counts { joined: 1, ..NONE },
};

/// A sends a text.
const TEXT: Row = Row {
    gives: &[Gives::Octets(CONNECT_A), Gives::Text],
    ended: Ended {
        why: Why::NotBinary,
        ..JOINED
    },
    closing: (1003, ""),
    ..JOINING
};

/// A asks to be disconnected.
const LEAVING: Row = Row {
    gives: &[Gives::Octets(CONNECT_A), Gives::Octets(&[8, 0, 0, 7])],
    ..JOINING
};

/// A hub that has stopped refuses A.
const STOPPED: Row = Row {
    ended: Ended {
        why: Why::Refused(Refusal::Stopped),
        conn: None,
        taken: 0,
        empties: 0,
        turns: 1,
    },
    closing: (1001, ""),
    counts: Counts { refused: 1, ..NONE },
    ..JOINING
};

/// A sends three unicasts to B.
const FLOODING: Row = Row {
    gives: &[
        Gives::Octets(CONNECT_A),
        Gives::Octets(&[1, 4, 0, 2, 2, 0, 0, 0, 0, 11, 1, 0]),
        Gives::Octets(&[1, 4, 0, 3, 2, 0, 0, 0, 0, 11, 1, 0]),
        Gives::Octets(&[1, 4, 0, 4, 2, 0, 0, 0, 0, 11, 1, 0]),
    ],
    ended: Ended {
        conn: Some(2),
        empties: 4,
        turns: 5,
        ..JOINED
    },
    entries: 6,
    counts: Counts {
        joined: 2,
        unicasts: 3,
        appended: 2,
        dropped: 1,
        full: 1,
        ..NONE
    },
    ..JOINING
};

const ROWS: [Row; 8] = [
    JOINING,
    // A text, whose closing fails or doesn't.
    TEXT,
    Row {
        failing: &[4],
        ..TEXT
    },
    // A Disconnect-Request: its answer fails, or the closing behind it.
    Row {
        failing: &[4],
        ended: Ended {
            why: Why::LinkFault,
            ..JOINED
        },
        ..LEAVING
    },
    Row {
        failing: &[5],
        ended: Ended {
            why: Why::PeerLeft,
            ..JOINED
        },
        closing: (1000, ""),
        ..LEAVING
    },
    // Two octets, and more of them than the hub takes: it is silent, and nothing is forwarded.
    Row {
        gives: &[Gives::Octets(CONNECT_A), Gives::Octets(&[1, 4])],
        ended: Ended {
            empties: 2,
            turns: 3,
            ..JOINED
        },
        ..JOINING
    },
    Row {
        gives: &[Gives::Octets(CONNECT_A), Gives::TooLong],
        ended: Ended {
            empties: 2,
            turns: 3,
            ..JOINED
        },
        ..JOINING
    },
    // Nothing comes for ten seconds.
    Row {
        gives: &[Gives::Quiet, Gives::Quiet],
        readings: &[0, 9_999, 10_000],
        ended: Ended {
            why: Why::WaitExpired,
            conn: None,
            taken: 0,
            empties: 0,
            turns: 2,
        },
        closing: (1008, "connect wait"),
        entries: 0,
        counts: NONE,
        ..JOINING
    },
];

/// What is given, in memory of its own.
fn given(alloc: Global, gives: Gives) -> Result<Incoming, NoMemory> {
    match gives {
        Gives::Octets(octets) => {
            Ok(Incoming::Message(Octets::from_vec(Vec::from_slice(alloc, octets)?)))
        }
        Gives::TooLong => {
            let mut octets = Vec::from_slice(alloc, &[1, 4, 0, 2, 2, 0, 0, 0, 0, 11])?;
            octets.extend_from_slice(&[0; 1_591])?;
            Ok(Incoming::Message(Octets::from_vec(octets)))
        }
        Gives::Text => Ok(Incoming::Text),
        Gives::Quiet => Ok(Incoming::Quiet),
    }
}

/// Serves the link of a row. Whether its session ends so, its link is closed so, and the hub then knows so much.
fn ends_so<R: Wait>(
    rt: &R,
    alloc: Global,
    hub: &Hub,
    pass: &mut Pass,
    row: &Row,
) -> Result<bool, NoMemory>
    requires { IsCaller hub.now pass.old }
{
    let mut gives = Vec::new(alloc);
    for it in row.gives {
        gives.push(given(alloc, *it)?)?;
    }
    let mut link = MemLink::new(alloc, gives, row.failing);
    let mut clock = MemClock::new(alloc, row.readings);
    let side = SessionSetup {
        rt,
        alloc,
        hub,
        limits: &LIMITS,
        turns: 100,
    };
    let ended = serve_connection(side, pass, &mut link, &mut clock);
    let is_closed_so = match link.talk().unwrap_or(&[]).last() {
        Some(Said::Closed(code, reason)) => {
            (*code, reason.as_slice()) == (row.closing.0, row.closing.1.as_bytes())
        }
        _ => row.closing.0 == 0,
    };
    let knows_so = match hub.counts(rt, pass) {
        Ok(told) => told.at == row.entries && told.said == row.counts,
        Err(_) => false,
    };
    Ok(ended == row.ended && is_closed_so && knows_so)
}

#[test]
fn each_link_ends_so(rt: HostRuntime) -> Result<(), Fail> {
    let alloc = rt.alloc();
    for (place, row) in ROWS.iter().enumerate() {
        let (hub, mut pass) = new_hub(alloc, 64, 1)?;
        assert!(rt; ends_so(&rt, alloc, &hub, &mut pass, row)?, "row {place}");
    }
    let (hub, mut pass) = new_hub(alloc, 64, 1)?;
    assert!(rt; hub.stop(&rt, &mut pass).is_ok());
    assert!(rt; ends_so(&rt, alloc, &hub, &mut pass, &STOPPED)?);
    Ok(())
}

/// The third unicast finds B's outbox full. B's outlet gives the two before it, and then that End.
#[test]
fn a_full_outbox_gives_its_frames(rt: HostRuntime) -> Result<(), Fail> {
    let alloc = rt.alloc();
    let b = read_identity(&[
        2, 0, 0, 0, 0, 11, 11, 11, 11, 11, 11, 11, 11, 11, 11, 11, 11, 11, 11, 11, 11, 11, 6, 64,
        5, 217,
    ]);
    let (hub, mut own) = new_hub(alloc, 2, 2)?;
    let Ok(mut pass) = hub.split(&rt, &mut own) else {
        panic!(rt; "there is a second number");
    };
    let Ok(joined) = hub.connect(&rt, alloc, &mut own, b) else {
        panic!(rt; "B joins");
    };
    let mut outlet = joined.outlet;
    assert!(rt; ends_so(&rt, alloc, &hub, &mut pass, &FLOODING)?);
    for id in [2, 3] {
        let Take::Frame(frame) = outlet.take() else {
            panic!(rt; "there is a frame");
        };
        assert!(rt; frame.as_slice() == [1, 8, 0, id, 2, 0, 0, 0, 0, 10, 1, 0].as_slice());
    }
    assert!(rt; matches!(outlet.take(), Take::Closed(End::Full)));
    Ok(())
}
