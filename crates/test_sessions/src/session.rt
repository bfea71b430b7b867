//! A session of which each call on its link fails in turn, and each line of its journal.
use crate::peers::{CONNECT_A, LIMITS, new_hub};
use bsc_edge::{Incoming, MemClock, MemLink, Said};
use bsc_octets::Octets;
use bsc_outside::MemSink;
use bsc_session::{Ended, SessionSetup, Why, serve_recorded};
use std::process::Abort;
use std::test::*;

/// What the link gives before Closed: A's connect, a unicast of A to itself, and a Disconnect-Request.
const COURSE: [&[u8]; 3] = [
    CONNECT_A,
    &[1, 4, 0, 2, 2, 0, 0, 0, 0, 10, 1, 0],
    &[8, 0, 0, 7],
];

/// The number of the call on the link that fails, the first being 1, and that of the line that can't be put. Then what comes
/// of it: how the session ends, the code of its closing, 0 where there is none, and what its journal has.
struct Row {
    failing: &'static [u64],
    unwritten: &'static [u64],
    ended: Ended,
    code: u16,
    lines: &'static str,
}

const ROWS: [Row; 10] = [
    // The receive of the connect, the put of its answer, and so on to the closing.
    Row {
        failing: &[1],
        unwritten: &[],
        ended: Ended {
            why: Why::LinkFault,
            conn: None,
            taken: 0,
            empties: 0,
            turns: 1,
        },
        code: 0,
        lines: "",
    },
    Row {
        failing: &[2],
        unwritten: &[],
        ended: Ended {
            why: Why::LinkFault,
            conn: Some(1),
            taken: 0,
            empties: 0,
            turns: 1,
        },
        code: 0,
        lines: "0 0 connect 02000000000A0A0A0A0A0A0A0A0A0A0A0A0A0A0A0A0A064005D9 joined 1
1 0 leave 1 0 0 gone left 0
",
    },
    Row {
        failing: &[3],
        unwritten: &[],
        ended: Ended {
            why: Why::LinkFault,
            conn: Some(1),
            taken: 0,
            empties: 1,
            turns: 2,
        },
        code: 0,
        lines: "0 0 connect 02000000000A0A0A0A0A0A0A0A0A0A0A0A0A0A0A0A0A064005D9 joined 1
1 0 leave 1 0 1 gone left 0
",
    },
    Row {
        failing: &[4],
        unwritten: &[],
        ended: Ended {
            why: Why::LinkFault,
            conn: Some(1),
            taken: 1,
            empties: 1,
            turns: 2,
        },
        code: 0,
        lines: "0 0 connect 02000000000A0A0A0A0A0A0A0A0A0A0A0A0A0A0A0A0A064005D9 joined 1
1 0 forward 1 0104000202000000000A0100 looks 1:0 sent 1
2 0 leave 1 1 1 gone left 1
",
    },
    Row {
        failing: &[5],
        unwritten: &[],
        ended: Ended {
            why: Why::LinkFault,
            conn: Some(1),
            taken: 1,
            empties: 2,
            turns: 3,
        },
        code: 0,
        lines: "0 0 connect 02000000000A0A0A0A0A0A0A0A0A0A0A0A0A0A0A0A0A064005D9 joined 1
1 0 forward 1 0104000202000000000A0100 looks 1:0 sent 1
2 0 leave 1 1 2 gone left 1
",
    },
    Row {
        failing: &[6],
        unwritten: &[],
        ended: Ended {
            why: Why::LinkFault,
            conn: Some(1),
            taken: 1,
            empties: 2,
            turns: 3,
        },
        code: 0,
        lines: "0 0 connect 02000000000A0A0A0A0A0A0A0A0A0A0A0A0A0A0A0A0A064005D9 joined 1
1 0 forward 1 0104000202000000000A0100 looks 1:0 sent 1
2 0 leave 1 1 2 gone left 1
",
    },
    Row {
        failing: &[7],
        unwritten: &[],
        ended: Ended {
            why: Why::PeerLeft,
            conn: Some(1),
            taken: 1,
            empties: 2,
            turns: 3,
        },
        code: 1000,
        lines: "0 0 connect 02000000000A0A0A0A0A0A0A0A0A0A0A0A0A0A0A0A0A064005D9 joined 1
1 0 forward 1 0104000202000000000A0100 looks 1:0 sent 1
2 0 leave 1 1 2 gone left 1
",
    },
    // The line of the join, that of the unicast, and that of the Leave, which comes after the closing.
    Row {
        failing: &[],
        unwritten: &[1],
        ended: Ended {
            why: Why::JournalFault,
            conn: Some(1),
            taken: 0,
            empties: 0,
            turns: 1,
        },
        code: 1011,
        lines: "",
    },
    Row {
        failing: &[],
        unwritten: &[2],
        ended: Ended {
            why: Why::JournalFault,
            conn: Some(1),
            taken: 0,
            empties: 1,
            turns: 2,
        },
        code: 1011,
        lines: "0 0 connect 02000000000A0A0A0A0A0A0A0A0A0A0A0A0A0A0A0A0A064005D9 joined 1
",
    },
    Row {
        failing: &[],
        unwritten: &[3],
        ended: Ended {
            why: Why::JournalFault,
            conn: Some(1),
            taken: 1,
            empties: 2,
            turns: 3,
        },
        code: 1000,
        lines: "0 0 connect 02000000000A0A0A0A0A0A0A0A0A0A0A0A0A0A0A0A0A064005D9 joined 1
1 0 forward 1 0104000202000000000A0100 looks 1:0 sent 1
",
    },
];

#[test]
fn each_call_and_each_line_fails(rt: HostRuntime) -> Result<(), Fail> {
    let alloc = rt.alloc();
    for (place, row) in ROWS.iter().enumerate() {
        let mut gives = Vec::new(alloc);
        for octets in COURSE {
            gives.push(Incoming::Message(Octets::from_vec(Vec::from_slice(alloc, octets)?)))?;
        }
        let (hub, mut pass) = new_hub(alloc, 64, 1)?;
        let mut link = MemLink::new(alloc, gives, row.failing);
        let mut clock = MemClock::new(alloc, &[]);
        let mut journal = MemSink::make(alloc, 1000, row.unwritten)?;
        let side = SessionSetup {
            rt: &rt,
            alloc,
            hub: &hub,
            limits: &LIMITS,
            turns: 100,
        };
        let ended = serve_recorded(side, &mut pass, &mut link, &mut clock, &mut journal);
        let code = match link.talk().unwrap_or(&[]).last() {
            Some(Said::Closed(code, _)) => *code,
            _ => 0,
        };
        assert!(rt; ended == row.ended && code == row.code, "row {place}");
        assert!(rt; journal.held() == row.lines.as_bytes(), "row {place}");
    }
    Ok(())
}
