//! Runs that end by a fault.
use super::hubs::{ACCEPT, SETTINGS, SETTINGS_DIRECT};
use crate::row::{ALONE, Failing, Gives, NOTHING, Peer, Row};

/// The settings of B, which may make three turns.
const SETTINGS_TURNS: &str = concat!(
    "[node]\n",
    "vmac = \"02000000000B\"\n",
    "uuid = \"bbbbbbbb-bbbb-bbbb-bbbb-bbbbbbbbbbbb\"\n",
    "primary = \"ws://localhost:4443/\"\n",
    "max_bvlc = 1600\n",
    "turns = 3\n",
);

/// A hub that accepts.
const HUB: Peer = Peer {
    name: "hub",
    gives: &[ACCEPT, Gives::Quiet, Gives::Quiet, Gives::Quiet],
    failing: &[],
};

/// What the node does until a hub has accepted it.
const CONNECTED: &str = concat!(
    "0 dial hub ws://localhost:4443/\n",
    "10 hub put 0600000102000000000BBBBBBBBBBBBBBBBBBBBBBBBBBBBBBBBB064005D9\n",
);

pub const ENDED: &[Row] = &[
    Row {
        shows: "an acceptor that fails in the second turn",
        settings: SETTINGS_DIRECT,
        script: "at 20\nfinish\n",
        readings: &[0, 10, 20],
        dialled: &[HUB],
        failing: Failing {
            accepts: &[3],
            ..NOTHING
        },
        status: 6,
        written: "hub primary\nfault link\n",
        port: Some(4444),
        did: CONNECTED,
        ..ALONE
    },
    Row {
        shows: "turns that are spent before the node has ended",
        settings: SETTINGS_TURNS,
        script: "at 30\nfinish\n",
        readings: &[0, 10, 20, 30],
        dialled: &[HUB],
        status: 8,
        written: "hub primary\nfault turns\n",
        did: CONNECTED,
        ..ALONE
    },
    Row {
        shows: "a write that fails",
        settings: SETTINGS,
        script: "at 20\nfinish\n",
        readings: &[0, 10, 20],
        dialled: &[HUB],
        failing: Failing {
            writes: &[1],
            ..NOTHING
        },
        status: 4,
        written: "",
        did: CONNECTED,
        ..ALONE
    },
];
