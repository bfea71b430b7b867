//! Runs of a node at its hubs.
use crate::row::{ALONE, Failing, Gives, NOTHING, Peer, Row};

/// The settings of B, without direct connections and without a failover hub.
pub const SETTINGS: &str = concat!(
    "[node]\n",
    "vmac = \"02000000000B\"\n",
    "uuid = \"bbbbbbbb-bbbb-bbbb-bbbb-bbbbbbbbbbbb\"\n",
    "primary = \"ws://localhost:4443/\"\n",
    "max_bvlc = 1600\n",
);

/// The same, with direct connections.
pub const SETTINGS_DIRECT: &str = concat!(
    "[node]\n",
    "vmac = \"02000000000B\"\n",
    "uuid = \"bbbbbbbb-bbbb-bbbb-bbbb-bbbbbbbbbbbb\"\n",
    "primary = \"ws://localhost:4443/\"\n",
    "direct_port = 4444\n",
    "direct_uris = \"ws://localhost:4444/\"\n",
    "max_bvlc = 1600\n",
);

/// The same, with a failover hub.
const SETTINGS_FAILOVER: &str = concat!(
    "[node]\n",
    "vmac = \"02000000000B\"\n",
    "uuid = \"bbbbbbbb-bbbb-bbbb-bbbb-bbbbbbbbbbbb\"\n",
    "primary = \"ws://localhost:4443/\"\n",
    "failover = \"ws://localhost:4445/\"\n",
    "max_bvlc = 1600\n",
);

/// The accept of the hub 0200000000FF for the Connect-Request with ID 0001.
pub const ACCEPT: Gives = Gives::Message(
    "070000010200000000FF00112233445566778899AABBCCDDEEFF064005D9",
);

/// The same for the one with ID 0002.
const ACCEPT_2: Gives = Gives::Message(
    "070000020200000000FF00112233445566778899AABBCCDDEEFF064005D9",
);

/// The first dial fails.
const FIRST_DIAL: Failing = Failing {
    dials: &[1],
    ..NOTHING
};

pub const HUBS: &[Row] = &[
    Row {
        shows: "a hub that accepts, and doesn't answer the leave within its wait",
        settings: SETTINGS,
        script: "at 100\nfinish\n",
        readings: &[0, 50, 100, 20_000],
        dialled: &[Peer {
            name: "hub",
            gives: &[ACCEPT, Gives::Quiet],
            failing: &[],
        }],
        written: "hub primary\nhub none\nfinished\n",
        did: concat!(
            "0 dial hub ws://localhost:4443/\n",
            "50 hub put 0600000102000000000BBBBBBBBBBBBBBBBBBBBBBBBBBBBBBBBB064005D9\n",
            "100 hub put 08000002\n",
            "20000 hub close 1000\n",
        ),
        ..ALONE
    },
    Row {
        shows: "no hub: the primary is dialled again once the least wait has passed since the failure was told",
        settings: SETTINGS,
        script: "at 50\nsend 02000000000A 0100\nat 2100\nfinish\n",
        readings: &[0, 50, 2049, 2050, 2100],
        written: "nopath 02000000000A\nfinished\n",
        did: "0 dial hub ws://localhost:4443/\n2050 dial hub ws://localhost:4443/\n",
        rests: Some(&[0, 0, 50, 50, 0]),
        ..ALONE
    },
    Row {
        shows: "what a node without direct connections answers; an answer uses no Message ID of its own",
        settings: SETTINGS,
        script: "at 40\nfinish\n",
        readings: &[0, 10, 20, 30, 40],
        dialled: &[Peer {
            name: "hub",
            gives: &[
                ACCEPT,
                Gives::Message("0208001102000000000A"),
                Gives::Message("0508001202000000000A"),
                Gives::Message("09000003"),
            ],
            failing: &[],
        }],
        written: "hub primary\nhub none\nfinished\n",
        did: concat!(
            "0 dial hub ws://localhost:4443/\n",
            "10 hub put 0600000102000000000BBBBBBBBBBBBBBBBBBBBBBBBBBBBBBBBB064005D9\n",
            "20 hub put 0004001102000000000A0201000007002D\n",
            "30 hub put 0404000202000000000A0100064005D9\n",
            "40 hub put 08000003\n",
            "40 hub close 1000\n",
        ),
        rests: Some(&[0, 0, 30, 20, 10]),
        ..ALONE
    },
    Row {
        shows: "NPDUs of all kinds, and a text, which ends the connection",
        settings: SETTINGS,
        script: "at 20\nsend 02000000000A 0104\nsend FFFFFFFFFFFF 01 80\nsolicit 02000000000A\nat 60\nfinish\n",
        readings: &[0, 10, 20, 30, 40, 50, 60],
        dialled: &[Peer {
            name: "hub",
            gives: &[
                ACCEPT,
                Gives::Message("0108000702000000000A0100"),
                Gives::Message("010C000802000000000AFFFFFFFFFFFF0102"),
                Gives::Message("0408000402000000000A0100064005D9"),
                Gives::Text,
            ],
            failing: &[],
        }],
        written: concat!(
            "hub primary\n",
            "npdu 02000000000A unicast 0100\n",
            "npdu 02000000000A broadcast 0102\n",
            "advert 02000000000A 1 0 1600 1497\n",
            "hub none\n",
            "finished\n",
        ),
        did: concat!(
            "0 dial hub ws://localhost:4443/\n",
            "10 hub put 0600000102000000000BBBBBBBBBBBBBBBBBBBBBBBBBBBBBBBBB064005D9\n",
            "20 hub put 0104000202000000000A0104\n",
            "20 hub put 01040003FFFFFFFFFFFF0180\n",
            "20 hub put 0504000402000000000A\n",
            "50 hub close 1003\n",
        ),
        ..ALONE
    },
    Row {
        shows: "a primary that can't be reached, its failover, and back",
        settings: SETTINGS_FAILOVER,
        script: "at 2060\nfinish\n",
        readings: &[0, 30, 40, 2030, 2040, 2050, 2060],
        dialled: &[
            Peer {
                name: "failover",
                gives: &[ACCEPT, Gives::Quiet, Gives::Message("09000003")],
                failing: &[],
            },
            Peer {
                name: "primary",
                gives: &[ACCEPT_2, Gives::Quiet, Gives::Message("09000004")],
                failing: &[],
            },
        ],
        failing: FIRST_DIAL,
        written: "hub failover\nhub primary\nhub none\nfinished\n",
        did: concat!(
            "0 dial hub ws://localhost:4443/\n",
            "30 dial hub ws://localhost:4445/\n",
            "40 failover put 0600000102000000000BBBBBBBBBBBBBBBBBBBBBBBBBBBBBBBBB064005D9\n",
            "2030 dial hub ws://localhost:4443/\n",
            "2040 primary put 0600000202000000000BBBBBBBBBBBBBBBBBBBBBBBBBBBBBBBBB064005D9\n",
            "2040 failover put 08000003\n",
            "2040 failover close 1000\n",
            "2060 primary put 08000004\n",
            "2060 primary close 1000\n",
        ),
        ..ALONE
    },
    Row {
        shows: "links that fail at a put and at a receive",
        settings: SETTINGS,
        script: "at 2120\nfinish\n",
        readings: &[0, 10, 20, 2020, 2030, 2040, 2120],
        dialled: &[
            Peer {
                name: "first",
                gives: &[],
                failing: &[1],
            },
            Peer {
                name: "second",
                gives: &[ACCEPT_2],
                failing: &[3],
            },
        ],
        written: "hub primary\nhub none\nfinished\n",
        did: concat!(
            "0 dial hub ws://localhost:4443/\n",
            "10 first put 0600000102000000000BBBBBBBBBBBBBBBBBBBBBBBBBBBBBBBBB064005D9\n",
            "2020 dial hub ws://localhost:4443/\n",
            "2030 second put 0600000202000000000BBBBBBBBBBBBBBBBBBBBBBBBBBBBBBBBB064005D9\n",
        ),
        ..ALONE
    },
];
