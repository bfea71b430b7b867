//! Runs of a node that has direct connections.
use super::hubs::{ACCEPT, SETTINGS, SETTINGS_DIRECT};
use crate::row::{ALONE, Gives, Peer, Row};

/// The same accept of a hub that takes NPDUs of two octets.
const ACCEPT_SHORT: Gives = Gives::Message(
    "070000010200000000FF00112233445566778899AABBCCDDEEFF06400002",
);

pub const PEERS: &[Row] = &[
    Row {
        shows: "what a node with direct connections answers",
        settings: SETTINGS_DIRECT,
        script: "at 40\nfinish\n",
        readings: &[0, 10, 20, 30, 40],
        dialled: &[Peer {
            name: "hub",
            gives: &[
                ACCEPT,
                Gives::Message("0208001102000000000A"),
                Gives::Message("0508001202000000000A"),
                Gives::Message("09000003"),
            ],
            failing: &[],
        }],
        written: "hub primary\nhub none\nfinished\n",
        port: Some(4444),
        did: concat!(
            "0 dial hub ws://localhost:4443/\n",
            "10 hub put 0600000102000000000BBBBBBBBBBBBBBBBBBBBBBBBBBBBBBBBB064005D9\n",
            "20 hub put 0304001102000000000A77733A2F2F6C6F63616C686F73743A343434342F\n",
            "30 hub put 0404000202000000000A0101064005D9\n",
            "40 hub put 08000003\n",
            "40 hub close 1000\n",
        ),
        ..ALONE
    },
    Row {
        shows: "a node that is dialled by A: NPDUs go each way without addresses",
        settings: SETTINGS_DIRECT,
        script: "at 20\nsend 02000000000A 0104\nat 40\nfinish\n",
        readings: &[0, 10, 20, 30, 40, 50],
        arriving: &[Peer {
            name: "A",
            gives: &[
                Gives::Message("0600000102000000000AAAAAAAAAAAAAAAAAAAAAAAAAAAAAAAAA064005D9"),
                Gives::Message("010000020100"),
                Gives::Quiet,
                Gives::Message("09000002"),
            ],
            failing: &[],
        }],
        written: concat!(
            "direct 02000000000A up\n",
            "npdu 02000000000A unicast 0100\n",
            "direct 02000000000A down\n",
            "finished\n",
        ),
        port: Some(4444),
        did: concat!(
            "0 dial hub ws://localhost:4443/\n",
            "10 A put 0700000102000000000BBBBBBBBBBBBBBBBBBBBBBBBBBBBBBBBB064005D9\n",
            "20 A put 010000010104\n",
            "40 A put 08000002\n",
            "40 A close 1000\n",
        ),
        ..ALONE
    },
    Row {
        shows: "a node that asks for A's URIs over the hub, dials A, and sends to it there",
        settings: SETTINGS,
        script: "at 20\nresolve 02000000000A\nat 30\ndirect 02000000000A\nat 50\nsend 02000000000A 0104\nat 60\nfinish\n",
        readings: &[0, 10, 20, 30, 40, 50, 60],
        dialled: &[
            Peer {
                name: "hub",
                gives: &[
                    ACCEPT,
                    Gives::Message("0308000202000000000A77733A2F2F6C6F63616C686F73743A343434362F"),
                    Gives::Quiet,
                    Gives::Quiet,
                    Gives::Quiet,
                    Gives::Message("09000005"),
                ],
                failing: &[],
            },
            Peer {
                name: "A",
                gives: &[
                    Gives::Message("0700000302000000000AAAAAAAAAAAAAAAAAAAAAAAAAAAAAAAAA064005D9"),
                    Gives::Quiet,
                    Gives::Message("09000006"),
                ],
                failing: &[],
            },
        ],
        written: concat!(
            "hub primary\n",
            "uris 02000000000A 77733A2F2F6C6F63616C686F73743A343434362F\n",
            "direct 02000000000A up\n",
            "hub none\n",
            "direct 02000000000A down\n",
            "finished\n",
        ),
        did: concat!(
            "0 dial hub ws://localhost:4443/\n",
            "10 hub put 0600000102000000000BBBBBBBBBBBBBBBBBBBBBBBBBBBBBBBBB064005D9\n",
            "20 hub put 0204000202000000000A\n",
            "30 dial direct ws://localhost:4446/\n",
            "40 A put 0600000302000000000BBBBBBBBBBBBBBBBBBBBBBBBBBBBBBBBB064005D9\n",
            "50 A put 010000040104\n",
            "60 hub put 08000005\n",
            "60 A put 08000006\n",
            "60 hub close 1000\n",
            "60 A close 1000\n",
        ),
        ..ALONE
    },
    Row {
        shows: "what can't be done without a hub; the failure of a dial isn't told once its link is closed",
        settings: SETTINGS,
        script: "send 02000000000A 01\nresolve 02000000000A\nsolicit 02000000000A\ndirect 02000000000A\nfinish\n",
        readings: &[7],
        written: concat!(
            "nopath 02000000000A\n",
            "nopath 02000000000A\n",
            "nopath 02000000000A\n",
            "nouris 02000000000A\n",
            "finished\n",
        ),
        did: "7 dial hub ws://localhost:4443/\n",
        ..ALONE
    },
    Row {
        shows: "what can't be done at a hub: an NPDU that is too long, a second question, no URI, and none that can be dialled",
        settings: SETTINGS,
        script: concat!(
            "at 20\nsend 02000000000A 010203\nresolve 02000000000A\nresolve 02000000000A\n",
            "at 30\ndirect 02000000000A\nresolve 02000000000A\n",
            "at 40\ndirect 02000000000A\n",
            "at 50\nfinish\n",
        ),
        readings: &[0, 10, 20, 30, 40, 50],
        dialled: &[Peer {
            name: "hub",
            gives: &[
                ACCEPT_SHORT,
                Gives::Message("0008000202000000000A0201000007002D"),
                Gives::Message("0308000302000000000A687474703A2F2F612F"),
                Gives::Quiet,
                Gives::Message("09000004"),
            ],
            failing: &[],
        }],
        written: concat!(
            "hub primary\n",
            "toolong 02000000000A\n",
            "pending 02000000000A\n",
            "nak 02000000000A 02 45\n",
            "nouris 02000000000A\n",
            "uris 02000000000A 687474703A2F2F612F\n",
            "nodirect 02000000000A\n",
            "hub none\n",
            "finished\n",
        ),
        did: concat!(
            "0 dial hub ws://localhost:4443/\n",
            "10 hub put 0600000102000000000BBBBBBBBBBBBBBBBBBBBBBBBBBBBBBBBB064005D9\n",
            "20 hub put 0204000202000000000A\n",
            "30 hub put 0204000302000000000A\n",
            "50 hub put 08000004\n",
            "50 hub close 1000\n",
        ),
        ..ALONE
    },
];
