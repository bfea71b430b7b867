//! Runs of a node whose VMAC another node has.
use crate::row::{ALONE, Failing, Gives, NOTHING, Peer, Row};

/// A's VMAC, with the device and the maxima of B.
const SETTINGS_A: &str = concat!(
    "[node]\n",
    "vmac = \"02000000000A\"\n",
    "uuid = \"bbbbbbbb-bbbb-bbbb-bbbb-bbbbbbbbbbbb\"\n",
    "primary = \"ws://localhost:4443/\"\n",
    "max_bvlc = 1600\n",
    "max_npdu = 1497\n",
);

/// The same, with waits of a tenth of a second between two dials, however often they fail.
const SETTINGS_SHORT: &str = concat!(
    "[node]\n",
    "vmac = \"02000000000A\"\n",
    "uuid = \"bbbbbbbb-bbbb-bbbb-bbbb-bbbbbbbbbbbb\"\n",
    "primary = \"ws://localhost:4443/\"\n",
    "max_bvlc = 1600\n",
    "least_reconnect_ms = 100\n",
    "greatest_reconnect_ms = 100\n",
);

/// A hub that refuses the Connect-Request with ID 0001 as a duplicate, a turn after it came.
const REFUSING: Peer = Peer {
    name: "hub",
    gives: &[Gives::Quiet, Gives::Message("0000000106010000070097")],
    failing: &[],
};

/// A hub that answers the Connect-Request with ID 0002, and the Disconnect-Request that comes next.
const ACCEPTING: Peer = Peer {
    name: "hub",
    gives: &[
        Gives::Message("070000020200000000FF00112233445566778899AABBCCDDEEFF064005D9"),
        Gives::Message("09000003"),
    ],
    failing: &[],
};

/// A hub that answers the Connect-Request with ID 0003, and the Disconnect-Request that comes next.
const ACCEPTING_THE_THIRD: Peer = Peer {
    name: "hub",
    gives: &[
        Gives::Message("070000030200000000FF00112233445566778899AABBCCDDEEFF064005D9"),
        Gives::Message("09000004"),
    ],
    failing: &[],
};

/// The first draw fails.
const FIRST_DRAW: Failing = Failing {
    words: &[1],
    ..NOTHING
};

/// A hub that refuses the Connect-Request with ID 0001 as a duplicate.
const REFUSING_THE_FIRST: Peer = Peer {
    name: "hub",
    gives: &[Gives::Message("0000000106010000070097")],
    failing: &[],
};

/// A hub that refuses the one with ID 0002.
const REFUSING_THE_SECOND: Peer = Peer {
    name: "hub",
    gives: &[Gives::Message("0000000206010000070097")],
    failing: &[],
};

/// Hubs that refuse Connect-Requests as duplicates, the first the one with ID 0001.
const REFUSALS: [Peer; 9] = [
    REFUSING_THE_FIRST,
    REFUSING_THE_SECOND,
    Peer {
        name: "hub",
        gives: &[Gives::Message("0000000306010000070097")],
        failing: &[],
    },
    Peer {
        name: "hub",
        gives: &[Gives::Message("0000000406010000070097")],
        failing: &[],
    },
    Peer {
        name: "hub",
        gives: &[Gives::Message("0000000506010000070097")],
        failing: &[],
    },
    Peer {
        name: "hub",
        gives: &[Gives::Message("0000000606010000070097")],
        failing: &[],
    },
    Peer {
        name: "hub",
        gives: &[Gives::Message("0000000706010000070097")],
        failing: &[],
    },
    Peer {
        name: "hub",
        gives: &[Gives::Message("0000000806010000070097")],
        failing: &[],
    },
    Peer {
        name: "hub",
        gives: &[Gives::Message("0000000906010000070097")],
        failing: &[],
    },
];

pub const RENEWED: &[Row] = &[
    Row {
        shows: "a node that is refused as a duplicate connects under the VMAC that it draws",
        settings: SETTINGS_A,
        script: "at 2200\nfinish\n",
        readings: &[0, 50, 100, 2099, 2100, 2150, 2200],
        words: &[0x1234_5678_9ABC_DEF0],
        dialled: &[REFUSING, ACCEPTING],
        written: "nak hub 06 151\nvmac 52789ABCDEF0\nhub primary\nhub none\nfinished\n",
        did: concat!(
            "0 dial hub ws://localhost:4443/\n",
            "50 hub put 0600000102000000000ABBBBBBBBBBBBBBBBBBBBBBBBBBBBBBBB064005D9\n",
            "100 hub close 1000\n",
            "2100 dial hub ws://localhost:4443/\n",
            "2150 hub put 0600000252789ABCDEF0BBBBBBBBBBBBBBBBBBBBBBBBBBBBBBBB064005D9\n",
            "2200 hub put 08000003\n",
            "2200 hub close 1000\n",
        ),
        ..ALONE
    },
    Row {
        shows: "where no word can be drawn, it tries again under the VMAC that it has",
        settings: SETTINGS_A,
        script: "at 2200\nfinish\n",
        readings: &[0, 50, 100, 2099, 2100, 2150, 2200],
        dialled: &[REFUSING, ACCEPTING],
        written: "nak hub 06 151\nnorandom\nhub primary\nhub none\nfinished\n",
        did: concat!(
            "0 dial hub ws://localhost:4443/\n",
            "50 hub put 0600000102000000000ABBBBBBBBBBBBBBBBBBBBBBBBBBBBBBBB064005D9\n",
            "100 hub close 1000\n",
            "2100 dial hub ws://localhost:4443/\n",
            "2150 hub put 0600000202000000000ABBBBBBBBBBBBBBBBBBBBBBBBBBBBBBBB064005D9\n",
            "2200 hub put 08000003\n",
            "2200 hub close 1000\n",
        ),
        ..ALONE
    },
    Row {
        shows: "a draw that fails leaves the VMAC as it is, and takes no word from the next draw",
        settings: SETTINGS_SHORT,
        script: "at 240\nfinish\n",
        readings: &[0, 10, 110, 120, 220, 230, 240],
        words: &[0x1234_5678_9ABC_DEF0],
        dialled: &[REFUSING_THE_FIRST, REFUSING_THE_SECOND, ACCEPTING_THE_THIRD],
        failing: FIRST_DRAW,
        written: concat!(
            "nak hub 06 151\nnorandom\n",
            "nak hub 06 151\nvmac 52789ABCDEF0\n",
            "hub primary\nhub none\nfinished\n",
        ),
        did: concat!(
            "0 dial hub ws://localhost:4443/\n",
            "10 hub put 0600000102000000000ABBBBBBBBBBBBBBBBBBBBBBBBBBBBBBBB064005D9\n",
            "10 hub close 1000\n",
            "110 dial hub ws://localhost:4443/\n",
            "120 hub put 0600000202000000000ABBBBBBBBBBBBBBBBBBBBBBBBBBBBBBBB064005D9\n",
            "120 hub close 1000\n",
            "220 dial hub ws://localhost:4443/\n",
            "230 hub put 0600000352789ABCDEF0BBBBBBBBBBBBBBBBBBBBBBBBBBBBBBBB064005D9\n",
            "240 hub put 08000004\n",
            "240 hub close 1000\n",
        ),
        ..ALONE
    },
    Row {
        shows: "it draws eight times, and keeps the eighth VMAC after the ninth refusal",
        settings: SETTINGS_SHORT,
        script: "at 920\nfinish\n",
        readings: &[
            0, 10, 110, 120, 220, 230, 330, 340, 440, 450, 550, 560, 660, 670, 770, 780, 880, 890,
            920,
        ],
        words: &[1, 2, 3, 4, 5, 6, 7, 8, 9],
        dialled: &REFUSALS,
        written: concat!(
            "nak hub 06 151\nvmac 020000000001\n",
            "nak hub 06 151\nvmac 020000000002\n",
            "nak hub 06 151\nvmac 020000000003\n",
            "nak hub 06 151\nvmac 020000000004\n",
            "nak hub 06 151\nvmac 020000000005\n",
            "nak hub 06 151\nvmac 020000000006\n",
            "nak hub 06 151\nvmac 020000000007\n",
            "nak hub 06 151\nvmac 020000000008\n",
            "nak hub 06 151\n",
            "finished\n",
        ),
        did: concat!(
            "0 dial hub ws://localhost:4443/\n",
            "10 hub put 0600000102000000000ABBBBBBBBBBBBBBBBBBBBBBBBBBBBBBBB064005D9\n",
            "10 hub close 1000\n",
            "110 dial hub ws://localhost:4443/\n",
            "120 hub put 06000002020000000001BBBBBBBBBBBBBBBBBBBBBBBBBBBBBBBB064005D9\n",
            "120 hub close 1000\n",
            "220 dial hub ws://localhost:4443/\n",
            "230 hub put 06000003020000000002BBBBBBBBBBBBBBBBBBBBBBBBBBBBBBBB064005D9\n",
            "230 hub close 1000\n",
            "330 dial hub ws://localhost:4443/\n",
            "340 hub put 06000004020000000003BBBBBBBBBBBBBBBBBBBBBBBBBBBBBBBB064005D9\n",
            "340 hub close 1000\n",
            "440 dial hub ws://localhost:4443/\n",
            "450 hub put 06000005020000000004BBBBBBBBBBBBBBBBBBBBBBBBBBBBBBBB064005D9\n",
            "450 hub close 1000\n",
            "550 dial hub ws://localhost:4443/\n",
            "560 hub put 06000006020000000005BBBBBBBBBBBBBBBBBBBBBBBBBBBBBBBB064005D9\n",
            "560 hub close 1000\n",
            "660 dial hub ws://localhost:4443/\n",
            "670 hub put 06000007020000000006BBBBBBBBBBBBBBBBBBBBBBBBBBBBBBBB064005D9\n",
            "670 hub close 1000\n",
            "770 dial hub ws://localhost:4443/\n",
            "780 hub put 06000008020000000007BBBBBBBBBBBBBBBBBBBBBBBBBBBBBBBB064005D9\n",
            "780 hub close 1000\n",
            "880 dial hub ws://localhost:4443/\n",
            "890 hub put 06000009020000000008BBBBBBBBBBBBBBBBBBBBBBBBBBBBBBBB064005D9\n",
            "890 hub close 1000\n",
        ),
        ..ALONE
    },
];
