//! The steps behind the worked scripts, worked out by hand.
use crate::accept::telling::Told;
use crate::messages::{Came, Does};
use bsc_accept::{Closing, Times};
use bsc_history::{End, Refusal};

/// When something is told, what, and what the machine does.
pub type Row = (u64, Told, Does);

pub const HUB_TIMES: Times = Times {
    connect_wait: 10_000,
    disconnect_wait: 10_000,
    heartbeat: 300_000,
};

pub const JOIN: [Row; 2] = [
    (0, Told::Came(Came::Request(1)), Does::Asks),
    (0, Told::Joined, Does::Puts(0x07, 1)),
];

/// What a machine that joined at 0 is told, and what it does: the steps behind the worked scripts.
pub const CONNECTED: [&[Row]; 12] = [
    // A request that the checks refuse, and one that they don't.
    &[
        (5, Told::Came(Came::Refused(5)), Does::Puts(0x00, 5)),
        (6, Told::Came(Came::Heartbeat(6)), Does::Puts(0x0B, 6)),
    ],
    // Another connection of the device joins in its place; the peer answers the Disconnect-Request.
    &[
        (9, Told::Ended(End::Replaced), Does::Puts(0x08, 1)),
        (10, Told::Came(Came::DisconnectAck(2)), Does::Nothing),
        (11, Told::Came(Came::Heartbeat(7)), Does::Nothing),
        (
            12,
            Told::Came(Came::DisconnectAck(1)),
            Does::Closes(Closing::NORMAL),
        ),
    ],
    // It doesn't answer.
    &[
        (0, Told::Ended(End::Replaced), Does::Puts(0x08, 1)),
        (9_999, Told::Tick, Does::Nothing),
        (10_000, Told::Tick, Does::Closes(Closing::NORMAL)),
    ],
    // The hub stops; a NAK for the Disconnect-Request ends it too, and one for another function doesn't.
    &[
        (3, Told::Ended(End::Stopped), Does::Puts(0x08, 1)),
        (4, Told::Came(Came::Nak(0x01, 1)), Does::Nothing),
        (
            5,
            Told::Came(Came::Nak(0x08, 1)),
            Does::Closes(Closing::NORMAL),
        ),
    ],
    // Its outbox was full.
    &[(
        3,
        Told::Ended(End::Full),
        Does::Closes(Closing::OUTBOX_FULL),
    )],
    // Idle after twice the heartbeat.
    &[
        (599_999, Told::Tick, Does::Nothing),
        (600_000, Told::Tick, Does::Closes(Closing::IDLE)),
    ],
    // A message, whatever becomes of it, puts that off.
    &[
        (400_000, Told::Came(Came::Heartbeat(3)), Does::Puts(0x0B, 3)),
        (600_000, Told::Tick, Does::Nothing),
        (999_999, Told::Tick, Does::Nothing),
        (1_000_000, Told::Tick, Does::Closes(Closing::IDLE)),
    ],
    &[
        (400_000, Told::Came(Came::Silence), Does::Nothing),
        (999_999, Told::Tick, Does::Nothing),
        (999_999, Told::Came(Came::Carried), Does::HandsUp),
        (1_599_998, Told::Tick, Does::Nothing),
    ],
    // It disconnects of itself.
    &[(
        7,
        Told::Came(Came::Disconnect(7)),
        Does::PutsAndCloses(0x09, 7, Closing::NORMAL),
    )],
    // A Connect-Request asks no more.
    &[
        (7, Told::Came(Came::Request(7)), Does::Nothing),
        (8, Told::Came(Came::Carried), Does::HandsUp),
    ],
    // A node finishes it, and once is enough.
    &[
        (7, Told::Finish(21), Does::Puts(0x08, 21)),
        (8, Told::Finish(22), Does::Nothing),
        (
            9,
            Told::Came(Came::DisconnectAck(21)),
            Does::Closes(Closing::NORMAL),
        ),
    ],
    // What it is told later doesn't put off the end of its disconnect wait.
    &[
        (7, Told::Finish(21), Does::Puts(0x08, 21)),
        (9_000, Told::Finish(22), Does::Nothing),
        (9_000, Told::Came(Came::Silence), Does::Nothing),
        (10_007, Told::Tick, Does::Closes(Closing::NORMAL)),
    ],
];

/// What a machine that started at 0 is told, and what it does.
pub const ASKING: [&[Row]; 7] = [
    // A Connect-Request without its last octet is refused; the whole one asks.
    &[
        (0, Told::Came(Came::Refused(1)), Does::Puts(0x00, 1)),
        (1, Told::Came(Came::Request(1)), Does::Asks),
        (1, Told::Joined, Does::Puts(0x07, 1)),
    ],
    // The connect wait counts from the start, whatever came.
    &[
        (9_998, Told::Came(Came::Silence), Does::Nothing),
        (9_999, Told::Tick, Does::Nothing),
        (10_000, Told::Tick, Does::Closes(Closing::CONNECT_WAIT)),
    ],
    // Its VMAC is another's: the refusal answers its Message ID.
    &[
        (0, Told::Came(Came::Request(0x0102)), Does::Asks),
        (
            0,
            Told::NotJoined(Refusal::Duplicate { holder: Some(1) }),
            Does::PutsAndCloses(0x00, 0x0102, Closing::NORMAL),
        ),
    ],
    &[
        (0, Told::Came(Came::Request(1)), Does::Asks),
        (
            0,
            Told::NotJoined(Refusal::Duplicate { holder: None }),
            Does::PutsAndCloses(0x00, 1, Closing::NORMAL),
        ),
    ],
    // There are no rows, or the hub has stopped.
    &[
        (0, Told::Came(Came::Request(1)), Does::Asks),
        (
            0,
            Told::NotJoined(Refusal::TableFull { rows: 2 }),
            Does::Closes(Closing::TABLE_FULL),
        ),
    ],
    &[
        (0, Told::Came(Came::Request(1)), Does::Asks),
        (
            0,
            Told::NotJoined(Refusal::Stopped),
            Does::Closes(Closing::GOING_AWAY),
        ),
    ],
    // A node finishes it before who it is was said.
    &[(5, Told::Finish(9), Does::Closes(Closing::NORMAL))],
];

/// What a machine that asked at 0 is told at 1, and the octets that it puts.
pub const JOINED: [(Told, &[u8]); 3] = [
    (
        Told::Joined,
        &[
            0x07, 0x00, 0x00, 0x01, 2, 0, 0, 0, 0, 0xFF, 0x00, 0x11, 0x22, 0x33, 0x44, 0x55, 0x66,
            0x77, 0x88, 0x99, 0xAA, 0xBB, 0xCC, 0xDD, 0xEE, 0xFF, 0x06, 0x40, 0x05, 0xD9,
        ],
    ),
    (Told::Came(Came::Heartbeat(6)), &[0x0B, 0x00, 0x00, 0x06]),
    (Told::Ended(End::Stopped), &[0x08, 0x00, 0x00, 0x01]),
];

pub const NOT_JOINED: [(Told, &[u8]); 1] = [(
    Told::NotJoined(Refusal::Duplicate { holder: Some(1) }),
    &[
        0x00, 0x00, 0x00, 0x01, 0x06, 0x01, 0x00, 0x00, 0x07, 0x00, 0x97,
    ],
)];

/// How a WebSocket is closed, with the code and the text.
pub const CLOSINGS: [(Closing, u16, &str); 10] = [
    (Closing::NORMAL, 1000, ""),
    (Closing::GOING_AWAY, 1001, ""),
    (Closing::NOT_BINARY, 1003, ""),
    (Closing::TABLE_FULL, 1008, "table full"),
    (Closing::HUB_WORN, 1008, "hub worn"),
    (Closing::CONNECT_WAIT, 1008, "connect wait"),
    (Closing::IDLE, 1008, "idle"),
    (Closing::OUTBOX_FULL, 1008, "outbox full"),
    (Closing::WRONG_PEER, 1008, "wrong peer"),
    (Closing::NO_MEMORY, 1011, "no memory"),
];
