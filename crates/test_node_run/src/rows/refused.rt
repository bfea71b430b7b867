//! Commands that are refused before anybody is dialled.
use super::hubs::{SETTINGS, SETTINGS_DIRECT};
use crate::row::{ALONE, Failing, NOTHING, Row};

/// The settings of B, with a hub that has more rows than one may have.
const HUB_ROWS: &str = concat!(
    "[hub]\n",
    "vmac = \"0200000000FF\"\n",
    "uuid = \"00112233-4455-6677-8899-aabbccddeeff\"\n",
    "port = 4443\n",
    "rows = 1025\n",
    "[node]\n",
    "vmac = \"02000000000B\"\n",
    "uuid = \"bbbbbbbb-bbbb-bbbb-bbbb-bbbbbbbbbbbb\"\n",
    "primary = \"ws://localhost:4443/\"\n",
);

/// The settings of B, with a hub whose outboxes could come to hold more than 2^30 octets.
const HUB_PRODUCT: &str = concat!(
    "[hub]\n",
    "vmac = \"0200000000FF\"\n",
    "uuid = \"00112233-4455-6677-8899-aabbccddeeff\"\n",
    "port = 4443\n",
    "rows = 1024\n",
    "outbox = 1024\n",
    "max_bvlc = 1025\n",
    "[node]\n",
    "vmac = \"02000000000B\"\n",
    "uuid = \"bbbbbbbb-bbbb-bbbb-bbbb-bbbbbbbbbbbb\"\n",
    "primary = \"ws://localhost:4443/\"\n",
);

/// The settings can't be loaded.
const FIRST_LOAD: Failing = Failing {
    loads: &[1],
    ..NOTHING
};

/// The script can't be loaded.
const SECOND_LOAD: Failing = Failing {
    loads: &[2],
    ..NOTHING
};

/// Nothing can be written at first.
const FIRST_WRITE: Failing = Failing {
    writes: &[1],
    ..NOTHING
};

/// The port can't be bound.
const FIRST_ACCEPT: Failing = Failing {
    accepts: &[1],
    ..NOTHING
};

pub const REFUSED: &[Row] = &[
    Row {
        shows: "a line that is no line of a script",
        settings: SETTINGS_DIRECT,
        script: "at 20\nfinis\n",
        status: 2,
        written: "fault script line 2\n",
        ..ALONE
    },
    Row {
        shows: "a time before the one before",
        settings: SETTINGS,
        script: "# times\nat 20\n\nat 19\nfinish\n",
        status: 2,
        written: "fault script line 4\n",
        ..ALONE
    },
    Row {
        shows: "a script without a last line",
        settings: SETTINGS,
        script: "resolve 02000000000A\n",
        status: 2,
        written: "fault script line 2\n",
        ..ALONE
    },
    Row {
        shows: "a document that is no TOML",
        settings: "[node\n",
        status: 5,
        written: "fault settings -\n",
        ..ALONE
    },
    Row {
        shows: "a document without the table of nodes",
        settings: "# nothing\n",
        status: 5,
        written: "fault settings node\n",
        ..ALONE
    },
    Row {
        shows: "a key that is required",
        settings: "[node]\nvmac = \"02000000000B\"\n",
        status: 5,
        written: "fault settings node.uuid\n",
        ..ALONE
    },
    Row {
        shows: "too many rows of a hub",
        settings: HUB_ROWS,
        status: 5,
        written: "fault settings hub.rows\n",
        ..ALONE
    },
    Row {
        shows: "limits of a hub that are too great together",
        settings: HUB_PRODUCT,
        status: 5,
        written: "fault settings hub.product\n",
        ..ALONE
    },
    Row {
        shows: "a fault of the settings comes before one of the script",
        settings: HUB_ROWS,
        script: "finis\n",
        status: 5,
        written: "fault settings hub.rows\n",
        ..ALONE
    },
    Row {
        shows: "settings that can't be read",
        settings: SETTINGS,
        failing: FIRST_LOAD,
        status: 3,
        written: "fault read\n",
        ..ALONE
    },
    Row {
        shows: "a script that can't be read",
        settings: SETTINGS,
        failing: SECOND_LOAD,
        status: 3,
        written: "fault read\n",
        ..ALONE
    },
    Row {
        shows: "a port that is taken",
        settings: SETTINGS_DIRECT,
        failing: FIRST_ACCEPT,
        status: 6,
        written: "fault link\n",
        ..ALONE
    },
    Row {
        shows: "a bad script comes before a port that is taken",
        settings: SETTINGS_DIRECT,
        script: "\n",
        failing: FIRST_ACCEPT,
        status: 2,
        written: "fault script line 2\n",
        ..ALONE
    },
    Row {
        shows: "a last line that can't be written",
        settings: SETTINGS,
        script: "finis\n",
        failing: FIRST_WRITE,
        status: 4,
        written: "",
        ..ALONE
    },
];
