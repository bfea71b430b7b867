//! What the words of the program ask for, and the ways to read them.

/// Under what prefix journals are kept, and how long their files may be.
#[derive(Clone, Copy, Debug, PartialEq, Eq)]
pub struct JournalWords<'a> {
    /// The prefix.
    pub prefix: &'a str,
    /// To how many octets each file is limited: `LEAST_OCTETS` to `MOST_OCTETS`; None for no limit.
    pub limit: Option<u64>,
}

/// What the words of the program ask for.
#[derive(Clone, Copy, Debug, PartialEq, Eq)]
pub enum Asked<'a> {
    /// `replay`: plays a script.
    Replay,
    /// `simulate`: plays the script of a network.
    Simulate,
    /// `check`: answers lines with the verdicts on messages.
    Check,
    /// `audit`: says whether journals tell one legal history of one hub.
    Audit,
    /// `hub PATH`, with `--sessions N`, `--journal PREFIX`, `--journal-octets N` beside it, and `--stop-file FILE` where they are
    /// there: serves a hub.
    Hub {
        /// Where the settings are.
        path: &'a str,
        /// How many links are served: 1 to 1,000,000; None for ever.
        sessions: Option<u64>,
        /// What is said of journals, if they are kept.
        journal: Option<JournalWords<'a>>,
        /// The path at which a file asks for the stop, if one may.
        stop_file: Option<&'a str>,
    },
    /// `node PATH SCRIPT`: runs a node.
    Node {
        /// Where the settings are.
        path: &'a str,
        /// Where the script is.
        script: &'a str,
    },
    /// `node PATH -`, where no word is `--`: runs a node by lines as they come.
    LiveNode {
        /// Where the settings are.
        path: &'a str,
    },
    /// `load N`: runs a workload.
    Load {
        /// How many workers it has: 1 to `WORKERS`.
        workers: u32,
    },
    /// `hub PATH --test`: tries the settings of a hub.
    TestHub {
        /// Where the settings are.
        path: &'a str,
    },
    /// `node PATH SCRIPT --test`: tries the settings of a node, and its script.
    TestNode {
        /// Where the settings are.
        path: &'a str,
        /// Where the script is.
        script: &'a str,
    },
}

/// A way to read words: as those of a command, with one set of arguments. `hub` and `node` have two, without `--test` and with it.
#[derive(Clone, Copy)]
pub(crate) enum Way {
    /// `replay`.
    Replay,
    /// `simulate`.
    Simulate,
    /// `check`.
    Check,
    /// `audit`.
    Audit,
    /// `hub PATH`, with its options.
    Hub,
    /// `hub PATH --test`.
    TestHub,
    /// `node PATH SCRIPT`, and `node PATH -`.
    Node,
    /// `node PATH SCRIPT --test`.
    TestNode,
    /// `load N`.
    Load,
}
