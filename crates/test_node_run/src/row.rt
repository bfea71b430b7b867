//! What a run is.

/// What a link gives to one who receives. After the last it is closed.
#[derive(Clone, Copy)]
pub enum Gives {
    /// A binary message, as hexadecimal digits.
    Message(&'static str),
    /// A text.
    Text,
    /// Nothing within the wait.
    Quiet,
}

/// The peer at the other end of a link.
#[derive(Clone, Copy)]
pub struct Peer {
    /// How the link is named in what is noted.
    pub name: &'static str,
    pub gives: &'static [Gives],
    /// Which calls on the link fail.
    pub failing: &'static [u64],
}

/// Which calls on the outside fail, each counted from 1.
#[derive(Clone, Copy)]
pub struct Failing {
    /// Of the files: first the settings are loaded, then the script.
    pub loads: &'static [u64],
    pub writes: &'static [u64],
    /// Of the acceptor: first its port is bound, then it is asked once a turn.
    pub accepts: &'static [u64],
    pub dials: &'static [u64],
    /// Of the draws of random words.
    pub words: &'static [u64],
}

/// A run of the command, and what comes of it.
#[derive(Clone, Copy)]
pub struct Row {
    /// What is shown by it.
    pub shows: &'static str,
    pub settings: &'static str,
    pub script: &'static str,
    /// The readings of the clock: one a turn, and then the last again.
    pub readings: &'static [u64],
    /// The random words. Draws after the last fail.
    pub words: &'static [u64],
    /// Who is reached by the dials. Dials after the last fail.
    pub dialled: &'static [Peer],
    /// Who dials the node.
    pub arriving: &'static [Peer],
    pub failing: Failing,
    pub status: u8,
    pub written: &'static str,
    /// The port that is bound.
    pub port: Option<u16>,
    /// What the node did outside: a line each of the time, and of what was dialled, put or closed then.
    pub did: &'static str,
    /// How long was waited before each turn, where that is looked at.
    pub rests: Option<&'static [u32]>,
}

/// Nothing fails.
pub const NOTHING: Failing = Failing {
    loads: &[],
    writes: &[],
    accepts: &[],
    dials: &[],
    words: &[],
};

/// A run that meets nobody, and in which nothing fails.
pub const ALONE: Row = Row {
    shows: "",
    settings: "",
    script: "finish\n",
    readings: &[],
    words: &[],
    dialled: &[],
    arriving: &[],
    failing: NOTHING,
    status: 0,
    written: "finished\n",
    port: None,
    did: "",
    rests: None,
};
