//! What is new of a link.
use bsc_node::LinkName;

/// What became of a link.
#[derive(Clone, Copy, Debug, PartialEq, Eq)]
pub enum Change {
    /// It was dialled, and it opened.
    Opened,
    /// It was dialled, and it didn't open.
    DialFailed,
    /// It was lost.
    Lost,
}

/// What became of a link, which its node isn't told yet.
#[derive(Clone, Copy, Debug, PartialEq, Eq)]
pub struct News {
    pub link: LinkName,
    pub change: Change,
}
