//! What stands in a line.
use crate::log_event::LogEvent;
use crate::stamp::Stamp;
use bsc_octets::Identity;

/// What stands in a line: when something became of a link, what it was, and what is known of the link then.
#[derive(Drop)]
pub struct Line {
    /// When it was.
    pub stamp: Stamp,
    /// What it was.
    pub event: LogEvent,
    /// The number of the link among those that arrived, if it is one.
    pub link: Option<u64>,
    /// Its connection, if it has joined.
    pub conn: Option<u64>,
    /// Who asked to join on it last, if anybody did.
    pub who: Option<Identity>,
    /// How many messages came on it.
    pub received: u64,
    /// How many messages were put on it.
    pub sent: u64,
}
