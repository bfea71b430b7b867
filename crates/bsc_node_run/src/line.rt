//! A line of a node's script.
use bsc_node::NodeEvent;

/// A line of a node's script.
#[derive(Debug, Drop)]
pub enum Line {
    /// An empty line, or a comment.
    Nothing,
    /// What follows is asked at this time, in milliseconds since the start.
    At { ms: u64 },
    /// This is asked of the node.
    Ask { event: NodeEvent },
}

/// Why a line wasn't read.
#[derive(Clone, Copy, Debug, PartialEq, Eq)]
pub enum LineFault {
    /// It says nothing that may be said here.
    Refused,
    /// There was no memory.
    NoMemory,
}
