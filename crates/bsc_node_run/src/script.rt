//! The script of a node.
use crate::due::Due;
use thiserror::Error;

/// The script of a node, in the order of its lines.
#[derive(Debug, Drop)]
pub struct Script {
    pub(crate) lines: Vec<Due>,
}

/// Why a script wasn't read.
#[derive(Clone, Copy, Debug, PartialEq, Eq, Error)]
pub enum ScriptFault {
    /// This line, counted from 1, is the first that is refused.
    #[error("line {line} of the script is refused")]
    BadLine { line: u64 },
    /// There was no memory.
    #[error("out of memory")]
    NoMemory,
}
