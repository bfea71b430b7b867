//! Links that are dialled.
use crate::target::Target;

/// A link that was dialled: its number, the node that dialled it, and what it leads to.
#[derive(Clone, Copy, Debug, PartialEq, Eq)]
pub struct Dialled {
    pub link: u32,
    pub from: u32,
    pub to: Target,
}
