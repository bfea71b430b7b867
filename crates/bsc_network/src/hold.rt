//! Ends of links that a node has.
use crate::way::Way;
use bsc_node::LinkName;

/// A link that a node dialled or took, the name under which it did so, and the way by which it hears from the other end.
#[derive(Clone, Copy, Debug, PartialEq, Eq)]
pub struct Hold {
    pub name: LinkName,
    pub link: u32,
    pub hears: Way,
}
