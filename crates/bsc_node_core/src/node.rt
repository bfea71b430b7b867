//! A node.
ghost use Rattle.std.specs.Prelude.{IfSome};
ghost use Rattle.std.specs.Str.{IsUtf8};
ghost use Rattle.std.proofs.Props.{props};

use crate::state::State;
use bsc_node::NodeLimits;
use bsc_resolve::Resolve;

/// A BACnet/SC node, without its sockets, its clock and its random source.
///
/// It begins with `make`, and is told each event by `event`, which answers what it does. Which events may come, the
/// definition says: time doesn't fall, a link that is named is there as the event needs it, and a word that was drawn
/// comes next.
#[derive(Drop)]
pub struct Node {
    pub(crate) limits: NodeLimits,
    pub(crate) state: State,
    /// What it kept before the newest event, put back where memory was wanting.
    pub(crate) spare: State,
    pub(crate) resolve: Resolve,
    ghost uris: { IfSome limits.uris IsUtf8 } by { Prim.hlevel props },
}
