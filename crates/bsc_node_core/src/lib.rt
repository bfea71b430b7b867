//! The code of a BACnet/SC node (Annex AB), without its sockets, its clock and its random source: events come in, actions
//! go out. `bsc_node` says what it has to do.
//!
//! Start at `calls`: the calls of a node. `following` has what follows from each event, and below it are the rules in
//! files that are named as those of the definition: `requesting`, `receiving`, `obeying`, `meeting`, `ending`.
#![tactic(auto)]

mod acting;
mod actions;
mod calls;
mod ending;
mod event_context;
mod failing;
mod following;
mod link;
mod linking;
mod links;
mod machine;
mod machines;
mod meeting;
mod messages;
mod node;
mod obeying;
mod receiving;
mod requesting;
mod state;
mod stepping;
mod touched;
mod underway;
mod uris;
mod way;

pub use actions::Actions;
pub use node::Node;
