//! Settings as they are told: a TOML document that says them all, each default marked as one.
//!
//! Start at `specs/Told.antt`: the document of a hub and that of a node, by the rows of the table of keys. `specs/Lines.antt` has
//! the line of a setting, and `specs/Quoting.antt` a text between quotation marks. `tell_hub` and `tell_node` write them.
#![tactic(auto)]

mod hub_told;
mod line;
mod lines;
mod node_told;
mod policy_told;
mod quoting;
mod setting;

pub use hub_told::tell_hub;
pub use node_told::tell_node;
