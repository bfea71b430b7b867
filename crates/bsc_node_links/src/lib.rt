//! What became of the links of a node that was run: what each told from where it came to where it was let go, by the log of the node.
//!
//! Start at `specs/Using.antt`, which says how links are used, by the words of `specs/Lives.antt` and `specs/Talks.antt`; `laws` has
//! what is proved of it.
#![tactic(auto)]

mod laws;

pub use laws::{
    arrived_came_fresh, dialled_came_fresh, links_are_fresh, links_came_fresh, links_tell,
    runs_use_links, script_runs_use_links, stopped_links_tell, stopped_runs_have_logs,
    stopped_scripts_have_logs,
};
