//! Laws of a node by its definition: how its links begin, and that a run of its code is a run of its definition.
//!
//! Start at `specs/Links.antt`, which says how links begin in the log of a node; `laws` has what is proved of it, and a run of a node
//! with real links stands on that. `specs/Courses.antt` is such a run with the definition in the place of the code: what a node is,
//! is the log of what came to it. `specs/Said.antt` is what a run writes and dials by that log, and `specs/Alone.antt` the log of a
//! node to which no link comes. The claims on runs stand on `run_node` of `bsc_node_command`, which uses the lemmas in `proofs/`.
#![tactic(auto)]

mod laws;

pub use laws::links_begin_anew;
