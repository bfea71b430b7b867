//! The outbox between two threads: a ring into which one end pushes and from which the other takes.
//!
//! Start at `making`, then `pushing`, `taking`, `meeting` and `waiting`: these are the public calls. `specs/Ends.antt`
//! has every word of their clauses. No call waits, none but `make` takes memory, and none takes a lock.
//! Below them `steps` has each step on shared memory, through the kit's `atomic_table`, and
//! `specs/Rule.antt` the rule that each of these steps keeps. `crates/bsc_ring/README.md` draws the ring and says the
//! rule in plain words.
#![tactic(auto)]

mod ends;
mod found;
mod making;
mod meeting;
mod next_slot;
mod plays;
mod pushing;
mod remains;
mod steps;
mod take;
mod taking;
mod view;
mod waiting;
mod words;

pub use ends::{Inlet, Outlet};
pub use found::Found;
pub use making::make;
pub use meeting::unite;
pub use plays::{RingRule, RingSeat, RingTable};
pub use remains::Remains;
pub use take::Take;
pub use view::View;
