//! Whether a history of a hub is legal, entry by entry: with a state that stands for the entries so far, and
//! doesn't keep them.
//!
//! Start at `judging`, whose two calls make a state and judge an entry, and at `specs/Standing.antt`, which says
//! what it is for a state to stand for a history. `deciding` says whether an entry is lawful, by `rows` and
//! `matching`; `following` makes the state stand for the history with it, by `changing` and `counting`. Of an entry that
//! isn't lawful `breaching` names the condition that it breaks: `specs/Breaches.antt` has them, in their order.
#![tactic(auto)]

mod breach;
mod breaching;
mod changing;
mod comparing;
mod counting;
mod deciding;
mod following;
mod judging;
mod laws;
mod legality;
mod matching;
mod row;
mod rows;

pub use breach::Breach;
pub use laws::names_each;
pub use legality::Legality;
pub use row::Row;
