//! What is told of journals that aren't one legal history: which lines, and what would have been due.
//!
//! Start at `specs/Texts.antt`, which has the texts, and at `specs/Sought.antt`, which says how the lines are found that they
//! name. `reasons` makes a text for each verdict, by `seeking`, which finds lines, and by `texts`. Which condition an entry
//! breaks is said by `bsc_legality`.
#![tactic(auto)]

mod reasons;
mod seeking;
mod sought;
mod texts;

pub use reasons::{why_hubs, why_illegal, why_missing, why_twice};
pub use sought::Sought;
