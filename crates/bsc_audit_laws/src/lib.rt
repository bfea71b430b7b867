//! Laws of journals and of their audit: what the definitions mean, in words of the subject. The functions do nothing: their contracts are
//! the laws (`src/laws.rt`).
#![tactic(auto)]

mod laws;

pub use laws::{any_order, one_entry, one_history, one_saying, one_verdict};
