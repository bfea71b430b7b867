//! Which devices may join a hub, under which addresses, and which of them may send to which.
//!
//! Start at `specs/Decisions.antt`: what a policy decides, by its members and its rules as they were written. `policy`
//! has the calls. `tables`, `directory` and `numbers` make a decision cost the same with any number of members and rules,
//! and no decision depends on them.
#![tactic(auto)]

mod bounds;
mod classes;
mod decision;
mod directory;
mod fault;
mod key;
mod laws;
mod looking;
mod member;
mod names;
mod numbers;
mod policy;
mod rule;
mod tables;

pub use bounds::{MEMBERS, NAMES, RULES};
pub use decision::Decision;
pub use fault::PolicyFault;
pub use laws::a_policy_has_1024_members;
pub use member::Member;
pub use policy::Policy;
pub use rule::Rule;
