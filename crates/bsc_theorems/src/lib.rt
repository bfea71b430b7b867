//! What the project promises, in one place: each promise is one record, whose fields are laws of the crates below.
//!
//! Start at `specs/Theorems.antt`, which has the promises to be read; `laws` has the functions that carry them, each of which
//! calls the laws that its record is made of.
#![tactic(auto)]

mod laws;

pub use laws::{
    layers_compose, networks_deliver_what_was_sent, one_legal_history, operations_are_the_model,
    refusals_have_their_causes, what_ran_delivers,
};
