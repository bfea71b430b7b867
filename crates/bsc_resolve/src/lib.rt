//! Address resolution: by which URIs other nodes accept direct connections (Annex AB, "Address Resolution"), without
//! input or output.
//!
//! Start at `specs/Resolving.antt`: which questions are under way and which URIs are learnt, by all that happened.
//! `calls` has the calls. Whoever holds a `Resolve` puts the Address-Resolutions, and tells it what comes of them.
#![tactic(auto)]

mod ask_refusal;
mod bounds;
mod call;
mod calls;
mod entries;
mod entry;
mod laws;
mod question;
mod resolve;

pub use ask_refusal::AskRefusal;
pub use bounds::ROOM;
pub use call::ResolveCall;
pub use laws::{a_node_holds_256_vmacs, at_most_room_are_held, what_is_learnt_stays};
pub use question::Question;
pub use resolve::Resolve;
