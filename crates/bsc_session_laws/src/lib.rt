//! Laws of sessions, in words of messages, entries and frames: what is forwarded is what was judged to be carried on,
//! who is connected is who asked, no frame goes out before the Connect-Accept, a policy is followed, the NPDUs that are put are
//! those of the frames that it lets through, and a session does what its port does, as the hub's side of a link in a simulated
//! network does. They hold of each session by its definition in `bsc_session`, whatever code serves it: with a journal or
//! without, with a policy or without.
//!
//! Start at `specs/Laws.antt`, which has the laws as statements, by the words of `specs/Messages.antt`, and then at
//! `specs/Policies.antt`, `specs/Npdus.antt` and `specs/Ports.antt`; `laws` has the functions that carry them.
#![tactic(auto)]

mod laws;

pub use laws::{
    connects_are_asked, forwards_are_carried, frames_follow_accept, messages_are_given,
    npdus_are_taken, policy_is_followed, sessions_follow_ports,
};
