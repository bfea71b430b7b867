//! Laws of whole networks, by the definition in `bsc_network`: where each NPDU that is delivered came from, and that none is
//! delivered twice to one node.
//!
//! Start at `specs/Deliveries.antt`; `laws` has what is proved.
#![tactic(auto)]

mod laws;

pub use laws::{
    connections_are_of_diallers, connections_join_by_links, connections_joined_by_their_links,
    deliveries_are_all, failures_are_all_heard, histories_are_legal, names_are_right,
    networks_deliver_what_was_sent, none_is_delivered_twice, outboxes_have_what_was_sent,
    peers_are_there, puts_what_was_sent, taken_comes_down, what_comes_down_was_sent,
};
