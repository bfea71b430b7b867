//! How long a node waits.

/// No wait between two turns is longer, in milliseconds: the times of the node's own come to it with no event. Code, clauses
/// and proofs all have the number from here, as they have the next two.
pub const LONGEST_REST_MS: u32 = 50;

/// How long each link is waited for in a turn, in milliseconds: what there is to wait for was waited for before it.
pub const LINK_WAIT_MS: u32 = 0;

/// How long the acceptor is waited for in a turn.
pub const ACCEPT_WAIT_MS: u32 = 0;
