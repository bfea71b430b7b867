//! Where a session stands, in the code.
use crate::membership::Membership;
use bsc_accept::Accepting;
use bsc_history::End;

/// Where a session stands.
#[derive(Drop)]
pub struct SessionState {
    pub machine: Accepting,
    /// The connection, once it joined.
    pub member: Option<Membership>,
    /// The End that the outlet gave.
    pub ended: Option<End>,
    /// How many receives were made.
    pub receives: u64,
}
