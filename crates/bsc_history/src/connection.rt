//! Connections.
use bsc_octets::Identity;

/// A connection that joined a hub: its number, the caller that joined it, and who it is. Its number is one
/// more than the number of connections that joined before it.
#[derive(Clone, Copy, Debug, PartialEq, Eq)]
pub struct Connection {
    pub number: u64,
    pub caller: u64,
    pub who: Identity,
}
