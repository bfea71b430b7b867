//! What a dialer was asked for.
use crate::kind::Kind;
use bsc_octets::Octets;

/// One call of a dialer.
#[derive(Debug, Drop)]
pub struct Dialled {
    /// The URI that was dialled.
    pub uri: Octets,
    /// The kind of link that was asked for.
    pub kind: Kind,
    /// Whether a link came.
    pub came: bool,
}
