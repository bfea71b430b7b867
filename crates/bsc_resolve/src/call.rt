//! What happens to address resolution.
use bsc_octets::{Octets, Vmac};

/// What happened to address resolution. A question that is refused, and an answer or a NAK that no question awaits,
/// change nothing and aren't among these.
#[derive(Debug, Drop)]
pub enum ResolveCall {
    /// An Address-Resolution with this Message ID asked for the URIs of a VMAC.
    Ask { now: u64, id: u16, v: Vmac },
    /// Its Address-Resolution-ACK came, with these URIs.
    Answered { id: u16, v: Vmac, uris: Octets },
    /// Its NAK came.
    Refused { id: u16, v: Vmac },
    /// Time has passed.
    Tick { now: u64 },
}
