//! What happens to the slots.
use bsc_octets::{Identity, Vmac};

/// What happened to the slots of direct connections. A claim that finds no slot, and a connection that isn't
/// established, change nothing and aren't among these.
#[derive(Clone, Copy, Debug)]
pub enum SlotCall {
    /// The slot is claimed for a connection, to this VMAC where one is wanted.
    Claim { slot: u32, wanted: Option<Vmac> },
    /// Its connection is established, with this peer.
    Up { slot: u32, peer: Identity },
    /// The slot is released.
    Release { slot: u32 },
}
