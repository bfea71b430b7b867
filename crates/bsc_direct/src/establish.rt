//! Whether a direct connection is established.
use bsc_octets::Vmac;

/// Whether a direct connection is established.
#[derive(Clone, Copy, Debug, PartialEq, Eq)]
pub enum Establish {
    /// It is, in place of that of the same device in another slot where there was one.
    Up { replaced: Option<u32> },
    /// It isn't: the peer's VMAC is the own one, or that of the connection of another device, in this slot.
    Duplicate { holder: Option<u32> },
    /// It isn't: another VMAC was wanted.
    WrongPeer { wanted: Vmac },
}
