//! What is kept of a slot.
ghost use Rattle.std.specs.Prelude.{◌≡◌, not, ◌&&◌, is_none};
ghost use Rattle.bsc_octets.specs.Addresses.{same_vmac, same_device};
ghost use Rattle.bsc_direct.specs.Slots.{is_peer, is_rival};
ghost use Rattle.bsc_direct.specs.Kept.{says_claimed, says_wanted, says_peer, without_peer};

use bsc_octets::{DeviceId, Identity, Vmac};

/// What is kept of a slot.
#[derive(Clone, Copy, Debug)]
pub(crate) enum Slot {
    /// It isn't claimed.
    Free,
    /// It is claimed, for this VMAC where one is wanted.
    Claimed {
        wanted: Option<Vmac>,
    },
    /// It is claimed, and its connection is established with this peer.
    Established {
        wanted: Option<Vmac>,
        peer: Identity,
    },
}

impl Slot {
    pub(crate) fn is_free(&self) -> bool
        ensures { result ≡ not (says_claimed self.now) }
    {
        match self {
            Slot::Free => true,
            Slot::Claimed { .. } | Slot::Established { .. } => false,
        }
    }

    /// Whether it is claimed and not established.
    pub(crate) fn awaits_peer(&self) -> bool
        ensures { result ≡ (says_claimed self.now && is_none (says_peer self.now)) }
    {
        match self {
            Slot::Claimed { .. } => true,
            Slot::Free | Slot::Established { .. } => false,
        }
    }

    /// The VMAC that is wanted of the peer.
    pub(crate) fn wanted(&self) -> Option<Vmac>
        ensures { result ≡ says_wanted self.now }
    {
        match self {
            Slot::Free => None,
            Slot::Claimed { wanted } => *wanted,
            Slot::Established { wanted, .. } => *wanted,
        }
    }

    /// The peer with which it is established.
    pub(crate) fn peer(&self) -> Option<Identity>
        ensures { result ≡ says_peer self.now }
    {
        match self {
            Slot::Free | Slot::Claimed { .. } => None,
            Slot::Established { peer, .. } => Some(*peer),
        }
    }

    /// Whether it is established with this VMAC.
    pub(crate) fn has_vmac(&self, v: Vmac) -> bool
        ensures { result ≡ is_peer (λ who. same_vmac who.vmac v) (says_peer self.now) }
    {
        match self {
            Slot::Established { peer, .. } => peer.vmac == v,
            Slot::Free | Slot::Claimed { .. } => false,
        }
    }

    /// Whether it is established with this device.
    pub(crate) fn has_device(&self, device: DeviceId) -> bool
        ensures { result ≡ is_peer (λ who. same_device who.device device) (says_peer self.now) }
    {
        match self {
            Slot::Established { peer, .. } => peer.device == device,
            Slot::Free | Slot::Claimed { .. } => false,
        }
    }

    /// Whether it is established with this VMAC by another device.
    pub(crate) fn is_rival_of(&self, who: &Identity) -> bool
        ensures { result ≡ is_peer (is_rival who.now) (says_peer self.now) }
    {
        match self {
            Slot::Established { peer, .. } => peer.vmac == who.vmac && peer.device != who.device,
            Slot::Free | Slot::Claimed { .. } => false,
        }
    }

    /// The slot, no longer established.
    pub(crate) fn without_peer(&self) -> Slot
        ensures { result ≡ without_peer self.now }
    {
        match self {
            Slot::Free => Slot::Free,
            Slot::Claimed { wanted } => Slot::Claimed { wanted: *wanted },
            Slot::Established { wanted, .. } => Slot::Claimed { wanted: *wanted },
        }
    }
}
