//! Members.
use bsc_octets::{DeviceId, Octets, Vmac};

/// A device that a policy knows: the address under which it may join, and the group that it is in.
#[derive(Drop)]
pub struct Member {
    pub device: DeviceId,
    pub vmac: Vmac,
    pub group: Octets,
}
