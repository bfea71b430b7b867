//! Who stands at the ends of connections.
use bsc_octets::{DeviceId, Identity, Vmac};
use uuid::Uuid;

/// The VMAC that ends so.
pub fn address(last: u8) -> Vmac {
    Vmac([2, 0, 0, 0, 0, last])
}

/// Who has the VMAC that ends so, and this device.
pub fn identity(last: u8, device: [u8; 16]) -> Identity {
    Identity {
        vmac: address(last),
        device: DeviceId(Uuid::from_bytes(device)),
        max_bvlc: 1600,
        max_npdu: 1497,
    }
}

/// The hub of the worked scripts.
pub fn hub() -> Identity {
    identity(
        0xFF,
        [
            0x00, 0x11, 0x22, 0x33, 0x44, 0x55, 0x66, 0x77, 0x88, 0x99, 0xAA, 0xBB, 0xCC, 0xDD,
            0xEE, 0xFF,
        ],
    )
}

/// A node.
pub fn node() -> Identity {
    identity(0x0B, [0xBB; 16])
}
