//! Device UUIDs.
use uuid::Uuid;

/// A Device UUID: which device it is, whatever its address (Annex AB, "Device UUID").
#[derive(Clone, Copy, Debug, PartialEq, Eq, PartialOrd, Ord)]
pub struct DeviceId(pub Uuid);
