//! Want of slots.
use thiserror::Error;

/// All slots are claimed: so many.
#[derive(Clone, Copy, Debug, PartialEq, Eq, Error)]
#[error("all {slots} slots are claimed")]
pub struct SlotsFull {
    pub slots: u32,
}
