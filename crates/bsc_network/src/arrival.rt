//! Where something arrived.
use crate::way::Way;

/// Where something arrived: over which link, by which of its ways, and with which place.
#[derive(Clone, Copy, Debug, PartialEq, Eq)]
pub struct Arrival {
    pub link: u32,
    pub way: Way,
    pub sent_at: u64,
}
