//! Classes of groups.

/// The classes of a group: that among what rules have as their side `from`, and that among what they have as their side
/// `to`. Both are below `NAMES`.
#[derive(Clone, Copy)]
pub(crate) struct Classes {
    pub(crate) from: u16,
    pub(crate) to: u16,
}
