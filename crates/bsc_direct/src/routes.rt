//! Paths.

/// Over which connection a message goes.
#[derive(Clone, Copy, Debug, PartialEq, Eq)]
pub enum Route {
    /// Over the direct connection in this slot.
    Direct(u32),
    /// Over the hub in use.
    Hub,
    /// There is none.
    NoPath,
}
