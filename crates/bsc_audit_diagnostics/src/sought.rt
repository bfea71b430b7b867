//! Which lines of journals are sought.

/// Which lines of journals are sought.
#[derive(Clone, Copy, Debug, PartialEq, Eq)]
pub enum Sought {
    /// Hub lines.
    Hub,
    /// The lines of entries at a place.
    Place { place: u64 },
}
