//! Where the line of an entry stands.

/// Where the line of an entry stands among octets that were read. It takes 16 octets.
#[derive(Clone, Copy, Debug, PartialEq, Eq)]
pub struct Spot {
    /// The entry's place in the history.
    pub place: u64,
    /// How many octets stand in front of the line.
    pub start: u32,
    /// How many octets there are up to the line's end, which is no part of it.
    pub end: u32,
}
