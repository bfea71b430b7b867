//! A line that is refused.
use bsc_octets::Octets;

/// A line that is refused, for contracts.
#[derive(Debug, Drop)]
pub struct Refusal {
    /// Its number among all lines that were read, from 1, up to the greatest `u64`.
    pub number: u64,
    pub text: Octets,
    /// Whether the node was asked to end before.
    pub has_finished: bool,
}

/// A line that is refused, where it lies.
#[derive(Clone, Copy, Debug)]
pub struct Refused<'a> {
    /// Its number among all lines that were read, from 1, up to the greatest `u64`.
    pub number: u64,
    pub text: &'a [u8],
    /// Whether the node was asked to end before.
    pub has_finished: bool,
}
