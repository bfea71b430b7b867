//! What was asked of those who begin journals.
use bsc_octets::Octets;

/// One call that begins a journal.
#[derive(Debug, Drop)]
pub struct Begun {
    /// The prefix of its path, where there is one.
    pub prefix: Option<Octets>,
    /// Its number.
    pub number: u64,
    /// Whether a journal came.
    pub came: bool,
}
