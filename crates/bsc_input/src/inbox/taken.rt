//! What is taken of an inbox.
use bsc_octets::Octets;

/// What is taken of an inbox.
#[derive(Debug, Drop)]
pub enum Taken {
    /// The oldest line that wasn't taken yet, without its end.
    Line(Octets),
    /// No line is there now. More may come.
    Nothing,
    /// The input has ended, and each of its lines was taken.
    End,
}
