//! What `take` answers.
use bsc_history::End;
use bsc_octets::Octets;

/// What `take` answers.
#[derive(Debug, Drop)]
pub enum Take {
    /// The oldest item that wasn't taken yet.
    Frame(Octets),
    /// Each item that was pushed is taken, and more may come.
    Empty,
    /// Each item that was pushed is taken, and with this End no more comes.
    Closed(End),
}
