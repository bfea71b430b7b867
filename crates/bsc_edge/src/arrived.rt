//! What acceptors give.

/// What an acceptor gives.
#[derive(Debug, Drop)]
pub enum Arrived<L> {
    /// A link that a peer has made.
    Link(L),
    /// None was made within the wait.
    Quiet,
}
