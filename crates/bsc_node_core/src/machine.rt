//! The machine of a link.
use bsc_accept::Accepting;
use bsc_initiate::Initiating;

/// The machine of a link, by what it may be told.
#[derive(Clone, Copy, Debug)]
pub(crate) enum Machine {
    /// There is no such link.
    Gone,
    /// The link is there, and its machine has closed: it is told nothing more.
    Over,
    /// The node dialled the link.
    Dialled(Initiating),
    /// The node took the link.
    Taken(Accepting),
    /// The node took the link, and its peer has asked: it is accepted or refused next.
    Asked(Accepting),
}
