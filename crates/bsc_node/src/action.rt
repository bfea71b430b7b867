//! What a node does.
use crate::delivered::Delivered;
use crate::link_name::LinkName;
use crate::note::Note;
use bsc_accept::Closing;
use bsc_octets::Octets;

/// What a node does at an event.
#[derive(Debug, Drop)]
pub enum Action {
    /// Dials a URI; the link gets this name.
    Dial(LinkName, Octets),
    /// Takes the link that arrived, under this name.
    Take(LinkName),
    /// Closes the link that arrived.
    Refuse(Closing),
    /// Puts a message.
    Put(LinkName, Octets),
    /// Closes a link.
    Close(LinkName, Closing),
    /// Hands an NPDU to the user.
    Deliver(Delivered),
    /// Tells the user something.
    Tell(Note),
    /// Draws a random word.
    Draw,
}
