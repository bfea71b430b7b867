//! What the stop of a hub came to.
use bsc_edge::LinkFault;
use bsc_history::{AlreadyStopped, Counts};
use bsc_hub::Told;

/// What the stop of a hub answered, and why its line wasn't put into the own journal, if it wasn't.
#[derive(Drop)]
pub(crate) struct StopTold {
    pub(crate) answer: Result<Told<Counts>, AlreadyStopped>,
    pub(crate) lost: Option<LinkFault>,
}
