//! Why a step is refused.
use thiserror::Error;

/// Why a step is refused.
#[derive(Clone, Copy, Debug, PartialEq, Eq, Error)]
pub enum StepRefusal {
    /// No node of this number was added.
    #[error("no node of this number was added")]
    NoNode,
    /// The event is none of a node's own, or it is a second start, or the node hasn't started.
    #[error("the node takes no such event now")]
    NotNow,
    /// The link was never made, or it is lost.
    #[error("there is no such link")]
    NoLink,
    /// The way is empty, or there is no outbox from which the hub's side takes now.
    #[error("nothing is there to arrive or to be taken")]
    NothingThere,
    /// No hub of this number was added.
    #[error("no hub of this number was added")]
    NoHub,
    /// The hub has stopped before.
    #[error("the hub has been stopped already")]
    AlreadyStopped,
    /// There was no memory.
    #[error("out of memory")]
    NoMemory,
}
