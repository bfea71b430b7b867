//! Why a question isn't asked.
use thiserror::Error;

/// Why no Address-Resolution is put.
#[derive(Clone, Copy, Debug, PartialEq, Eq, Error)]
pub enum AskRefusal {
    /// So many VMACs are held, and this isn't one of them.
    #[error("questions and learnt URIs of {held} VMACs are held, as many as may be")]
    Full { held: u32 },
    /// A question for this VMAC is under way, with this Message ID.
    #[error("a question for this VMAC is under way, with Message ID {id}")]
    Pending { id: u16 },
    /// There was no memory for one VMAC more.
    #[error("out of memory")]
    NoMemory,
}
