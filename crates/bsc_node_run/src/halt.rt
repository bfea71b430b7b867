//! Why a run ends before its time.
ghost use Rattle.std.specs.Prelude.{◌≡◌};

use bsc_octets::NoMemory;
use thiserror::Error;

/// Why a run ends before its time.
#[derive(Clone, Copy, Debug, PartialEq, Eq, Error)]
pub enum Halt {
    /// A write failed, and the sink's count of faults has risen.
    #[error("a write failed")]
    WriteFault,
    /// The acceptor failed, and its count of faults has risen.
    #[error("accepting failed")]
    AcceptFault,
    /// There was no memory.
    #[error("out of memory")]
    NoMemory,
}

impl From<NoMemory> for Halt {
    ghost use Rattle.bsc_node_run.specs.declared.halt.Halt.TheVariants as halt;

    ghost from_gives = { λ _ r. r ≡ halt.NoMemory };

    fn from(_fault: NoMemory) -> Halt {
        Halt::NoMemory
    }
}
