//! Why octets are no message.
ghost use Rattle.std.specs.Prelude.{◌≡◌};
ghost use Rattle.bsc_frame.specs.declared.fault.FrameFault.TheVariants as faults;

use crate::check::Check;
use bsc_octets::NoMemory;
use thiserror::Error;

/// Why octets are not answered as a message.
#[derive(Clone, Copy, Debug, PartialEq, Eq, Error)]
pub enum FrameFault {
    /// The octets spell no message: this check fails, and none before it does.
    #[error("the message fails {0:?}")]
    Fails(Check),
    /// The octets spell a message, and memory ran out.
    #[error("out of memory")]
    NoMemory,
}

impl From<Check> for FrameFault {
    ghost from_gives = { λ check fault. fault ≡ faults.Fails check };

    fn from(check: Check) -> FrameFault {
        FrameFault::Fails(check)
    }
}

impl From<NoMemory> for FrameFault {
    ghost from_gives = { λ _ fault. fault ≡ faults.NoMemory };

    fn from(_error: NoMemory) -> FrameFault {
        FrameFault::NoMemory
    }
}
