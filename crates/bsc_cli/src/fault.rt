//! Why words say no command.
ghost use Rattle.std.specs.Prelude.{◌≡◌};
ghost use Rattle.bsc_cli.specs.declared.fault.WordsFault.TheVariants as words_fault;

use bsc_octets::NoMemory;
use thiserror::Error;

/// Why words say no command.
#[derive(Clone, Copy, Debug, PartialEq, Eq, Error)]
pub enum WordsFault {
    /// They are no command.
    #[error("the words are no command")]
    Refused,
    /// Memory ran out.
    #[error("out of memory")]
    NoMemory,
}

impl From<NoMemory> for WordsFault {
    ghost from_gives = { λ _ fault. fault ≡ words_fault.NoMemory };

    fn from(_error: NoMemory) -> WordsFault {
        WordsFault::NoMemory
    }
}
