//! Why octets are no list of header options.
ghost use Rattle.std.specs.Prelude.{◌≡◌};
ghost use Rattle.bsc_options.specs.declared.fault.OptionsFault.TheVariants as faults;

use bsc_octets::NoMemory;
use thiserror::Error;

/// Why octets do not begin with a list of header options.
#[derive(Clone, Copy, Debug, PartialEq, Eq, Error)]
pub enum OptionsFault {
    /// Octets of the list are missing. This comes before the next two, wherever their item stands.
    #[error("a list of header options is cut")]
    Cut,
    /// The first item at fault has the type 0.
    #[error("a header option has type 0")]
    BadKind,
    /// The first item at fault has data that its type does not have: Secure Path has some, or
    /// Proprietary has fewer than three octets of it.
    #[error("a header option has data that its type does not have")]
    BadShape,
    /// Memory ran out.
    #[error("out of memory")]
    NoMemory,
}

impl From<NoMemory> for OptionsFault {
    ghost from_gives = { λ _ fault. fault ≡ faults.NoMemory };

    fn from(_error: NoMemory) -> OptionsFault {
        OptionsFault::NoMemory
    }
}
