//! Why a policy isn't read.
ghost use Rattle.std.specs.Prelude.{◌≡◌};
ghost use Rattle.bsc_settings.specs.declared.unread.Unread.TheVariants as unread;

use crate::refusal::PolicyRefusal;
use bsc_octets::NoMemory;

/// Why a policy isn't read.
#[derive(Clone, Copy, Drop)]
pub(crate) enum Unread {
    /// It is refused.
    Refused(PolicyRefusal),
    /// Memory ran out.
    NoMemory,
}

impl From<NoMemory> for Unread {
    ghost from_gives = { λ _ why. why ≡ unread.NoMemory };

    fn from(_error: NoMemory) -> Unread {
        Unread::NoMemory
    }
}
