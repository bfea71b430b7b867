//! Why a policy takes no more.
ghost use Rattle.std.specs.Prelude.{◌≡◌};
ghost use Rattle.bsc_policy.specs.declared.fault.PolicyFault.TheVariants as policy_fault;

use bsc_octets::NoMemory;
use thiserror::Error;

/// Why a policy didn't take a member or a rule.
#[derive(Clone, Copy, Debug, PartialEq, Eq, Error)]
pub enum PolicyFault {
    /// It holds as many of them as it takes.
    #[error("{held} are held already")]
    Full { held: u32 },
    /// A member has this address or this device. Members are counted from 0.
    #[error("member {member} has this address or this device")]
    Twice { member: u32 },
    /// Memory ran out.
    #[error("out of memory")]
    NoMemory,
}

impl From<NoMemory> for PolicyFault {
    ghost from_gives = { λ _ fault. fault ≡ policy_fault.NoMemory };

    fn from(_error: NoMemory) -> PolicyFault {
        PolicyFault::NoMemory
    }
}
