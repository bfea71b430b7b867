//! The key that is named where a policy is refused.
ghost use Rattle.std.specs.Prelude.{◌≡◌};
ghost use Rattle.bsc_settings.specs.Names.{key_of};

use crate::key::KeyName;
use crate::refusal::PolicyRefusal;

impl PolicyRefusal {
    /// The key at fault: the list of members, or that of rules.
    pub(crate) fn key(self) -> KeyName
        ensures { result ≡ key_of self }
    {
        match self {
            PolicyRefusal::MemberList | PolicyRefusal::Member { .. } => KeyName::PolicyMember,
            PolicyRefusal::RuleList | PolicyRefusal::Rule { .. } => KeyName::PolicyRule,
        }
    }
}
