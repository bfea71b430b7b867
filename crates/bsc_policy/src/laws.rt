//! How large a policy may be, carried by a function that does nothing.
ghost use Rattle.std.specs.Prelude.{◌≡◌};
ghost use Rattle.bsc_policy.specs.declared.bounds.TheConstants.{MEMBERS, RULES};

/// A policy has 1,024 members and 256 rules at most.
pub fn a_policy_has_1024_members()
    ensures members { MEMBERS ≡ 1024 }
    ensures rules { RULES ≡ 256 }
{}
