//! Rules.
ghost use Rattle.std.specs.Prelude.{◌≡◌};
ghost use Rattle.bsc_policy.specs.Decisions.{applies, covers};

use bsc_octets::Octets;

/// The side of a rule that covers every group.
pub(crate) const ANY: &str = "*";

/// A rule: it allows or denies what goes from the members of one group to those of another. A side that is `*` covers
/// every group.
#[derive(Drop)]
pub struct Rule {
    pub allows: bool,
    pub from: Octets,
    pub to: Octets,
}

/// Whether a side of a rule covers a group.
fn covers(side: &[u8], group: &[u8]) -> bool
    ensures { result ≡ covers side.now group.now }
{
    side == ANY.as_bytes() || side == group
}

/// Whether a rule applies to what goes from one group to another.
pub(crate) fn applies(rule: &Rule, from: &[u8], to: &[u8]) -> bool
    ensures { result ≡ applies from.now to.now rule.now }
{
    covers(rule.from.as_slice(), from) && covers(rule.to.as_slice(), to)
}
