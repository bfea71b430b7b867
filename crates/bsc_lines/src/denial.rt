//! Denials.
use bsc_octets::Vmac;

/// What a policy denied.
#[derive(Clone, Copy, Debug, PartialEq, Eq)]
pub enum Denial {
    /// A connect under an address, by rule 0.
    OfConnect(Vmac),
    /// What would have gone from one address to another, by the rule with a number. Rule 0 stands for none.
    OfPair { rule: u32, from: Vmac, to: Vmac },
}
