//! Where the next entry of a file stands.
ghost use Rattle.std.proofs.Common.{rules};
ghost use Rattle.std.specs.Cmp.{partial_order_from_own_ties};
ghost use Rattle.std.specs.Cmp.Rules.{comparing};
ghost use Rattle.std.specs.Ordering.{nat_cmp, on, flip_args, then_cmp, as_partial_cmp};

use std::cmp::Ordering;

/// Where the next entry of a file stands. One of a lesser place is greater, so that the greatest of some comes next.
#[derive(Clone, Copy, Debug, PartialEq, Eq)]
pub(crate) struct Head {
    /// The entry's place.
    pub(crate) place: u64,
    /// The file's number.
    pub(crate) file: usize,
    /// Where the entry's line begins in the file.
    pub(crate) at: u64,
}

impl Ord for Head {
    ghost cmp = { then_cmp (flip_args (on (λ h. h.place) nat_cmp)) (then_cmp (on (λ h. h.file) nat_cmp) (on (λ h. h.at) nat_cmp)) };

    ghost total = { Prim.search (comparing, rules) };

    ghost matches_partial_cmp = { Prim.search (comparing, rules) };

    ghost matches_eq = { Prim.search (comparing, rules) };

    fn cmp(&self, other: &Head) -> Ordering {
        other
            .place
            .cmp(&self.place)
            .then(self.file.cmp(&other.file).then(self.at.cmp(&other.at)))
    }
}

impl PartialOrd for Head {
    ghost partial_cmp = { as_partial_cmp (then_cmp (flip_args (on (λ h. h.place) nat_cmp)) (then_cmp (on (λ h. h.file) nat_cmp) (on (λ h. h.at) nat_cmp))) };

    ghost laws = { partial_order_from_own_ties (Prim.search (comparing, rules)) (Prim.search (comparing, rules)) };

    fn partial_cmp(&self, other: &Head) -> Option<Ordering> {
        Some(self.cmp(other))
    }
}
