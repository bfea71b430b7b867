//! Addresses as keys of a map.
ghost use Rattle.std.specs.Prelude.{ℕ, List, [], ◌∷◌, ◌++◌, nat_eq};
ghost use Rattle.std.specs.Cmp.{partial_equiv_from_equiv, on_per, on_equiv};
ghost use Rattle.std.specs.Cmp.Lexicographic.{pointwise, bytes_decides, nat_list_eq_equiv};
ghost use Rattle.std.proofs.Common.{ap};

use std::hash::{Hash, Hasher};

/// An address as a key. Its six octets are hashed in one step, and not one by one as those of an array are; two zeros stand
/// behind them, so that they are read as two words that don't overlap, which is quicker.
#[derive(Clone, Copy)]
pub(crate) struct Key(pub(crate) [u8; 6]);

impl PartialEq for Key {
    ghost eq = { λ x y. pointwise nat_eq x.0 y.0 };

    ghost laws = { on_per (λ x. x.0) (partial_equiv_from_equiv nat_list_eq_equiv) };

    fn eq(&self, other: &Key) -> bool {
        self.0 == other.0
    }
}

impl Eq for Key {
    ghost laws = { on_equiv (λ x. x.0) nat_list_eq_equiv };
}

impl Hash for Key {
    ghost hash_input = { λ x. (x.0 ++ 0 ∷ 0 ∷ []) ∷ [] };

    ghost respects_eq = { λ x y same. ap (λ (octets : List ℕ). (octets ++ 0 ∷ 0 ∷ []) ∷ []) ((bytes_decides x.0 y.0).0 same) };

    fn hash<H: Hasher>(&self, state: &mut H) {
        let [a, b, c, d, e, f] = self.0;
        state.write(&[a, b, c, d, e, f, 0, 0]);
    }
}
