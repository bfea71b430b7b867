//! What holds of the conditions that are named. The function does nothing: its contract is the law.
#![tactic(auto)]

ghost use Rattle.std.specs.Prelude.{◌≡◌, ◌↔◌, ◌++◌, ◌∷◌, [], List, None};
ghost use Rattle.bsc_history.specs.declared.entry.Entry.{Entry};
ghost use Rattle.bsc_history.specs.declared.limits.About.{About};
ghost use Rattle.bsc_history.specs.Legality.{Legal};
ghost use Rattle.bsc_legality.specs.Breaches.{breach};

/// A condition is named of an entry exactly where the history isn't legal with it behind the entries before it.
pub fn names_each()
    ensures { (a : About) (H : List Entry) (e : Entry) → Legal a H → (breach a H e ≡ None) ↔ Legal a (H ++ e ∷ []) }
{}
