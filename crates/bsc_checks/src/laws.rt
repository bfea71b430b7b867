//! Laws over the definitions, each carried by a function that does nothing.
ghost use Rattle.std.specs.Prelude.{◌≡◌, ℕ, List};
ghost use Rattle.bsc_checks.specs.declared.place.Place.{Place};
ghost use Rattle.bsc_checks.specs.declared.verdict.Verdict.{Verdict};
ghost use Rattle.bsc_checks.specs.Verdicts.{Judged};
ghost use Rattle.bsc_checks.specs.Options.{AreOctets};
ghost use Rattle.bsc_checks.specs.Outcomes.{outcome_of};

/// The verdict that is computed of octets is one that they have at that place, and they have no other.
pub fn one_outcome()
    ensures has { (m : List ℕ) (place : Place) (max : ℕ) → AreOctets m → Judged m place max (outcome_of m place max) }
    ensures only { (m : List ℕ) (place : Place) (max : ℕ) (verdict : Verdict) → AreOctets m
        → Judged m place max verdict → verdict ≡ outcome_of m place max }
{}

/// Octets have at most one verdict at a place.
pub fn one_verdict()
    ensures { (m : List ℕ) (place : Place) (max : ℕ) (verdict other : Verdict)
        → Judged m place max verdict → Judged m place max other → verdict ≡ other }
{}
