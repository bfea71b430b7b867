//! Laws over the definitions, each carried by a function that does nothing.
ghost use Rattle.std.specs.Prelude.{◌≡◌, ◌+◌, ◌++◌, ℕ, List, length};
ghost use Rattle.bsc_options.specs.declared.item.OptionItem.{OptionItem};
ghost use Rattle.bsc_options.specs.Spelling.{SpellsOptions};
ghost use Rattle.bsc_options.specs.Reading.{BeginsWith};

/// A list has one spelling, and octets spell one list. No spelling begins another, so the octets of a list
/// say where it ends, whatever follows them.
pub fn one_spelling()
    ensures { (a b : List OptionItem) (o p rest other : List ℕ) → SpellsOptions a o → SpellsOptions b p
        → o ++ rest ≡ p ++ other → (a ≡ b) × (o ≡ p) × (rest ≡ other) }
{}

/// Where the spelling of a list stands in octets, whatever comes before it and after it, the octets from
/// that place begin with that list. So it is what `read_options` finds there.
pub fn reads_back()
    ensures { (list : List OptionItem) (o before after : List ℕ) → SpellsOptions list o
        → BeginsWith (before ++ o ++ after) (length before) list (length before + length o) }
{}
