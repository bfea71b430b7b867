//! What words ask for, whatever their paths are.
ghost use Rattle.std.specs.Prelude.{◌≡◌, true, List, ◌∷◌, Some, None, codes};
ghost use Rattle.clap.specs.Words.{Text};
ghost use Rattle.bsc_cli.specs.Words.{AskedOf, asked_by, have_no_hyphen, has_plain_paths, listed};

/// A list that names a command and all that it takes, the options last, asks for just that, where its paths and its prefix
/// begin with no hyphen.
pub fn listed_words_are_taken()
    ensures { (words : List Text) (asked : AskedOf) → listed words ≡ Some asked → has_plain_paths asked ≡ true
        → asked_by words ≡ Some asked }
{}

/// Where no word after the first begins with a hyphen, words ask for exactly what such a list does, and otherwise for
/// nothing.
pub fn plain_words_are_listed()
    ensures { (name : Text) (words : List Text) → have_no_hyphen words ≡ true
        → asked_by (name ∷ words) ≡ listed (name ∷ words) }
{}

/// A call for help right after the first word asks for nothing, whatever that word is and whatever follows.
pub fn calls_for_help_are_refused()
    ensures long { (name : Text) (words : List Text) → asked_by (name ∷ codes "--help" ∷ words) ≡ None }
    ensures short { (name : Text) (words : List Text) → asked_by (name ∷ codes "-h" ∷ words) ≡ None }
{}
