//! Laws over the definitions, each carried by a function that does nothing.
ghost use Rattle.std.specs.Prelude.{◌≡◌, ℕ, List};
ghost use Rattle.bsc_frame.specs.declared.message.Message.{Message};
ghost use Rattle.bsc_frame.specs.declared.check.Check.{Check};
ghost use Rattle.bsc_frame.specs.Spelling.{Spells};
ghost use Rattle.bsc_frame.specs.Checks.{IsFirst};

/// A message has at most one spelling, and octets spell at most one message.
pub fn one_spelling()
    ensures octets { (msg : Message) (m other : List ℕ) → Spells msg m → Spells msg other → m ≡ other }
    ensures message { (a b : Message) (m : List ℕ) → Spells a m → Spells b m → a ≡ b }
{}

/// No check fails of octets that spell a message, and of other octets at most one check is the first.
pub fn one_check()
    ensures spelled { (msg : Message) (m : List ℕ) (check : Check) → Spells msg m → IsFirst check m → ⊥ }
    ensures first { (check other : Check) (m : List ℕ) → IsFirst check m → IsFirst other m → check ≡ other }
{}
