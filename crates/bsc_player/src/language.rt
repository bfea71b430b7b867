//! What a language of lines is.
use bsc_octets::NoMemory;
use std::alloc::Global;

/// Why a line was not carried out.
#[derive(Clone, Copy, Debug, PartialEq, Eq)]
pub enum LineFault {
    /// It says nothing that may be said here.
    Refused,
    /// Memory ran out.
    NoMemory,
}

impl From<NoMemory> for LineFault {
    ghost use Rattle.std.specs.Prelude.{◌≡◌};
    ghost use Rattle.bsc_player.specs.declared.language.LineFault.TheVariants as fault;

    ghost from_gives = { λ _ r. r ≡ fault.NoMemory };

    fn from(_fault: NoMemory) -> LineFault {
        LineFault::NoMemory
    }
}

/// A language of lines. A value of it is what stands after some lines.
pub trait Language {
    ghost use Rattle.std.specs.Prelude.{◌≡◌, List, ℕ};
    ghost use Rattle.bsc_player.specs.Playing.{Meaning};
    ghost use Rattle.bsc_player.specs.Languages.{StepsTo};

    /// What may stand after some lines, as definitions see it.
    ghost State: { Type 0 };

    /// What each line does to what stands, and where an input may end.
    ghost means: { Meaning State };

    /// A value stands for this state.
    ghost stands_for: { Self → State → Type 0 };

    /// Carries out a line, which comes without its LF and the one CR before it, and puts its text behind
    /// `text`. After a fault `text` may hold anything, and the value isn't used again.
    fn carry_out(&mut self, alloc: Global, line: &[u8], text: &mut Vec<u8>) -> Result<(), LineFault>
        requires some { (s : State) × stands_for self.old s }
        ensures stepped { (s : State) → stands_for self.old s →
            StepsTo (stands_for self.new) result text.old.items text.new.items (means.step s line.now) };

    /// Whether an input may end here.
    fn may_end(&self) -> bool
        requires some { (s : State) × stands_for self.now s }
        ensures may { (s : State) → stands_for self.now s → result ≡ means.may_end s };
}
