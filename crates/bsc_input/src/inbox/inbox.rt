//! Where the lines of an input wait.
ghost use Rattle.std.specs.Prelude.{◌≡◌, [], ◌∷◌, ◌++◌};

use crate::inbox::taken::Taken;

/// Where the lines of an input wait, whoever reads them.
pub trait LineInbox {
    ghost use Rattle.std.specs.Prelude.{List};
    ghost use Rattle.bsc_input.specs.declared.inbox.taken.Taken.{Taken as TakenType};

    /// All that was taken, in order: one answer a call.
    ghost taken: { Self → List TakenType };

    /// Takes the next line, if one is there. It waits for none.
    fn take(&mut self) -> Taken
        ensures told { taken self.new ≡ taken self.old ++ result ∷ [] };
}
