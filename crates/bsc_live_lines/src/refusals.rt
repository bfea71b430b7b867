//! Who is told of lines that are refused.
ghost use Rattle.std.specs.Prelude.{◌≡◌, [], ◌∷◌, ◌++◌};
ghost use Rattle.bsc_live_lines.specs.Refusals.{refusal_of};

use crate::refusal::Refused;

/// Who is told of lines that are refused. Nothing comes of it to the node, which goes on.
pub trait Refusals {
    ghost use Rattle.std.specs.Prelude.{List};
    ghost use Rattle.bsc_live_lines.specs.declared.refusal.Refusal.{Refusal as RefusalType};

    /// The lines that were told, in order.
    ghost told: { Self → List RefusalType };

    /// Tells of a line.
    fn tell(&mut self, line: Refused<'_>)
        ensures told { told self.new ≡ told self.old ++ refusal_of line.entry ∷ [] };
}
