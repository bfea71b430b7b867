//! What may ask for the stop of a hub.
ghost use Rattle.std.specs.Prelude.{◌≡◌, ◌≤◌, true, [], ◌∷◌};
ghost use Rattle.bsc_edge.specs.Told.{Grows};
ghost use Rattle.bsc_outside.specs.Faults.{HasRisen};
ghost use Rattle.bsc_turn.specs.Passes.{own_list};
ghost use Rattle.bsc_serve.specs.Asking.{look_at};

use bsc_hub::{HubStatus, Pass};
use bsc_outside::Sink;

/// Asks for the stop of a hub that is served, or doesn't. It is looked at between any two links. It may be shown how the hub is
/// doing.
pub trait StopAsker {
    ghost use Rattle.std.specs.Prelude.{List, ℕ, None, Option};
    ghost use Rattle.bsc_desk.specs.declared.looking.HubStatus.{HubStatus};
    ghost use Rattle.bsc_serve.specs.declared.session_look.SessionLook.{SessionLook};

    /// How often it asked, up to the greatest `u64`.
    ghost asked: { Self → ℕ };

    /// How it was looked at, in order, where that is told.
    ghost looks: { Self → Option (List SessionLook) } = { λ _. None };

    /// What was written each time that it was told that the hub has ended, where that is told.
    ghost endings: { Self → Option (List (Option (List ℕ))) } = { λ _. None };

    /// What it was shown of how the hub is doing, in order, where that is told.
    ghost statuses: { Self → Option (List HubStatus) } = { λ _. None };

    /// Whether the stop is asked for by now, where this is the hub's own pass.
    fn asks(&mut self, pass: &Pass) -> bool
        ensures told { Grows (looks self.old) (looks self.new) (look_at (own_list pass.now) result ∷ []) }
        ensures asked { result ≡ true → HasRisen (asked self.old) (asked self.new) }
        ensures later { asked self.old ≤ asked self.new }
        ensures endings { endings self.new ≡ endings self.old }
        ensures statuses { statuses self.new ≡ statuses self.old };

    /// Whether it wants to be shown how the hub is doing. This is asked after each look, and before the stop, for the last time.
    fn wants(&mut self, is_last: bool) -> bool
        ensures looks { looks self.new ≡ looks self.old }
        ensures asked { asked self.new ≡ asked self.old }
        ensures endings { endings self.new ≡ endings self.old }
        ensures statuses { statuses self.new ≡ statuses self.old };

    /// The hub is doing so.
    fn show(&mut self, status: HubStatus)
        ensures told { Grows (statuses self.old) (statuses self.new) (status ∷ []) }
        ensures looks { looks self.new ≡ looks self.old }
        ensures asked { asked self.new ≡ asked self.old }
        ensures endings { endings self.new ≡ endings self.old };

    /// The hub has ended, and all that it writes was put into this sink.
    fn end<K: Sink>(&mut self, written: &K)
        ensures told { Grows (endings self.old) (endings self.new) (K.held written.now ∷ []) }
        ensures looks { looks self.new ≡ looks self.old }
        ensures same { asked self.new ≡ asked self.old }
        ensures statuses { statuses self.new ≡ statuses self.old };
}
