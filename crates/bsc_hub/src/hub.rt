//! What a hub keeps.
ghost use Rattle.std.specs.Prelude.{◌≡◌};
ghost use Rattle.bsc_desk.specs.Bounds.{AreLimits};
ghost use Rattle.bsc_turn.specs.Passes.{callers_of, first_state};

use bsc_desk::Desk;
use bsc_history::About;
use bsc_turn::Turn;

/// A hub that threads share. A caller calls it with a pass; its calls stand in `making`, `callers`, `connecting`,
/// `forwarding`, `leaving` and `stopping`.
#[derive(Drop)]
pub struct Hub {
    /// The desk, which one caller at a time has in hand.
    pub(crate) turn: Turn<Desk>,
    /// Its identity and its limits, which are read without the turn.
    pub(crate) about: About,
    // They are those of the desk.
    ghost fixed: { (first_state turn).about ≡ about },
    ghost callers: { callers_of turn ≡ about.limits.callers },
    ghost in_range: { AreLimits about.limits },
}
