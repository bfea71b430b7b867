//! Links that get no session.
ghost use Rattle.std.specs.Prelude.{◌≡◌, ◌∷◌, [], None, codes};
ghost use Rattle.bsc_edge.specs.declared.said.Said.{Said};
ghost use Rattle.bsc_edge.specs.Told.{Grows};
ghost use Rattle.bsc_turn.specs.Effects.{ended_of};
ghost use Rattle.bsc_turn.specs.Passes.{ended_callers, newest_number, view_of};
ghost use Rattle.bsc_hub.specs.Passing.{IsCaller, Passed};
ghost use Rattle.bsc_serve.specs.Fates.{IsTurnedAway};

use bsc_edge::Link;
use bsc_hub::{Hub, Pass};
use std::alloc::Global;

/// Closes a link that gets no session, with 1001. The answer changes nothing.
fn turn_away<L: Link>(alloc: Global, link: &mut L)
    ensures { Grows (L.talk link.old) (L.talk link.new) (Said.Closed 1001 [] ∷ []) }
{
    let _ = link.close(alloc, 1001, "");
}

/// Closes a link for which there is no number.
pub(crate) fn drop_link<L: Link + Drop>(alloc: Global, link: L)
    ensures { IsTurnedAway L.talk link }
{
    let mut link = link;
    turn_away(alloc, &mut link);
}

/// Closes a link whose session isn't started, and joins the pass that was split for it.
pub(crate) fn take_back<L: Link + Drop>(
    alloc: Global,
    hub: &Hub,
    pass: &mut Pass,
    link: L,
    other: Pass,
)
    requires pass { IsCaller hub.now pass.old }
    requires other { IsCaller hub.now other }
    ensures pass { Passed hub.now pass.old (ended_of (view_of other) ∷ ended_callers other) None pass.new }
    ensures loaded { newest_number pass.new ≡ newest_number pass.old }
    ensures turned { IsTurnedAway L.talk link }
{
    drop_link(alloc, link);
    hub.join(pass, other);
}
