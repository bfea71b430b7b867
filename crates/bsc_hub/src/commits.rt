//! The commits, one for each kind of entry. Which entry a commit makes is picked where it is called, as a function of
//! the helper's arguments: the caller, what the call was asked, and what it is told.
ghost use Rattle.std.specs.Prelude.{◌≡◌};
ghost use Rattle.bsc_ring.specs.Ends.{outlet_mark};
ghost use Rattle.bsc_hub.specs.Committing.{CanCommit, HasCommitted};
ghost use Rattle.bsc_hub.specs.Calls.{all_stamped, count_stamped, joined_stamped, leave_stamped, one_stamped, refused_stamped, stop_stamped};

use bsc_desk::{AllReply, Desk, Gone, NewRow, OneReply, Prepared};
use bsc_history::{Counts, Makes, Refusal};
use bsc_octets::Identity;
use bsc_ring::Outlet;
use bsc_turn::{Guard, Pass, Turn};
use std::snapshot::Snapshot;

/// The entry of a connect that joined, with the mark of its outbox.
pub(crate) fn commit_joined<'a, E: Makes>(
    guard: Guard<&'a Turn<Desk>, Desk>,
    pass: &mut Pass,
    caller: u64,
    who: Snapshot<Identity>,
    row: NewRow,
    outlet: &Outlet,
) -> u64
    requires picked { E.stamped ≡ joined_stamped caller who.value row (outlet_mark outlet.now) }
    requires can { CanCommit guard.turn.now guard pass.old (joined_stamped caller who.value row (outlet_mark outlet.now)) }
    ensures { HasCommitted guard.entry.turn.now guard.entry
        (joined_stamped caller who.value row (outlet_mark outlet.now)) result pass.new }
{
    guard.commit::<E>(pass)
}

/// The entry of a connect that was refused.
pub(crate) fn commit_refused<'a, E: Makes>(
    guard: Guard<&'a Turn<Desk>, Desk>,
    pass: &mut Pass,
    caller: u64,
    who: Snapshot<Identity>,
    refusal: Refusal,
) -> u64
    requires picked { E.stamped ≡ refused_stamped caller who.value refusal }
    requires can { CanCommit guard.turn.now guard pass.old (refused_stamped caller who.value refusal) }
    ensures { HasCommitted guard.entry.turn.now guard.entry (refused_stamped caller who.value refusal) result pass.new }
{
    guard.commit::<E>(pass)
}

/// The entry of a unicast, with the look and the reply that `said` has.
pub(crate) fn commit_one<'a, E: Makes>(
    guard: Guard<&'a Turn<Desk>, Desk>,
    pass: &mut Pass,
    caller: u64,
    conn: u64,
    frame: Snapshot<Prepared>,
    said: OneReply,
) -> u64
    requires picked { E.stamped ≡ one_stamped caller conn frame.value.message said }
    requires can { CanCommit guard.turn.now guard pass.old (one_stamped caller conn frame.value.message said) }
    ensures { HasCommitted guard.entry.turn.now guard.entry
        (one_stamped caller conn frame.value.message said) result pass.new }
{
    guard.commit::<E>(pass)
}

/// The entry of a broadcast, with the looks and the reply that `said` has.
pub(crate) fn commit_all<'a, E: Makes>(
    guard: Guard<&'a Turn<Desk>, Desk>,
    pass: &mut Pass,
    caller: u64,
    conn: u64,
    frame: &Prepared,
    said: &AllReply,
) -> u64
    requires picked { E.stamped ≡ all_stamped caller conn frame.now.message said.now }
    requires can { CanCommit guard.turn.now guard pass.old (all_stamped caller conn frame.now.message said.now) }
    ensures { HasCommitted guard.entry.turn.now guard.entry
        (all_stamped caller conn frame.now.message said.now) result pass.new }
{
    guard.commit::<E>(pass)
}

/// The entry of a leave of `conn`, whose outlet found its outbox empty so many times.
pub(crate) fn commit_leave<'a, E: Makes>(
    guard: Guard<&'a Turn<Desk>, Desk>,
    pass: &mut Pass,
    caller: u64,
    conn: u64,
    empties: u64,
    gone: Gone,
) -> u64
    requires picked { E.stamped ≡ leave_stamped caller conn empties gone }
    requires can { CanCommit guard.turn.now guard pass.old (leave_stamped caller conn empties gone) }
    ensures { HasCommitted guard.entry.turn.now guard.entry (leave_stamped caller conn empties gone) result pass.new }
{
    guard.commit::<E>(pass)
}

/// The entry of a stop.
pub(crate) fn commit_stop<'a, E: Makes>(
    guard: Guard<&'a Turn<Desk>, Desk>,
    pass: &mut Pass,
    caller: u64,
    said: Counts,
) -> u64
    requires picked { E.stamped ≡ stop_stamped caller said }
    requires can { CanCommit guard.turn.now guard pass.old (stop_stamped caller said) }
    ensures { HasCommitted guard.entry.turn.now guard.entry (stop_stamped caller said) result pass.new }
{
    guard.commit::<E>(pass)
}

/// The entry of a count.
pub(crate) fn commit_count<'a, E: Makes>(
    guard: Guard<&'a Turn<Desk>, Desk>,
    pass: &mut Pass,
    caller: u64,
    said: Counts,
) -> u64
    requires picked { E.stamped ≡ count_stamped caller said }
    requires can { CanCommit guard.turn.now guard pass.old (count_stamped caller said) }
    ensures { HasCommitted guard.entry.turn.now guard.entry (count_stamped caller said) result pass.new }
{
    guard.commit::<E>(pass)
}
