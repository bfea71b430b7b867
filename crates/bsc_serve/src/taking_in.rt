//! Sessions that have ended.
ghost use Rattle.std.specs.Prelude.{◌≡◌, ◌≤◌, ◌∷◌, [], true, None};
ghost use Rattle.bsc_edge.specs.Told.{Comes, Grows, Stays, ended_in};
ghost use Rattle.bsc_turn.specs.Effects.{ended_of};
ghost use Rattle.bsc_turn.specs.Passes.{ended_callers, newest_number, view_of};
ghost use Rattle.bsc_hub.specs.Passing.{IsCaller, Passed};
ghost use Rattle.bsc_session.specs.Jobs.{Worked};
ghost use Rattle.bsc_serve.specs.Inner.{AllOurs, GaveBack, GoesOn, TakesIn};

use bsc_edge::{Clock, Job, Journals, Link, Spawner};
use bsc_hub::{Hub, Pass};
use bsc_outside::Sink;
use bsc_session::{SessionEnd, SessionJob};
use std::sync::Wait;

/// Waits until no job is out. What is left of those that were is let go: they are jobs of before the call.
pub(crate) fn await_all<R: Wait, J: Job, P: Spawner<J>>(rt: &R, spawner: &mut P)
    ensures again { P.can_start spawner.old → P.can_start spawner.new }
    ensures jobs { Stays (P.jobs spawner.old) (P.jobs spawner.new) }
    ensures gave { GaveBack (P.out spawner.old) (P.out spawner.new) (P.ends spawner.old) (P.ends spawner.new) }
    ensures none { P.out spawner.new ≡ [] }
    ensures later { P.faults spawner.old ≤ P.faults spawner.new }
{
    for _ in rt.forever() {
        if spawner.next_end(rt).is_none() {
            return;
        }
    }
    unreachable!()
}

/// What is left of a session that has ended: of one that has by now, or, where it `waits`, of the next that will. None says
/// then that no session is out.
fn next_end<
    R: Wait,
    C: Clock + Drop,
    L: Link + Drop,
    N: Sink + Drop,
    P: Spawner<SessionJob<L, C, N>>,
>(rt: &R, spawner: &mut P, waits: bool) -> Option<SessionEnd<L, C, N>>
    ensures again { P.can_start spawner.old → P.can_start spawner.new }
    ensures jobs { Stays (P.jobs spawner.old) (P.jobs spawner.new) }
    ensures ends { Grows (P.ends spawner.old) (P.ends spawner.new) (ended_in result) }
    ensures out { Comes (Worked L.talk L.faults L.notices C.readings N.held N.faults) (P.out spawner.old) (P.out spawner.new) result }
    ensures none { waits ≡ true → result ≡ None → P.out spawner.new ≡ [] }
    ensures later { P.faults spawner.old ≤ P.faults spawner.new }
{
    if waits {
        spawner.next_end(rt)
    } else {
        spawner.ended(rt)
    }
}

/// Joins the pass of a session that has ended.
fn take_in<L: Drop, C: Drop, N: Drop>(hub: &Hub, pass: &mut Pass, left: SessionEnd<L, C, N>)
    requires pass { IsCaller hub.now pass.old }
    requires other { IsCaller hub.now left.pass }
    ensures pass { Passed hub.now pass.old (ended_of (view_of left.pass) ∷ ended_callers left.pass) None pass.new }
    ensures loaded { newest_number pass.new ≡ newest_number pass.old }
{
    hub.join(pass, left.pass);
}

/// Takes in the callers of the sessions that have ended: of those that have by now, or, where it `waits`, of all that are
/// out. `J` has begun their journals.
pub(crate) fn take_ended<
    R: Wait,
    C: Clock + Drop,
    L: Link + Drop,
    N: Sink + Drop,
    J: Journals<N>,
    P: Spawner<SessionJob<L, C, N>>,
>(rt: &R, hub: &Hub, pass: &mut Pass, spawner: &mut P, waits: bool)
    requires pass { IsCaller hub.now pass.old }
    requires ours { AllOurs hub.now (P.out spawner.old) }
    ensures again { P.can_start spawner.old → P.can_start spawner.new }
    ensures caller { IsCaller hub.now pass.new }
    ensures goes_on { GoesOn (Worked L.talk L.faults L.notices C.readings N.held N.faults) J.begins L.talk hub.now pass.old
        (record { jobs = P.jobs spawner.old; given_back = P.ends spawner.old; out = P.out spawner.old; unstarted = P.faults spawner.old }) pass.new
        (record { jobs = P.jobs spawner.new; given_back = P.ends spawner.new; out = P.out spawner.new; unstarted = P.faults spawner.new }) }
    ensures takes_in { TakesIn (Worked L.talk L.faults L.notices C.readings N.held N.faults) hub.now pass.old
        (record { jobs = P.jobs spawner.old; given_back = P.ends spawner.old; out = P.out spawner.old; unstarted = P.faults spawner.old }) pass.new
        (record { jobs = P.jobs spawner.new; given_back = P.ends spawner.new; out = P.out spawner.new; unstarted = P.faults spawner.new }) }
    ensures none { waits ≡ true → P.out spawner.new ≡ [] }
{
    for _ in rt.forever() {
        match next_end(rt, spawner, waits) {
            Some(left) => take_in(hub, pass, left),
            None => return,
        }
    }
    unreachable!()
}
