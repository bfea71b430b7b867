//! The loop that takes links.
ghost use Rattle.std.specs.Prelude.{◌≡◌, ◌≤◌, ◌≢◌, ◌<◌, ◌^◌, ◌∷◌, ℕ, [], Some, option_map};
ghost use Rattle.std.specs.Arc.{arc_value};
ghost use Rattle.bsc_outside.specs.Faults.{HasRisen};
ghost use Rattle.bsc_turn.specs.Histories.{StartsWith};
ghost use Rattle.bsc_turn.specs.Passes.{own_list, seen};
ghost use Rattle.bsc_hub.specs.Passing.{IsCaller};
ghost use Rattle.bsc_serve.specs.declared.accepted.Accepted.{Accepted};
ghost use Rattle.bsc_serve.specs.declared.halt.Halt.{Halt};
ghost use Rattle.bsc_edge.specs.declared.fault.LinkFault.{LinkFault};
ghost use Rattle.bsc_edge.specs.Told.{Grows, Stays};
ghost use Rattle.bsc_session.specs.Jobs.{Worked, policy_of};
ghost use Rattle.bsc_serve.specs.Asking.{Looked, asking_by};
ghost use Rattle.bsc_serve.specs.Inner.{Accepts, TakesOn, Taken, fault_halt, has_asked};
ghost use Rattle.bsc_serve.specs.Showing.{Shown};
ghost use Rattle.bsc_serve.specs.Terms.{all_terms};
ghost use Rattle.bsc_serve.specs.Worlds.{ServeWorld};

use crate::accepted::Accepted;
use crate::bounds::WAIT_MS;
use crate::halt::Halt;
use crate::parts::ServingParts;
use crate::served::ServedHub;
use crate::showing::show;
use crate::starting::start_session;
use crate::stop_asker::StopAsker;
use crate::taking_in::take_ended;
use crate::tally::Tally;
use bsc_edge::{Acceptor, Arrived, Clock, Journals, Link, LinkFault, Spawner};
use bsc_hub::Pass;
use bsc_outside::Sink;
use bsc_session::SessionJob;
use std::sync::Wait;

/// What ends the loop where a session couldn't be made.
fn halt_of(fault: LinkFault) -> Halt
    ensures fault { result ≡ fault_halt fault }
    ensures not_acceptor { result ≢ Halt.AcceptFault }
    ensures journal { result ≡ Halt.JournalFault → fault ≡ LinkFault.Failed }
{
    match fault {
        LinkFault::Failed => Halt::JournalFault,
        LinkFault::NoMemory => Halt::NoMemory,
    }
}

/// Asks the acceptor once, and starts a session for the link that arrived, if one did. Says what ends the loop, if
/// something does.
fn take_next<
    R: Wait,
    C: Clock + Drop,
    L: Link + Drop,
    A: Acceptor<L>,
    N: Sink + Drop,
    J: Journals<N>,
    P: Spawner<SessionJob<L, C, N>>,
>(
    served: ServedHub<'_, R>,
    pass: &mut Pass,
    parts: &mut ServingParts<A, C, P, J>,
    tally: &mut Tally,
) -> Option<Halt>
    requires can { P.can_start parts.old.spawner }
    requires pass { IsCaller (arc_value served.hub.now) pass.old }
    requires awaits { tally.old.remaining ≢ Some 0 }
    ensures again { P.can_start parts.new.spawner }
    ensures taken { (first : ServeWorld L C N) →
        Taken (Worked L.talk L.faults L.notices C.readings N.held N.faults) J.begins L.talk (arc_value served.entry.hub.now)
        (all_terms served.entry.terms (option_map (λ p. p.now) served.entry.prefix) (policy_of served.entry.policy.now)) first
        (record {
          pass = pass.old;
          links = A.left parts.old.acceptor;
          came = A.came parts.old.acceptor;
          waits = A.waits parts.old.acceptor;
          quiets = A.quiets parts.old.acceptor;
          begun = J.calls parts.old.journals;
          jobs = P.jobs parts.old.spawner;
          given_back = P.ends parts.old.spawner;
          out = P.out parts.old.spawner;
          unstarted = P.faults parts.old.spawner;
        }) tally.old →
        TakesOn (Worked L.talk L.faults L.notices C.readings N.held N.faults) J.begins L.talk (arc_value served.entry.hub.now)
        (all_terms served.entry.terms (option_map (λ p. p.now) served.entry.prefix) (policy_of served.entry.policy.now)) first
        (record {
          pass = pass.new;
          links = A.left parts.new.acceptor;
          came = A.came parts.new.acceptor;
          waits = A.waits parts.new.acceptor;
          quiets = A.quiets parts.new.acceptor;
          begun = J.calls parts.new.journals;
          jobs = P.jobs parts.new.spawner;
          given_back = P.ends parts.new.spawner;
          out = P.out parts.new.spawner;
          unstarted = P.faults parts.new.spawner;
        }) tally.new result }
    ensures grows { StartsWith (seen pass.new) (seen pass.old) }
    ensures asked { Grows (A.waits parts.old.acceptor) (A.waits parts.new.acceptor) (WAIT_MS ∷ []) }
    ensures bound { Stays (A.bound parts.old.acceptor) (A.bound parts.new.acceptor) }
    ensures later { A.faults parts.old.acceptor ≤ A.faults parts.new.acceptor }
    ensures failed { result ≡ Some Halt.AcceptFault → HasRisen (A.faults parts.old.acceptor) (A.faults parts.new.acceptor) }
    ensures unbegun { result ≡ Some Halt.JournalFault → HasRisen (J.faults parts.old.journals) (J.faults parts.new.journals) }
    ensures journals_later { J.faults parts.old.journals ≤ J.faults parts.new.journals }
    ensures unlost { J.lost parts.new.journals ≡ J.lost parts.old.journals }
    ensures unlimited { J.limits parts.new.journals ≡ J.limits parts.old.journals }
{
    match parts.acceptor.next(served.alloc, WAIT_MS) {
        Ok(Arrived::Link(link)) => match start_session(served, pass, parts, link) {
            Ok(started) => {
                tally.count(started);
                None
            }
            Err(fault) => Some(halt_of(fault)),
        },
        Ok(Arrived::Quiet) => None,
        Err(LinkFault::Failed) => Some(Halt::AcceptFault),
        Err(LinkFault::NoMemory) => Some(Halt::NoMemory),
    }
}

/// Takes links until as many have arrived as are asked for, the stop is asked for, or something halts it. Before
/// each it looks whether the stop is asked for, shows the asker how the hub is doing, where it wants that, and takes in the callers
/// of the sessions that have ended.
pub(crate) fn accept_all<
    R: Wait,
    C: Clock + Drop,
    L: Link + Drop,
    A: Acceptor<L>,
    N: Sink + Drop,
    J: Journals<N>,
    P: Spawner<SessionJob<L, C, N>>,
    Q: StopAsker,
>(
    served: ServedHub<'_, R>,
    pass: &mut Pass,
    parts: &mut ServingParts<A, C, P, J>,
    asker: &mut Q,
) -> Accepted
    requires can { P.can_start parts.old.spawner }
    requires pass { IsCaller (arc_value served.hub.now) pass.old }
    requires none { P.out parts.old.spawner ≡ [] }
    ensures again { P.can_start parts.new.spawner }
    ensures accepts { Accepts (Worked L.talk L.faults L.notices C.readings N.held N.faults) J.begins L.talk (arc_value served.entry.hub.now)
        (all_terms served.entry.terms (option_map (λ p. p.now) served.entry.prefix) (policy_of served.entry.policy.now))
        (record {
          pass = pass.old;
          links = A.left parts.old.acceptor;
          came = A.came parts.old.acceptor;
          waits = A.waits parts.old.acceptor;
          quiets = A.quiets parts.old.acceptor;
          begun = J.calls parts.old.journals;
          jobs = P.jobs parts.old.spawner;
          given_back = P.ends parts.old.spawner;
          out = P.out parts.old.spawner;
          unstarted = P.faults parts.old.spawner;
        })
        (record {
          pass = pass.new;
          links = A.left parts.new.acceptor;
          came = A.came parts.new.acceptor;
          waits = A.waits parts.new.acceptor;
          quiets = A.quiets parts.new.acceptor;
          begun = J.calls parts.new.journals;
          jobs = P.jobs parts.new.spawner;
          given_back = P.ends parts.new.spawner;
          out = P.out parts.new.spawner;
          unstarted = P.faults parts.new.spawner;
        }) result }
    ensures looked { Looked (own_list pass.old) (A.waits parts.old.acceptor) (A.waits parts.new.acceptor) (asking_by Q.looks Q.asked Q.endings asker.old)
        (asking_by Q.looks Q.asked Q.endings asker.new) (has_asked result) }
    ensures shown { Shown (seen pass.new) (Q.statuses asker.old) (Q.statuses asker.new) }
    ensures fits { (n : ℕ) → served.entry.terms.sessions ≡ Some n → n < 2 ^ 64 }
    ensures bound { Stays (A.bound parts.old.acceptor) (A.bound parts.new.acceptor) }
    ensures later { A.faults parts.old.acceptor ≤ A.faults parts.new.acceptor }
    ensures failed { result ≡ Accepted.Halted Halt.AcceptFault → HasRisen (A.faults parts.old.acceptor) (A.faults parts.new.acceptor) }
    ensures unbegun { result ≡ Accepted.Halted Halt.JournalFault → HasRisen (J.faults parts.old.journals) (J.faults parts.new.journals) }
    ensures journals_later { J.faults parts.old.journals ≤ J.faults parts.new.journals }
    ensures unlost { J.lost parts.new.journals ≡ J.lost parts.old.journals }
    ensures unlimited { J.limits parts.new.journals ≡ J.limits parts.old.journals }
{
    let rt = served.rt;
    let mut tally = Tally::of(served.terms.sessions);
    for _ in rt.forever() {
        if tally.is_full() {
            return Accepted::All(tally.unstarted);
        }
        let is_asked = asker.asks(&*pass);
        show(rt, served.hub, pass, asker, is_asked);
        if is_asked {
            return Accepted::Asked(tally.unstarted);
        }
        take_ended::<R, C, L, N, J, P>(rt, served.hub, pass, &mut parts.spawner, false);
        if let Some(halt) = take_next(served, pass, parts, &mut tally) {
            return Accepted::Halted(halt);
        }
    }
    unreachable!()
}
