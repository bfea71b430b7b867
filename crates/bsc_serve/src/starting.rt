//! A link gets its session.
ghost use Rattle.std.specs.Prelude.{◌≡◌, ◌≢◌, ◌≤◌, ◌∷◌, [], None, Err, IfOk, Result, option_map};
ghost use Rattle.std.specs.Arc.{arc_value};
ghost use Rattle.bsc_outside.specs.Faults.{HasRisen};
ghost use Rattle.bsc_edge.specs.declared.fault.LinkFault.{LinkFault};
ghost use Rattle.bsc_hub.specs.Passing.{IsCaller};
ghost use Rattle.bsc_session.specs.Jobs.{policy_of};
ghost use Rattle.bsc_serve.specs.Inner.{Fares, HandsOver, TurnsAway};
ghost use Rattle.bsc_serve.specs.Terms.{all_terms};

use crate::parts::ServingParts;
use crate::served::ServedHub;
use crate::turning_away::{drop_link, take_back};
use bsc_edge::{Clock, Journals, Link, LinkFault, Spawner, Unstarted};
use bsc_hub::{Hub, Pass};
use bsc_octets::NoMemory;
use bsc_outside::Sink;
use bsc_policy::Policy;
use bsc_session::{JobTerms, SessionJob};
use std::alloc::Global;
use std::sync::{Arc, Wait};

/// Hands a job to the spawner. Where that gives it back, its link is closed and its pass joined. Says whether it was
/// started.
fn hand_over<
    R: Wait,
    C: Clock + Drop,
    L: Link + Drop,
    N: Sink + Drop,
    P: Spawner<SessionJob<L, C, N>>,
>(
    rt: &R,
    alloc: Global,
    hub: &Hub,
    pass: &mut Pass,
    job: SessionJob<L, C, N>,
    spawner: &mut P,
) -> Result<bool, LinkFault>
    requires can { P.can_start spawner.old }
    requires pass { IsCaller hub.now pass.old }
    requires other { IsCaller hub.now job.pass }
    ensures again { P.can_start spawner.new }
    ensures hands { HandsOver hub.now pass.old pass.new job
        (record { jobs = P.jobs spawner.old; given_back = P.ends spawner.old; out = P.out spawner.old; unstarted = P.faults spawner.old })
        (record { jobs = P.jobs spawner.new; given_back = P.ends spawner.new; out = P.out spawner.new; unstarted = P.faults spawner.new }) result }
    ensures turned { TurnsAway L.talk job.link result }
    ensures memory { result ≢ Err LinkFault.Failed }
{
    match spawner.start(rt, alloc, job) {
        Ok(()) => Ok(true),
        Err(Unstarted::Failed(job)) => {
            let parts = job.into_parts();
            take_back(alloc, hub, pass, parts.link, parts.pass);
            Ok(false)
        }
        Err(Unstarted::NoMemory(job)) => {
            let parts = job.into_parts();
            take_back(alloc, hub, pass, parts.link, parts.pass);
            Err(LinkFault::NoMemory)
        }
    }
}

/// One share more of a policy, if there is one.
fn share(policy: &Option<Arc<Policy>>) -> Result<Option<Arc<Policy>>, NoMemory>
    ensures { IfOk result (λ p. policy_of p ≡ policy_of policy.now) }
{
    match policy {
        Some(policy) => match Arc::try_clone(policy) {
            Ok(policy) => Ok(Some(policy)),
            Err(_) => Err(NoMemory),
        },
        None => Ok(None),
    }
}

/// Starts a session for a link that arrived, with a pass split for it and the journal of that pass's number. Says whether it
/// was started: it isn't where the spawner fails, or where there is no number left for a pass. The acceptor isn't asked.
pub(crate) fn start_session<
    R: Wait,
    C: Clock + Drop,
    L: Link + Drop,
    A,
    N: Sink + Drop,
    J: Journals<N>,
    P: Spawner<SessionJob<L, C, N>>,
>(
    served: ServedHub<'_, R>,
    pass: &mut Pass,
    parts: &mut ServingParts<A, C, P, J>,
    link: L,
) -> Result<bool, LinkFault>
    requires can { P.can_start parts.old.spawner }
    requires pass { IsCaller (arc_value served.hub.now) pass.old }
    ensures again { P.can_start parts.new.spawner }
    ensures fares { Fares J.begins L.talk (arc_value served.entry.hub.now)
        (all_terms served.entry.terms (option_map (λ p. p.now) served.entry.prefix) (policy_of served.entry.policy.now))
        link
        (record {
          pass = pass.old;
          stock = record { jobs = P.jobs parts.old.spawner; given_back = P.ends parts.old.spawner; out = P.out parts.old.spawner; unstarted = P.faults parts.old.spawner };
          begun = J.calls parts.old.journals;
        })
        (record {
          pass = pass.new;
          stock = record { jobs = P.jobs parts.new.spawner; given_back = P.ends parts.new.spawner; out = P.out parts.new.spawner; unstarted = P.faults parts.new.spawner };
          begun = J.calls parts.new.journals;
        }) result }
    ensures unbegun { result ≡ Err LinkFault.Failed → HasRisen (J.faults parts.old.journals) (J.faults parts.new.journals) }
    ensures journals_later { J.faults parts.old.journals ≤ J.faults parts.new.journals }
    ensures unlost { J.lost parts.new.journals ≡ J.lost parts.old.journals }
    ensures unlimited { J.limits parts.new.journals ≡ J.limits parts.old.journals }
    ensures acceptor { parts.new.acceptor ≡ parts.old.acceptor }
{
    let ServedHub {
        rt,
        alloc,
        hub,
        terms,
        prefix,
        policy,
    } = served;
    let here: &Hub = hub;
    let Ok(other) = here.split(rt, pass) else {
        drop_link(alloc, link);
        return Ok(false);
    };
    let journal = match parts.journals.begin(alloc, prefix, other.number()) {
        Ok(journal) => journal,
        Err(fault) => {
            take_back(alloc, here, pass, link, other);
            return Err(fault);
        }
    };
    let (Ok(clock), Ok(shared), Ok(policy)) = (
        parts.clock.another(alloc),
        Arc::try_clone(hub),
        share(policy),
    ) else {
        take_back(alloc, here, pass, link, other);
        return Err(LinkFault::NoMemory);
    };
    let job = SessionJob::new(
        alloc,
        shared,
        other,
        link,
        clock,
        journal,
        JobTerms {
            limits: terms.limits,
            turns: terms.turns,
            is_recorded: prefix.is_some(),
            policy,
        },
    );
    hand_over(rt, alloc, here, pass, job, &mut parts.spawner)
}
