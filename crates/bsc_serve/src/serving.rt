//! Serving a hub.
ghost use Rattle.std.specs.Prelude.{◌≡◌, ◌≤◌, ◌⊎◌, ◌∷◌, [], IsErr, Err, Some, option_map};
ghost use Rattle.std.specs.Arc.{arc_value};
ghost use Rattle.bsc_outside.specs.Faults.{HasRisen};
ghost use Rattle.bsc_turn.specs.Passes.{number_of, own_list, seen};
ghost use Rattle.bsc_hub.specs.Passing.{IsCaller};
ghost use Rattle.bsc_desk.specs.Entries.{stop_entry};
ghost use Rattle.bsc_serve.specs.declared.end.ServeEnd.{ServeEnd};
ghost use Rattle.bsc_serve.specs.declared.halt.Halt.{Halt};
ghost use Rattle.bsc_edge.specs.declared.fault.LinkFault.{LinkFault};
ghost use Rattle.bsc_edge.specs.Told.{Stays, fault_in};
ghost use Rattle.bsc_session.specs.Notes.Notes.{HasLine, Records, made as made_note};
ghost use Rattle.bsc_session.specs.Jobs.{Worked, policy_of};
ghost use Rattle.bsc_serve.specs.Asking.{AskedSo, asking_by};
ghost use Rattle.bsc_serve.specs.Inner.{AllOurs, Stopped, StopsFirst, asked_end, halt_end, lost_or, request_end, stop_end, whole_end};
ghost use Rattle.bsc_serve.specs.Serving.{Serving, stop_notes};
ghost use Rattle.bsc_serve.specs.Showing.{Shown};
ghost use Rattle.bsc_serve.specs.Terms.{all_terms};
ghost use Rattle.bsc_serve.specs.Waking.{WakesAll, stop_place};

use crate::accepted::Accepted;
use crate::accepting::accept_all;
use crate::end::ServeEnd;
use crate::halt::Halt;
use crate::parts::ServingParts;
use crate::served::ServedHub;
use crate::showing::show;
use crate::stop_asker::StopAsker;
use crate::stop_told::StopTold;
use crate::taking_in::{await_all, take_ended};
use bsc_edge::{Acceptor, Clock, Journals, Link, LinkFault, Spawner};
use bsc_history::{AlreadyStopped, Counts};
use bsc_hub::{Hub, Pass, Told};
use bsc_outside::Sink;
use bsc_session::{Journal, Made, Noted, SessionJob};
use std::alloc::Global;
use std::sync::Wait;

/// Stops the hub. What it answers is one value, so that it is known as a whole.
fn stop<R: Wait>(rt: &R, hub: &Hub, pass: &mut Pass) -> Result<Told<Counts>, AlreadyStopped>
    requires { IsCaller hub.now pass.old }
    ensures stopped { Stopped hub.now pass.old pass.new result }
    ensures caller { IsCaller hub.now pass.new }
{
    hub.stop(rt, pass)
}

/// Notes a Stop.
fn note_stop<N: Journal>(
    alloc: Global,
    own: &mut N,
    at: u64,
    caller: u64,
    counts: Counts,
) -> Result<(), LinkFault>
    ensures noted { Records (N.held own.old) (N.held own.new) (made_note at (stop_entry caller counts) ∷ []) (fault_in result) }
    ensures failed { result ≡ Err LinkFault.Failed → HasRisen (N.faults own.old) (N.faults own.new) }
    ensures later { N.faults own.old ≤ N.faults own.new }
{
    let made = Made::Stopped(counts);
    own.note(alloc, &Noted::Entry { at, caller, made })
}

/// Why a line wasn't put, if it wasn't.
fn fault_of(noted: Result<(), LinkFault>) -> Option<LinkFault>
    ensures fault { result ≡ fault_in noted }
    ensures failed { result ≡ Some LinkFault.Failed → noted ≡ Err LinkFault.Failed }
{
    match noted {
        Ok(()) => None,
        Err(fault) => Some(fault),
    }
}

/// Stops the hub, and puts the line of the Stop into the own journal, if this made it.
fn finish<R: Wait, N: Sink>(
    rt: &R,
    alloc: Global,
    hub: &Hub,
    pass: &mut Pass,
    own: &mut N,
) -> StopTold
    requires { IsCaller hub.now pass.old }
    ensures stopped { Stopped hub.now pass.old pass.new result.answer }
    ensures caller { IsCaller hub.now pass.new }
    ensures records { Records (N.held own.old) (N.held own.new) (stop_notes (number_of pass.old) result.answer) result.lost }
    ensures has_line { HasLine (stop_notes (number_of pass.old) result.answer) result.lost }
    ensures failed { result.lost ≡ Some LinkFault.Failed → HasRisen (N.faults own.old) (N.faults own.new) }
    ensures later { N.faults own.old ≤ N.faults own.new }
{
    let caller = pass.number();
    match stop(rt, hub, pass) {
        Ok(told) => {
            let lost = fault_of(note_stop(alloc, own, told.at, caller, told.said));
            StopTold {
                answer: Ok(told),
                lost,
            }
        }
        Err(already) => StopTold {
            answer: Err(already),
            lost: None,
        },
    }
}

/// Where the Stop stands, whether this call made it or another did before.
fn place_of(answer: &Result<Told<Counts>, AlreadyStopped>) -> u64
    ensures { result ≡ stop_place answer.now }
{
    match answer {
        Ok(told) => told.at,
        Err(already) => already.at,
    }
}

/// How serving ends that would end so, by why the Stop's line wasn't put, if it wasn't.
fn lost_or(end: ServeEnd, lost: Option<LinkFault>) -> ServeEnd
    ensures { result ≡ lost_or end lost }
{
    match lost {
        None => end,
        Some(LinkFault::Failed) => ServeEnd::JournalFault,
        Some(LinkFault::NoMemory) => ServeEnd::NoMemory,
    }
}

/// How serving ends that wasn't cut short, by what the stop of the hub answered, where its line was put.
fn stop_end(unstarted: u64, answer: Result<Told<Counts>, AlreadyStopped>) -> ServeEnd
    ensures { result ≡ stop_end unstarted answer }
{
    match answer {
        Ok(told) => ServeEnd::Done {
            counts: told.said,
            unstarted,
        },
        Err(already) => ServeEnd::StoppedBefore {
            at: already.at,
            unstarted,
        },
    }
}

/// How serving ends that wasn't cut short.
fn done(unstarted: u64, stopped: StopTold) -> ServeEnd
    ensures { result ≡ whole_end unstarted stopped.answer stopped.lost }
{
    lost_or(stop_end(unstarted, stopped.answer), stopped.lost)
}

/// How serving ends whose stop was asked for, by what the stop answered, where its line was put.
fn request_end(unstarted: u64, answer: Result<Told<Counts>, AlreadyStopped>) -> ServeEnd
    ensures { result ≡ request_end unstarted answer }
{
    match answer {
        Ok(told) => ServeEnd::Requested {
            counts: Some(told.said),
            unstarted,
        },
        Err(_) => ServeEnd::Requested {
            counts: None,
            unstarted,
        },
    }
}

/// How serving ends whose stop was asked for.
fn asked_end(unstarted: u64, stopped: StopTold) -> ServeEnd
    ensures { result ≡ asked_end unstarted stopped.answer stopped.lost }
{
    lost_or(request_end(unstarted, stopped.answer), stopped.lost)
}

/// How serving ends that halted.
fn end_of(halt: Halt, lost: Option<LinkFault>) -> ServeEnd
    ensures { result ≡ halt_end halt lost }
{
    match halt {
        Halt::JournalFault => ServeEnd::JournalFault,
        Halt::AcceptFault => lost_or(ServeEnd::AcceptFault, lost),
        Halt::NoMemory => lost_or(ServeEnd::NoMemory, lost),
    }
}

/// Stops the hub while sessions may be out, wakes all links, and then waits for the sessions and takes in their callers.
fn stop_first<
    R: Wait,
    C: Clock + Drop,
    L: Link + Drop,
    A: Acceptor<L>,
    N: Sink + Drop,
    J: Journals<N>,
    P: Spawner<SessionJob<L, C, N>>,
>(
    served: ServedHub<'_, R>,
    pass: &mut Pass,
    own: &mut N,
    parts: &mut ServingParts<A, C, P, J>,
) -> StopTold
    requires pass { IsCaller (arc_value served.hub.now) pass.old }
    requires ours { AllOurs (arc_value served.hub.now) (P.out parts.old.spawner) }
    ensures again { P.can_start parts.old.spawner → P.can_start parts.new.spawner }
    ensures stops { StopsFirst (Worked L.talk L.faults L.notices C.readings N.held N.faults) (arc_value served.entry.hub.now) pass.old
        (record { jobs = P.jobs parts.old.spawner; given_back = P.ends parts.old.spawner; out = P.out parts.old.spawner; unstarted = P.faults parts.old.spawner })
        pass.new
        (record { jobs = P.jobs parts.new.spawner; given_back = P.ends parts.new.spawner; out = P.out parts.new.spawner; unstarted = P.faults parts.new.spawner })
        result.answer }
    ensures caller { IsCaller (arc_value served.entry.hub.now) pass.new }
    ensures none { P.out parts.new.spawner ≡ [] }
    ensures records { Records (N.held own.old) (N.held own.new) (stop_notes (number_of pass.old) result.answer) result.lost }
    ensures has_line { HasLine (stop_notes (number_of pass.old) result.answer) result.lost }
    ensures unput { result.lost ≡ Some LinkFault.Failed → HasRisen (N.faults own.old) (N.faults own.new) }
    ensures own_later { N.faults own.old ≤ N.faults own.new }
    ensures woken { WakesAll pass.new (A.stops parts.new.acceptor) }
    ensures bound { A.bound parts.new.acceptor ≡ A.bound parts.old.acceptor }
    ensures left { A.left parts.new.acceptor ≡ A.left parts.old.acceptor }
    ensures came { A.came parts.new.acceptor ≡ A.came parts.old.acceptor }
    ensures waits { A.waits parts.new.acceptor ≡ A.waits parts.old.acceptor }
    ensures quiets { A.quiets parts.new.acceptor ≡ A.quiets parts.old.acceptor }
    ensures same { A.faults parts.new.acceptor ≡ A.faults parts.old.acceptor }
    ensures journals { parts.new.journals ≡ parts.old.journals }
{
    let hub: &Hub = served.hub;
    let told = finish(served.rt, served.alloc, hub, pass, own);
    parts.acceptor.wake_all(place_of(&told.answer));
    take_ended::<R, C, L, N, J, P>(served.rt, hub, pass, &mut parts.spawner, true);
    told
}

/// Serves a hub: takes links until as many have arrived as are asked for, for ever where none is asked for, and gives
/// each a session in a job of its own, with a pass split from this one, the journal of that pass's number under the prefix,
/// and the policy. When a session has ended it joins its pass to this one. Once all have come and all sessions have ended,
/// it stops the hub, and puts the line of the Stop into the own journal. A link that gets no session is closed with 1001.
/// Where the stop is asked for, the acceptor fails, a journal can't be begun or memory runs out, it takes no more links and stops
/// the hub first, which ends the sessions, and then waits for them and joins their passes. Whether the stop is asked for it looks
/// before each time that it asks for a link, so each 20 ms at least. Once the hub is stopped, the wait of each link that came ends, so that no
/// session learns of the Stop only as its wait is over. Without a prefix and a policy sessions make no lines. Jobs that the spawner
/// had out before are awaited at first.
pub fn serve_on<
    R: Wait,
    C: Clock + Drop,
    L: Link + Drop,
    A: Acceptor<L>,
    N: Sink + Drop,
    J: Journals<N>,
    P: Spawner<SessionJob<L, C, N>>,
    Q: StopAsker,
>(
    served: ServedHub<'_, R>,
    pass: &mut Pass,
    own: &mut N,
    parts: &mut ServingParts<A, C, P, J>,
    asker: &mut Q,
) -> ServeEnd
    requires can { P.can_start parts.old.spawner }
    requires pass { IsCaller (arc_value served.hub.now) pass.old }
    ensures again { P.can_start parts.new.spawner }

    // What became of the links, which jobs were taken and ended, and what the hub was told at last.
    ensures serving { Serving (Worked L.talk L.faults L.notices C.readings N.held N.faults) J.begins L.talk
        (all_terms served.entry.terms (option_map (λ p. p.now) served.entry.prefix) (policy_of served.entry.policy.now))
        (record {
          hub = arc_value served.entry.hub.now;
          held = N.held own.old;
          beside = record {
            pass = pass.old;
            links = A.left parts.old.acceptor;
            came = A.came parts.old.acceptor;
            waits = A.waits parts.old.acceptor;
            quiets = A.quiets parts.old.acceptor;
            begun = J.calls parts.old.journals;
            jobs = P.jobs parts.old.spawner;
            given_back = P.ends parts.old.spawner;
            out = P.out parts.old.spawner;
            unstarted = P.faults parts.old.spawner;
          };
        })
        (record {
          hub = arc_value served.entry.hub.now;
          held = N.held own.new;
          beside = record {
            pass = pass.new;
            links = A.left parts.new.acceptor;
            came = A.came parts.new.acceptor;
            waits = A.waits parts.new.acceptor;
            quiets = A.quiets parts.new.acceptor;
            begun = J.calls parts.new.journals;
            jobs = P.jobs parts.new.spawner;
            given_back = P.ends parts.new.spawner;
            out = P.out parts.new.spawner;
            unstarted = P.faults parts.new.spawner;
          };
        }) result }

    // The end that says so comes only where the stop was asked for: the acceptor wasn't asked for a link again then, and the own pass
    // had entered nothing more yet, so the Stop comes behind.
    ensures asked { AskedSo (own_list pass.old) (A.waits parts.old.acceptor) (A.waits parts.new.acceptor) (asking_by Q.looks Q.asked Q.endings asker.old)
        (asking_by Q.looks Q.asked Q.endings asker.new) result }

    // What the asker was shown was so by a first part of the history that the pass has then seen.
    ensures shown { Shown (seen pass.new) (Q.statuses asker.old) (Q.statuses asker.new) }

    // The pass is still one of the hub.
    ensures caller { IsCaller (arc_value served.entry.hub.now) pass.new }

    // The acceptor stays bound to the port that it was bound to.
    ensures bound { Stays (A.bound parts.old.acceptor) (A.bound parts.new.acceptor) }

    // Once the hub was stopped, all links that came were woken.
    ensures woken { WakesAll pass.new (A.stops parts.new.acceptor) }

    // A fault of the acceptor is told only where its count rose.
    ensures failed { result ≡ ServeEnd.AcceptFault → HasRisen (A.faults parts.old.acceptor) (A.faults parts.new.acceptor) }
    ensures later { A.faults parts.old.acceptor ≤ A.faults parts.new.acceptor }

    // A fault of a journal is told only where the journals' count rose, or that of the own one.
    ensures unrecorded { result ≡ ServeEnd.JournalFault → HasRisen (J.faults parts.old.journals) (J.faults parts.new.journals)
        ⊎ HasRisen (N.faults own.old) (N.faults own.new) }
    ensures journals_later { J.faults parts.old.journals ≤ J.faults parts.new.journals }
    ensures own_later { N.faults own.old ≤ N.faults own.new }

    // No file of a journal was limited, and whether lines were lost wasn't asked.
    ensures unlost { J.lost parts.new.journals ≡ J.lost parts.old.journals }
    ensures unlimited { J.limits parts.new.journals ≡ J.limits parts.old.journals }
{
    await_all(served.rt, &mut parts.spawner);
    match accept_all(served, pass, parts, asker) {
        Accepted::All(unstarted) => {
            take_ended::<R, C, L, N, J, P>(served.rt, served.hub, pass, &mut parts.spawner, true);
            show(served.rt, served.hub, pass, asker, true);
            let stopped = finish(served.rt, served.alloc, served.hub, pass, own);
            parts.acceptor.wake_all(place_of(&stopped.answer));
            done(unstarted, stopped)
        }
        Accepted::Asked(unstarted) => {
            let asked = stop_first::<R, C, L, A, N, J, P>(served, pass, own, parts);
            asked_end(unstarted, asked)
        }
        Accepted::Halted(halt) => {
            let told = stop_first::<R, C, L, A, N, J, P>(served, pass, own, parts);
            end_of(halt, told.lost)
        }
    }
}
