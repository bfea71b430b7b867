//! What the job of a session does.
use crate::job::SessionJob;
use crate::last::Last;
use crate::serving::{serve_connection, serve_guarded, serve_recorded};
use crate::session_end::SessionEnd;
use crate::session_setup::SessionSetup;
use bsc_edge::{Clock, Job, Link};
use bsc_hub::Hub;
use bsc_outside::Sink;
use bsc_policy::Policy;
use std::sync::Wait;

impl<L: Link + Drop, C: Clock + Drop, N: Sink + Drop> Job for SessionJob<L, C, N> {
    ghost use Rattle.bsc_session.specs.Jobs.{Worked};

    type Done = SessionEnd<L, C, N>;

    ghost works = { Worked L.talk L.faults L.notices C.readings N.held N.faults };

    fn work<R: Wait>(self, rt: &R) -> SessionEnd<L, C, N> {
        let SessionJob {
            alloc,
            hub,
            pass,
            link,
            clock,
            limits,
            turns,
            journal,
            is_recorded,
            policy,
        } = self;
        let mut pass = pass;
        let mut link = link;
        let mut clock = clock;
        let mut journal = journal;
        let here: &Hub = &hub;
        let side = SessionSetup {
            rt,
            alloc,
            hub: here,
            limits: &limits,
            turns,
        };
        if let Some(policy) = &policy {
            let guard: &Policy = policy;
            let ended = serve_guarded(side, &mut pass, &mut link, &mut clock, &mut journal, guard);
            return SessionEnd {
                pass,
                ended,
                last: Last::of(link, clock, journal),
            };
        }
        if is_recorded {
            let ended = serve_recorded(side, &mut pass, &mut link, &mut clock, &mut journal);
            return SessionEnd {
                pass,
                ended,
                last: Last::of(link, clock, journal),
            };
        }
        let ended = serve_connection(side, &mut pass, &mut link, &mut clock);
        SessionEnd {
            pass,
            ended,
            last: Last::of(link, clock, journal),
        }
    }
}
