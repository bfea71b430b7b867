//! A session as a job of a thread.
ghost use Rattle.std.specs.Prelude.{◌≡◌};
ghost use Rattle.std.specs.Arc.{arc_value};
ghost use Rattle.bsc_hub.specs.Passing.{IsCaller};
ghost use Rattle.bsc_hub.proofs.Unique.{IsCaller-prop};

use crate::job_parts::JobParts;
use crate::job_terms::JobTerms;
use crate::limits::SessionLimits;
use bsc_hub::{Hub, Pass};
use bsc_policy::Policy;
use std::alloc::Global;
use std::sync::Arc;

/// A session for a thread: all that the serving call of one connection needs.
#[derive(Drop)]
pub struct SessionJob<L, C, N> {
    pub alloc: Global,
    /// The hub that is served.
    pub hub: Arc<Hub>,
    /// The caller's pass of this hub.
    pub pass: Pass,
    /// The link to the peer.
    pub link: L,
    pub clock: C,
    pub limits: SessionLimits,
    /// How many receives the session may make.
    pub turns: u64,
    /// Where the lines of the session go.
    pub journal: N,
    /// Whether entries have a line. Where they don't, a session without a policy makes none at all.
    pub is_recorded: bool,
    /// By what the session is guarded, if by anything. Its denials have a line in the journal in any case.
    pub policy: Option<Arc<Policy>>,
    // The pass is of the hub.
    ghost of_hub: { IsCaller (arc_value hub) pass } by { IsCaller-prop (arc_value hub) pass },
}

impl<L, C, N> SessionJob<L, C, N> {
    /// A job that serves this link at this hub, on these terms.
    pub fn new(
        alloc: Global,
        hub: Arc<Hub>,
        pass: Pass,
        link: L,
        clock: C,
        journal: N,
        terms: JobTerms,
    ) -> SessionJob<L, C, N>
        requires { IsCaller (arc_value hub) pass }
        ensures hub { result.hub ≡ hub }
        ensures pass { result.pass ≡ pass }
        ensures link { result.link ≡ link }
        ensures clock { result.clock ≡ clock }
        ensures limits { result.limits ≡ terms.limits }
        ensures turns { result.turns ≡ terms.turns }
        ensures journal { result.journal ≡ journal }
        ensures is_recorded { result.is_recorded ≡ terms.is_recorded }
        ensures policy { result.policy ≡ terms.policy }
    {
        let JobTerms {
            limits,
            turns,
            is_recorded,
            policy,
        } = terms;
        SessionJob {
            alloc,
            hub,
            pass,
            link,
            clock,
            limits,
            turns,
            journal,
            is_recorded,
            policy,
        }
    }
}

impl<L, C: Drop, N: Drop> SessionJob<L, C, N> {
    /// The hub, the pass and the link of a job that isn't to be worked off: the pass is of the hub. Its journal is let go.
    pub fn into_parts(self) -> JobParts<L>
        ensures of_hub { IsCaller (arc_value result.hub) result.pass }
        ensures hub { result.hub ≡ self.hub }
        ensures pass { result.pass ≡ self.pass }
        ensures link { result.link ≡ self.link }
    {
        JobParts {
            hub: self.hub,
            pass: self.pass,
            link: self.link,
        }
    }
}
