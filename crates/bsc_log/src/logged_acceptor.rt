//! An acceptor of links of which lines are told.
ghost use Rattle.std.specs.Prelude.{◌≡◌, ◌≤◌, true, [], ◌∷◌, None, Err, IsSome, List, Option};
ghost use Rattle.std.specs.List.{list_all};
ghost use Rattle.std.proofs.Common.{refl};
ghost use Rattle.bsc_edge.specs.declared.fault.LinkFault.{LinkFault};
ghost use Rattle.bsc_edge.specs.Told.{Grows, IsNoLink, Leaves, Stays, arrived_in};
ghost use Rattle.bsc_outside.specs.Faults.{HasRisen};
ghost use Rattle.bsc_log.specs.Logged.{Covers, left_by};
ghost use Rattle.bsc_log.specs.Turnings.{TellsTurned, turned_told};

use crate::link_log::LinkLog;
use crate::log_event::Turning;
use crate::logged_link::LoggedLink;
use crate::logging::Logging;
use bsc_edge::{Acceptor, Arrived, Failed, LinkFault};
use bsc_octets::Vmac;
use std::alloc::Global;
use std::sync::Wait;
use std::time::Clock;

/// An acceptor over another: each link that arrives there is told of, where there is a logging. It has what its links told written
/// where no link has come; at one link of sixteen it does so where much waits, or some has waited long.
#[derive(Drop)]
pub struct LoggedAcceptor<A, R> {
    acceptor: A,
    logging: Option<Logging<R>>,
}

impl<A, R> LoggedAcceptor<A, R> {
    pub fn new(acceptor: A, logging: Option<Logging<R>>) -> LoggedAcceptor<A, R>
        ensures acceptor { result.acceptor ≡ acceptor }
        ensures logging { result.logging ≡ logging }
    {
        LoggedAcceptor { acceptor, logging }
    }

    /// The acceptor under it.
    pub fn acceptor(&self) -> &A
        ensures { result.now ≡ self.now.acceptor }
    {
        &self.acceptor
    }
}

impl<A, R: Clock + Wait> LoggedAcceptor<A, R> {
    /// So many streams were turned away, each for this. Each is told of, where there is a logging.
    pub fn tell_turned(&mut self, counts: &[(Turning, u64)])
        ensures told { TellsTurned counts.now self.old.logging self.new.logging }
        ensures acceptor { self.new.acceptor ≡ self.old.acceptor }
    {
        if let Some(logging) = &mut self.logging {
            logging.turn_all(counts);
        }
    }
}

/// The log of the next link, where there is a logging.
fn next_log<R: Copy>(logging: &mut Option<Logging<R>>) -> Option<LinkLog<R>>
    ensures off { logging.old ≡ None → (result ≡ None) × (logging.new ≡ None) }
    ensures on { IsSome logging.old → IsSome logging.new }
    ensures turned { turned_told logging.new ≡ turned_told logging.old }
{
    match logging {
        Some(logging) => logging.next_log(),
        None => None,
    }
}

/// What an acceptor answered, with a log for its link.
fn covered<L, R: Copy>(
    logging: &mut Option<Logging<R>>,
    answer: Result<Arrived<L>, LinkFault>,
) -> Result<Arrived<LoggedLink<L, R>>, LinkFault>
    ensures covers { Covers answer result }
    ensures leaves { (l l' : Option (List L)) → Leaves l l' answer → Leaves (left_by logging.old l) (left_by logging.new l') result }
    ensures on { IsSome logging.old → IsSome logging.new }
    ensures turned { turned_told logging.new ≡ turned_told logging.old }
{
    match answer {
        Ok(Arrived::Link(link)) => { Ok(Arrived::Link(LoggedLink::new(link, next_log(logging)))) }
        Ok(Arrived::Quiet) => Ok(Arrived::Quiet),
        Err(fault) => Err(fault),
    }
}

/// Whether a link has come.
fn brings_link<L>(answer: &Result<Arrived<L>, LinkFault>) -> bool {
    match answer {
        Ok(Arrived::Link(_)) => true,
        Ok(Arrived::Quiet) | Err(_) => false,
    }
}

/// Has what links told written, where it is due.
fn look<R: Clock + Wait>(logging: &Option<Logging<R>>, has_come: bool) {
    if let Some(logging) = logging {
        logging.look(has_come);
    }
}

impl<L, R: Clock + Wait + Copy, A: Acceptor<L>> Acceptor<LoggedLink<L, R>>
    for LoggedAcceptor<A, R> {
    ghost faults = { λ a. A.faults a.acceptor };

    ghost quiets = { λ a. A.quiets a.acceptor };

    ghost bound = { λ a. A.bound a.acceptor };

    ghost left = { λ a. left_by a.logging (A.left a.acceptor) };

    ghost came_fresh = { λ _. refl };

    ghost waits = { λ a. A.waits a.acceptor };

    ghost stops = { λ a. A.stops a.acceptor };

    fn bind(&mut self, port: u16, owner: Vmac) -> Result<(), Failed> {
        self.acceptor.bind(port, owner)
    }

    fn next(&mut self, alloc: Global, wait_ms: u32) -> Result<Arrived<LoggedLink<L, R>>, LinkFault>
        ensures on { IsSome self.old.logging → IsSome self.new.logging }
        ensures turned { turned_told self.new.logging ≡ turned_told self.old.logging }
        ensures bound { Stays (A.bound self.old.acceptor) (A.bound self.new.acceptor) }
        ensures left { Leaves (left_by self.old.logging (A.left self.old.acceptor)) (left_by self.new.logging (A.left self.new.acceptor)) result }
        ensures came { Grows None None (arrived_in result) }
        ensures fresh { list_all (λ _. true) (arrived_in result) ≡ true }
        ensures waits { Grows (A.waits self.old.acceptor) (A.waits self.new.acceptor) (wait_ms ∷ []) }
        ensures unwoken { A.stops self.new.acceptor ≡ A.stops self.old.acceptor }
        ensures later { A.faults self.old.acceptor ≤ A.faults self.new.acceptor }
        ensures failed { result ≡ Err LinkFault.Failed → HasRisen (A.faults self.old.acceptor) (A.faults self.new.acceptor) }
        ensures quiets { A.quiets self.old.acceptor ≤ A.quiets self.new.acceptor }
        ensures quiet { IsNoLink result → HasRisen (A.quiets self.old.acceptor) (A.quiets self.new.acceptor) }
    {
        let answer = self.acceptor.next(alloc, wait_ms);
        look(&self.logging, brings_link(&answer));
        covered(&mut self.logging, answer)
    }

    fn wake_all(&mut self, at: u64) {
        self.acceptor.wake_all(at);
    }
}
