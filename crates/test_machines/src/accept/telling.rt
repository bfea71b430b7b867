//! A machine with what may be told to it next.
ghost use Rattle.std.specs.Prelude.{◌≡◌, true, IfSome};
ghost use Rattle.std.proofs.Props.{props};
ghost use Rattle.bsc_accept.specs.Standing.{is_open, AwaitsAnswer, IsConnected, IsOpen, LeavesAccepting};
ghost use Rattle.test_machines.specs.Waiting.{asks, goes_on, is_asked};

use crate::messages::{Came, Does, put, verdict};
use crate::peers::node;
use bsc_accept::{Accepting, Step, Times};
use bsc_checks::Phase;
use bsc_history::{End, Refusal};
use bsc_octets::Identity;
use std::alloc::Global;

/// What a machine is told.
#[derive(Clone, Copy)]
pub enum Told {
    Came(Came),
    Joined,
    NotJoined(Refusal),
    Ended(End),
    Finish(u16),
    Tick,
}

fn done(step: &Step) -> Does {
    match step {
        Step::Ask(who) => if *who == node() {
            Does::Asks
        } else {
            Does::Nothing
        },
        Step::Put(octets) => {
            let (function, id) = put(octets);
            Does::Puts(function, id)
        }
        Step::PutClose(octets, closing) => {
            let (function, id) = put(octets);
            Does::PutsAndCloses(function, id, *closing)
        }
        Step::Up => Does::HandsUp,
        Step::Close(closing) => Does::Closes(*closing),
        Step::Nothing => Does::Nothing,
    }
}

/// A machine, with what may be told to it next: messages, ticks and a finish where it runs, and the word on who asked
/// where it has asked.
#[derive(Clone, Copy)]
pub struct Machine {
    accepting: Accepting,
    running: bool,
    asked: bool,
    ghost if_running: { running ≡ true → is_open accepting.stage ≡ true } by { Prim.hlevel props },
    ghost if_asked: { asked ≡ true → is_asked accepting.stage ≡ true } by { Prim.hlevel props },
}

/// Whether a step asks about the peer.
fn asks(step: &Step) -> bool
    ensures { result ≡ asks step.now }
{
    match step {
        Step::Ask(_) => true,
        _ => false,
    }
}

/// Whether messages, ticks and a finish may come after a step.
fn goes_on(step: &Step) -> bool
    ensures { result ≡ goes_on step.now }
{
    match step {
        Step::Ask(_) | Step::PutClose(..) | Step::Close(_) => false,
        Step::Put(_) | Step::Up | Step::Nothing => true,
    }
}

/// A machine after its step.
#[tactic(auto, using(crate::proofs::Waits::left_asked, crate::proofs::Waits::left_open))]
fn left(accepting: Accepting, step: &Step) -> Machine
    requires { LeavesAccepting step.now accepting }
{
    Machine {
        accepting,
        running: goes_on(step),
        asked: asks(step),
    }
}

impl Machine {
    pub fn start(own: Identity, times: Times, now: u64) -> Machine {
        Machine {
            accepting: Accepting::start(own, times, now),
            running: true,
            asked: false,
        }
    }

    /// The machine, where messages, ticks and a finish may come.
    fn open(&self) -> Option<Accepting>
        ensures { IfSome result (λ m. IsOpen m) }
    {
        if self.running {
            Some(self.accepting)
        } else {
            None
        }
    }

    /// The machine, where it has asked.
    #[tactic(auto, using(crate::proofs::Waits::asked_awaits))]
    fn awaiting(&self) -> Option<Accepting>
        ensures { IfSome result (λ m. AwaitsAnswer m) }
    {
        if self.asked {
            Some(self.accepting)
        } else {
            None
        }
    }

    /// The machine, where its connection may end.
    fn connected(&self) -> Option<Accepting>
        ensures { IfSome result (λ m. IsConnected m) }
    {
        if self.accepting.phase() == Phase::Connected {
            Some(self.accepting)
        } else {
            None
        }
    }

    /// Its step where it is told something, and what it is then. None where that may not come.
    fn step(&self, alloc: Global, now: u64, told: Told) -> Option<(Accepting, Step)>
        ensures { IfSome result (λ x. LeavesAccepting x.1 x.0) }
    {
        match told {
            Told::Joined => {
                let mut machine = self.awaiting()?;
                let step = machine.joined();
                Some((machine, step))
            }
            Told::NotJoined(refusal) => {
                let mut machine = self.awaiting()?;
                let step = machine.refused(&refusal);
                Some((machine, step))
            }
            Told::Ended(End::Left) => None,
            Told::Ended(ending) => {
                let mut machine = self.connected()?;
                let step = machine.ended(now, ending);
                Some((machine, step))
            }
            Told::Came(came) => {
                let mut machine = self.open()?;
                let step = machine.message(now, &verdict(alloc, came));
                Some((machine, step))
            }
            Told::Finish(id) => {
                let mut machine = self.open()?;
                let step = machine.finish(now, id);
                Some((machine, step))
            }
            Told::Tick => {
                let mut machine = self.open()?;
                let step = machine.tick(now);
                Some((machine, step))
            }
        }
    }

    /// Tells it something. None where that may not come.
    pub fn tell(&mut self, alloc: Global, now: u64, told: Told) -> Option<Step> {
        let (accepting, step) = self.step(alloc, now, told)?;
        *self = left(accepting, &step);
        Some(step)
    }

    /// What it does where it is told something. None where that may not come.
    pub fn does(&mut self, alloc: Global, now: u64, told: Told) -> Option<Does> {
        match self.tell(alloc, now, told) {
            Some(step) => Some(done(&step)),
            None => None,
        }
    }
}
