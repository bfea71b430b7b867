//! What a line does.
ghost use Rattle.std.specs.Prelude.{◌≡◌, ℕ, List, IfOk};
ghost use Rattle.bsc_player.specs.Languages.{StepsTo};
ghost use Rattle.bsc_network_script.specs.Scripts.{State, nothing_yet, adds_hub, adds_node, sets, makes, line_after, simulation};
ghost use Rattle.bsc_simulate.specs.Holding.{Holds, HoldsSome};

use crate::looking::{may_add_hub, may_add_node, may_set, may_try};
use crate::simulation::Simulation;
use crate::texts::put_done;
use bsc_history::{Limits, MOST_CALLERS, MOST_CALLS};
use bsc_network::{StepRefusal, WorldStep};
use bsc_network_script::{Line, OUTBOX, ROWS, read_line};
use bsc_octets::{Identity, NoMemory};
use bsc_player::{Language, LineFault};
use bsc_world::World;
use std::alloc::Global;

/// What each hub is limited to: its rows, its outboxes, the most calls and the most callers.
const HUB_LIMITS: Limits = Limits {
    rows: ROWS,
    outbox: OUTBOX,
    calls: MOST_CALLS,
    callers: MOST_CALLERS,
};

impl Simulation {
    /// What stands before the first line.
    pub(crate) fn make(alloc: Global) -> Result<Simulation, NoMemory>
        ensures { IfOk result (λ it. Holds it nothing_yet) }
    {
        Ok(Simulation {
            world: World::make(alloc)?,
            clock: 0,
            steps: 0,
            hubs: 0,
            nodes: 0,
        })
    }

    /// Adds a hub.
    fn add_hub(&mut self, alloc: Global, who: Identity) -> Result<(), LineFault>
        requires some { HoldsSome self.old }
        ensures { (s : State) (b : List ℕ) → Holds self.old s → StepsTo (Holds self.new) result b b (adds_hub s who) }
    {
        if !may_add_hub(self.steps, self.hubs, &who) {
            return Err(LineFault::Refused);
        }
        self.world.add_hub(alloc, who, HUB_LIMITS)?;
        self.hubs += 1;
        Ok(())
    }

    /// Adds a node.
    fn add_node(&mut self, alloc: Global, own: Identity, direct: bool) -> Result<(), LineFault>
        requires some { HoldsSome self.old }
        ensures { (s : State) (b : List ℕ) → Holds self.old s → StepsTo (Holds self.new) result b b (adds_node s own direct) }
    {
        if !may_add_node(self.steps, self.hubs, self.nodes, &own) {
            return Err(LineFault::Refused);
        }
        self.world.add_node(alloc, own, direct)?;
        self.nodes += 1;
        Ok(())
    }

    /// Sets the clock.
    fn set(&mut self, ms: u64) -> Result<(), LineFault>
        requires some { HoldsSome self.old }
        ensures { (s : State) (b : List ℕ) → Holds self.old s → StepsTo (Holds self.new) result b b (sets s ms) }
    {
        if !may_set(self.hubs, self.clock, ms) {
            return Err(LineFault::Refused);
        }
        self.world.at(ms);
        self.clock = ms;
        Ok(())
    }

    /// Makes a step, and puts what it did at the end of a text.
    fn make_step(
        &mut self,
        alloc: Global,
        step: &WorldStep,
        text: &mut Vec<u8>,
    ) -> Result<(), LineFault>
        requires some { HoldsSome self.old }
        ensures { (s : State) → Holds self.old s →
            StepsTo (Holds self.new) result text.old.items text.new.items (makes s step.now) }
    {
        if !may_try(self.steps, step) {
            return Err(LineFault::Refused);
        }
        match self.world.step(alloc, step) {
            Ok(done) => {
                self.steps += 1;
                put_done(text, alloc, &done)?;
                Ok(())
            }
            Err(StepRefusal::NoMemory) => Err(LineFault::NoMemory),
            Err(_) => Err(LineFault::Refused),
        }
    }

    /// Carries out a line, and puts what is written for it at the end of a text.
    fn do_line(&mut self, alloc: Global, line: Line, text: &mut Vec<u8>) -> Result<(), LineFault>
        requires some { HoldsSome self.old }
        ensures { (s : State) → Holds self.old s →
            StepsTo (Holds self.new) result text.old.items text.new.items (line_after s line) }
    {
        match line {
            Line::Nothing => Ok(()),
            Line::Hub(who) => self.add_hub(alloc, who),
            Line::Node { own, direct } => self.add_node(alloc, own, direct),
            Line::At { ms } => self.set(ms),
            Line::Step(step) => self.make_step(alloc, &step, text),
        }
    }
}

impl Language for Simulation {
    ghost State = { State };

    ghost means = { simulation };

    ghost stands_for = { Holds };

    fn carry_out(
        &mut self,
        alloc: Global,
        line: &[u8],
        text: &mut Vec<u8>,
    ) -> Result<(), LineFault> {
        let line = read_line(alloc, line)?;
        self.do_line(alloc, line, text)
    }

    fn may_end(&self) -> bool {
        self.hubs >= 1
    }
}
