//! An application in memory.
ghost use Rattle.std.specs.Prelude.{◌≡◌, [], Some, true, length, IfOk, IfSome, IsOk};
ghost use Rattle.bsc_edge.specs.Told.{Grows};
ghost use Rattle.bsc_node_run.specs.Requests.{is_asked};
ghost use Rattle.bsc_application.specs.Asking.{answer_in};
ghost use Rattle.bsc_application.specs.Planning.{Answers, is_next};

use crate::application::Application;
use crate::planned::Planned;
use bsc_node::NodeEvent;
use bsc_octets::NoMemory;
use bsc_past::Past;
use std::alloc::Global;
use std::collections::VecDeque;

/// An application that has its requests in memory, each for a turn: a test bench. It gives the first that is left, once its turn has
/// come. A turn is over for it when it has answered that there is none now. It tells its answers to contracts.
#[derive(Drop)]
pub struct MemApplication {
    plan: VecDeque<Planned>,
    /// How many turns are over.
    made: u64,
    answers: Past<Option<NodeEvent>>,
}

impl MemApplication {
    /// An application of these requests, in order.
    pub fn new(plan: Vec<Planned>) -> MemApplication
        ensures plan { result.plan.items ≡ plan.items }
        ensures made { result.made ≡ 0 }
        ensures answers { result.answers.items ≡ [] }
    {
        MemApplication {
            plan: VecDeque::from(plan),
            made: 0,
            answers: Past::new(),
        }
    }

    /// How many requests are left.
    pub fn left(&self) -> usize
        ensures { result ≡ length self.now.plan.items }
    {
        self.plan.len()
    }

    /// Whether the first that is left is for this turn or one before.
    fn has_next(&self) -> bool
        ensures { result ≡ is_next self.now.made self.now.plan.items }
    {
        match self.plan.front() {
            Some(planned) => planned.turn <= self.made,
            None => false,
        }
    }

    /// What is answered now.
    #[tactic(auto, using(crate::proofs::Plans::gives_first))]
    fn take(&mut self) -> Option<NodeEvent>
        ensures asks { IfSome result (λ event. is_asked event ≡ true) }
        ensures gives { Answers (is_next self.old.made self.old.plan.items) self.old.made self.old.plan.items
            result self.new.made self.new.plan.items }
        ensures answers { self.new.answers.items ≡ self.old.answers.items }
    {
        if self.has_next() {
            match self.plan.pop_front() {
                Some(planned) => Some(planned.event),
                None => None,
            }
        } else {
            self.made = self.made.saturating_add(1);
            None
        }
    }
}

impl Application for MemApplication {
    ghost answers = { λ a. Some a.answers.items };

    fn next(&mut self, _alloc: Global) -> Result<Option<NodeEvent>, NoMemory>
        ensures asks { IfOk result (λ answer. IfSome answer (λ event. is_asked event ≡ true)) }
        ensures told { Grows (Some self.old.answers.items) (Some self.new.answers.items) (answer_in result) }

        // It gives what is planned, in order, and memory never runs out.
        ensures gives { IfOk result (λ answer. Answers (is_next self.old.made self.old.plan.items) self.old.made self.old.plan.items
            answer self.new.made self.new.plan.items) }
        ensures always { IsOk result }
    {
        let answer = self.take();
        self.answers.add(&answer);
        Ok(answer)
    }
}
