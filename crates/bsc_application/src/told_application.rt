//! An application that tells what it answers.
ghost use Rattle.std.specs.Prelude.{◌≡◌, [], Some, true, IfOk, IfSome};
ghost use Rattle.bsc_edge.specs.Told.{Grows};
ghost use Rattle.bsc_node_run.specs.Requests.{is_asked};
ghost use Rattle.bsc_application.specs.Asking.{answer_in};

use crate::application::Application;
use bsc_node::NodeEvent;
use bsc_octets::NoMemory;
use bsc_past::{Happened, Past};
use std::alloc::Global;

/// What an application answered, where it lies.
struct Answering<'a>(&'a Result<Option<NodeEvent>, NoMemory>);

impl Drop for Answering<'_> {
    fn drop(self) {
        let Answering(_) = self;
    }
}

impl Happened<Option<NodeEvent>> for Answering<'_> {
    ghost happened = { λ a. answer_in a.0.now };
}

/// An application over another, whose answers it tells to contracts. It takes no memory of its own, and does nothing more than the
/// application under it.
#[derive(Drop)]
pub struct ToldApplication<P> {
    application: P,
    answers: Past<Option<NodeEvent>>,
}

impl<P> ToldApplication<P> {
    /// An application over this one. It has answered nothing yet.
    pub fn new(application: P) -> ToldApplication<P>
        ensures application { result.application ≡ application }
        ensures answers { result.answers.items ≡ [] }
    {
        ToldApplication {
            application,
            answers: Past::new(),
        }
    }
}

impl<P: Application> Application for ToldApplication<P> {
    ghost answers = { λ a. Some a.answers.items };

    fn next(&mut self, alloc: Global) -> Result<Option<NodeEvent>, NoMemory>
        ensures asks { IfOk result (λ answer. IfSome answer (λ event. is_asked event ≡ true)) }
        ensures told { Grows (Some self.old.answers.items) (Some self.new.answers.items) (answer_in result) }

        // The application under it was asked once, and this is what it answered.
        ensures under { Grows (P.answers self.old.application) (P.answers self.new.application) (answer_in result) }
    {
        let answer = self.application.next(alloc);
        self.answers.note(&Answering(&answer));
        answer
    }
}
