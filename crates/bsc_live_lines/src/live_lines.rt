//! The application of an inbox's lines.
ghost use Rattle.std.specs.Prelude.{◌≡◌, ◌++◌, [], Some, true, IfOk, IfSome};
ghost use Rattle.bsc_edge.specs.Told.{Grows};
ghost use Rattle.bsc_node_run.specs.Requests.{is_asked};
ghost use Rattle.bsc_application.specs.Asking.{answer_in};
ghost use Rattle.bsc_live_lines.specs.Refusals.{refusals};
ghost use Rattle.bsc_live_lines.specs.Requests.{requests};
ghost use Rattle.bsc_live_lines.specs.Waiting.{CountsUnread, asked_by_answers, taken_in};

use crate::line_requests::LineRequests;
use crate::refusals::Refusals;
use bsc_application::Application;
use bsc_input::LineInbox;
use bsc_node::NodeEvent;
use bsc_octets::NoMemory;
use bsc_past::{Happened, Past};
use std::alloc::Global;

/// What was answered, where it lies.
struct Answering<'a>(&'a Result<Option<NodeEvent>, NoMemory>);

impl Drop for Answering<'_> {
    fn drop(self) {
        let Answering(_) = self;
    }
}

impl Happened<Option<NodeEvent>> for Answering<'_> {
    ghost happened = { λ a. answer_in a.0.now };
}

/// Asks a node by the lines of an inbox: each line that was taken is read once, in order. A good one is a request, one that isn't is
/// told and skipped, and the end of the input asks the node to end.
#[derive(Drop)]
pub struct LiveLines<I: LineInbox + Drop, T: Refusals + Drop> {
    lines: LineRequests<I, T>,
    answers: Past<Option<NodeEvent>>,
    ghost all: { asked_by_answers answers.items ≡ lines.reading.asked.items },
}

impl<I: LineInbox + Drop, T: Refusals + Drop> LiveLines<I, T> {
    /// The application of this inbox, of which nothing was taken yet. Who is told of refused lines is told here.
    pub fn new(inbox: I, teller: T) -> LiveLines<I, T>
        requires untaken { I.taken inbox ≡ [] }
        requires untold { T.told teller ≡ [] }
        ensures answers { result.answers.items ≡ [] }
        ensures inbox { result.lines.inbox ≡ inbox }
        ensures teller { result.lines.reading.teller ≡ teller }
    {
        LiveLines {
            lines: LineRequests::new(inbox, teller),
            answers: Past::new(),
        }
    }

    /// Who is told of refused lines.
    pub fn teller(&self) -> &T
        ensures { result.now ≡ self.now.lines.reading.teller }
    {
        self.lines.teller()
    }

    /// The inbox.
    pub fn inbox(&self) -> &I
        ensures { result.now ≡ self.now.lines.inbox }
    {
        self.lines.inbox()
    }

    /// Counts the lines that weren't read: the one that waits for memory, and those that are there now. The inbox is asked at most
    /// 65,536 times.
    pub fn count_unread(self) -> (I, u64)
        ensures { CountsUnread (I.taken self.lines.inbox) (I.taken result.0) self.lines.unread result.1 }
    {
        self.lines.count_unread()
    }
}

impl<I: LineInbox + Drop, T: Refusals + Drop> Application for LiveLines<I, T> {
    ghost answers = { λ a. Some a.answers.items };

    fn next(&mut self, alloc: Global) -> Result<Option<NodeEvent>, NoMemory>
        ensures asks { IfOk result (λ answer. IfSome answer (λ event. is_asked event ≡ true)) }
        ensures told { Grows (Some self.old.answers.items) (Some self.new.answers.items) (answer_in result) }

        // All that was taken of the inbox was read, but for what waits for memory.
        ensures taken { I.taken self.new.lines.inbox ≡ self.new.lines.reading.read.items ++ taken_in self.new.lines.unread }

        // All that it has ever asked is what the good lines ask of what was read, in order, up to the first that asks the node to end;
        // the end of the input asks that.
        ensures requests { asked_by_answers self.new.answers.items ≡ requests self.new.lines.reading.read.items }

        // All lines that were told as refused are those that aren't good.
        ensures refused { T.told self.new.lines.reading.teller ≡ refusals self.new.lines.reading.read.items }
    {
        let answer = self.lines.next(alloc);
        self.answers.note(&Answering(&answer));
        answer
    }
}
