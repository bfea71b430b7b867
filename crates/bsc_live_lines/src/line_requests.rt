//! The requests of an inbox's lines.
ghost use Rattle.std.specs.Prelude.{◌≡◌, ◌++◌, [], true, IfOk, IfSome, OnErr};
ghost use Rattle.bsc_node_run.specs.Requests.{is_asked};
ghost use Rattle.bsc_live_lines.specs.Heard.{AreAsked, asked_in};
ghost use Rattle.bsc_live_lines.specs.Waiting.{CountsUnread, event_in, taken_in};

use crate::bounds::MOST_SKIPPED;
use crate::counting::{count_more, count_one};
use crate::heard::Heard;
use crate::reading::Reading;
use crate::refusals::Refusals;
use bsc_input::{LineInbox, Taken};
use bsc_node::NodeEvent;
use bsc_octets::NoMemory;
use std::alloc::Global;

/// The requests of an inbox's lines, one after the other. Where there was no memory to read a line, it isn't lost: the next call reads
/// it.
#[derive(Drop)]
pub struct LineRequests<I: LineInbox + Drop, T: Refusals + Drop> {
    inbox: I,
    reading: Reading<T>,
    /// What was taken and not read, for want of memory.
    unread: Option<Taken>,
    ghost takes: { I.taken inbox ≡ reading.read.items ++ taken_in unread },
}

impl<I: LineInbox + Drop, T: Refusals + Drop> LineRequests<I, T> {
    /// The requests of this inbox. Who is told of refused lines is told here.
    pub fn new(inbox: I, teller: T) -> LineRequests<I, T>
        requires untaken { I.taken inbox ≡ [] }
        requires untold { T.told teller ≡ [] }
        ensures read { result.reading.read.items ≡ [] }
        ensures asked { result.reading.asked.items ≡ [] }
        ensures inbox { result.inbox ≡ inbox }
        ensures teller { result.reading.teller ≡ teller }
    {
        LineRequests {
            inbox,
            reading: Reading::new(teller),
            unread: None,
        }
    }

    /// Who is told of refused lines.
    pub fn teller(&self) -> &T
        ensures { result.now ≡ self.now.reading.teller }
    {
        self.reading.teller()
    }

    /// The inbox.
    pub fn inbox(&self) -> &I
        ensures { result.now ≡ self.now.inbox }
    {
        &self.inbox
    }

    /// Counts the lines that weren't read: the one that waits for memory, and those that are there now.
    pub fn count_unread(self) -> (I, u64)
        ensures { CountsUnread (I.taken self.inbox) (I.taken result.0) self.unread result.1 }
    {
        let LineRequests {
            inbox,
            reading: _,
            unread,
        } = self;
        let mut inbox = inbox;
        let count = count_more(&mut inbox, count_one(&unread));
        (inbox, count)
    }

    /// Takes once, or what wasn't read yet, and hears that.
    fn step(&mut self, alloc: Global) -> Result<Heard, NoMemory>
        ensures asked { IfOk result (λ heard. self.new.reading.asked.items ≡ self.old.reading.asked.items ++ asked_in heard) }
        ensures none { OnErr result (self.new.reading.asked.items ≡ self.old.reading.asked.items) }
        ensures well { IfOk result AreAsked }
    {
        let taken = match self.unread.take() {
            Some(taken) => taken,
            None => self.inbox.take(),
        };
        match self.reading.hear(alloc, &taken) {
            Ok(heard) => Ok(heard),
            Err(NoMemory) => {
                self.unread = Some(taken);
                Err(NoMemory)
            }
        }
    }

    /// The next request, where a line that asks for one is there now. So many lines that ask for nothing are looked at in one call.
    pub fn next(&mut self, alloc: Global) -> Result<Option<NodeEvent>, NoMemory>
        ensures asked { IfOk result (λ answer. self.new.reading.asked.items ≡ self.old.reading.asked.items ++ event_in answer) }
        ensures none { OnErr result (self.new.reading.asked.items ≡ self.old.reading.asked.items) }
        ensures well { IfOk result (λ answer. IfSome answer (λ event. is_asked event ≡ true)) }
    {
        for _ in 0..MOST_SKIPPED {
            match self.step(alloc)? {
                Heard::Asks(event) => return Ok(Some(event)),
                Heard::Silent => (),
                Heard::Quiet => return Ok(None),
            }
        }
        Ok(None)
    }
}
