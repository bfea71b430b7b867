//! What is told of one link.
ghost use Rattle.std.specs.Prelude.{◌≡◌, ℕ, None, Bool, Ok};
ghost use Rattle.bsc_edge.specs.Told.{fault_in};
ghost use Rattle.bsc_edge.specs.declared.incoming.Incoming.{Incoming as IncomingType};
ghost use Rattle.bsc_edge.specs.declared.notice.Notice.{Notice};
ghost use Rattle.bsc_edge.specs.declared.said.Said.{Said};
ghost use Rattle.bsc_log.specs.Causes.{peer_closed_at};
ghost use Rattle.bsc_log.specs.Courses.{hushed};
ghost use Rattle.bsc_log.specs.Following.{Ends, GoesOn, Hears, Heeds, IsAsker};
ghost use Rattle.bsc_log.specs.Naks.{IsTold, nak_event};
ghost use Rattle.bsc_log.specs.declared.log_event.LogEvent.{LogEvent as EventType};
ghost use Rattle.bsc_log.specs.declared.log_event.Cause.{Cause as CauseType};

use crate::asking::asker_in;
use crate::course::Course;
use crate::log_event::LogEvent;
use crate::log_record::LogRecord;
use crate::nak::{Nak, nak_in};
use crate::reading::reason_of;
use crate::shared::Shared;
use bsc_edge::{Incoming, LinkFault};
use bsc_octets::Identity;
use bsc_past::Past;
use std::alloc::Global;
use std::sync::{Arc, Wait};
use std::time::{Clock, Duration};

/// What is told of one link, and what that takes.
#[derive(Drop)]
pub(crate) struct LinkLog<R> {
    pub(crate) rt: R,
    pub(crate) shared: Arc<Shared>,
    pub(crate) course: Course,
    /// What was told so far, for contracts alone.
    pub(crate) told: Past<LogRecord>,
}

/// Who asks to join by these octets on a link of which this is known.
fn asker_at(alloc: Global, course: &Course, m: &[u8]) -> Option<Identity>
    ensures { IsAsker course.now.stage m.now result }
{
    if course.may_join() {
        asker_in(alloc, m)
    } else {
        None
    }
}

/// The NAK of a Connect-Request that these octets are, which are put on a link of which this is known, where it hasn't joined.
fn nak_at(course: &Course, m: &[u8]) -> Option<Nak>
    ensures { IsTold course.now.stage m.now result }
{
    if course.may_join() { nak_in(m) } else { None }
}

/// What a NAK tells, if there is one.
fn event_of(nak: Option<Nak>) -> Option<LogEvent>
    ensures { result ≡ nak_event nak }
{
    match nak {
        Some(nak) => Some(LogEvent::Nak(nak)),
        None => None,
    }
}

impl<R> LinkLog<R> {
    /// Whether the hub asked its peer to leave, and its connection is known to have been taken over.
    fn is_taken(&self) -> bool {
        match self.course.leaving() {
            Some(conn) => self.shared.takeovers.has(conn),
            None => false,
        }
    }

    /// A message came.
    fn message(&mut self, alloc: Global, m: &[u8])
        ensures { Hears self.old self.new (Said.Gave 0 (Ok (IncomingType.Message m.now))) }
    {
        let asker = asker_at(alloc, &self.course, m);
        self.course.message(asker);
    }

    /// Nothing came that is a message.
    fn nothing(&mut self)
        ensures { GoesOn self.old self.new (hushed self.old.course) None }
    {
        self.course.nothing();
    }
}

impl<R: Clock + Wait> LinkLog<R> {
    /// Tells this, where there is something to tell.
    fn tell(&mut self, event: Option<LogEvent>)
        ensures { GoesOn self.old self.new self.old.course event }
    {
        if let Some(event) = event {
            let since = self.rt.since_1970().unwrap_or(Duration::ZERO);
            let told = self.course.tells(since, event);
            self.told.add(&told);
            self.shared.tell(&self.rt, told);
        }
    }

    /// A call on it failed.
    fn failed(&mut self)
        ensures { Ends self.old self.new (EventType.Ended CauseType.LinkFault) }
    {
        let event = self.course.failed();
        self.tell(event);
    }

    /// Its peer closed it.
    fn peer_closed(&mut self)
        ensures { (taken : Bool) × Ends self.old self.new (peer_closed_at self.old.course.stage taken) }
    {
        let is_taken = self.is_taken();
        let event = self.course.peer_closed(is_taken);
        self.tell(event);
    }

    /// This was given by a receive. It is one piece of code, apart from the receive's, of which each join meets a part alone.
    #[inline(never)]
    pub(crate) fn given(&mut self, alloc: Global, given: &Result<Incoming, LinkFault>)
        ensures { (wait : ℕ) → Hears self.old self.new (Said.Gave wait given.now) }
    {
        match given {
            Ok(Incoming::Message(m)) => self.message(alloc, m.as_slice()),
            Ok(Incoming::Closed) => self.peer_closed(),
            Err(LinkFault::Failed) => self.failed(),
            Ok(Incoming::Quiet) | Ok(Incoming::Text) | Err(LinkFault::NoMemory) => self.nothing(),
        }
    }

    /// These octets were put.
    fn was_put(&mut self, m: &[u8])
        ensures { Hears self.old self.new (Said.Put m.now None) }
    {
        let nak = nak_at(&self.course, m);
        self.course.put(m);
        self.tell(event_of(nak));
    }

    /// A put of these octets was answered so.
    pub(crate) fn put(&mut self, m: &[u8], answer: &Result<(), LinkFault>)
        ensures { Hears self.old self.new (Said.Put m.now (fault_in answer.now)) }
    {
        match answer {
            Ok(()) => self.was_put(m),
            Err(LinkFault::Failed) => self.failed(),
            Err(LinkFault::NoMemory) => self.nothing(),
        }
    }

    /// It was closed with this code and this reason, whatever was answered.
    pub(crate) fn closed(&mut self, code: u16, reason: &str)
        ensures { Hears self.old self.new (Said.Closed code reason.now) }
    {
        let is_taken = self.is_taken();
        let event = self.course.closed(code, reason_of(reason), is_taken);
        self.tell(event);
    }

    /// It is this connection's from now on.
    pub(crate) fn set_connection(&mut self, conn: u64)
        ensures { Heeds self.old self.new (Notice.Known conn) }
    {
        self.course.set_connection(conn);
        self.tell(Some(LogEvent::Joined));
    }

    /// Something is new for this other connection.
    pub(crate) fn wake(&mut self, conn: u64)
        ensures { Heeds self.old self.new (Notice.Woke conn) }
    {
        let event = self.course.wake(conn);
        if event.is_some() {
            self.shared.takeovers.note(conn);
        }
        self.tell(event);
    }
}
