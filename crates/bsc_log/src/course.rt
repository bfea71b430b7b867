//! What is known of a link so far.
ghost use Rattle.std.specs.Prelude.{◌≡◌, None, is_some};
ghost use Rattle.bsc_log.specs.Causes.{closed_at, peer_closed_at};
ghost use Rattle.bsc_log.specs.Courses.{asks_to_leave, ended, heard, heard_at, hushed, hushed_at, introduced, may_join, newest, once, put, put_at, takeover, woken};
ghost use Rattle.bsc_log.specs.Following.{told_of};
ghost use Rattle.bsc_log.specs.declared.log_event.Cause.{Cause};
ghost use Rattle.bsc_log.specs.declared.log_event.LogEvent.{LogEvent};
ghost use Rattle.bsc_log.specs.declared.stage.Stage.{Stage};

use crate::closing::{closed_at, peer_closed_at};
use crate::log_event::{Cause, LogEvent};
use crate::log_record::LogRecord;
use crate::stage::Stage;
use bsc_accept::Reason;
use bsc_octets::{Identity, function};
use std::time::Duration;

/// What is known of a link so far, by the calls on it.
#[derive(Clone, Copy, Debug)]
pub(crate) struct Course {
    /// Its number among those that arrived.
    pub(crate) link: u64,
    /// How far it is.
    pub(crate) stage: Stage,
    /// Its connection, once it has joined.
    pub(crate) conn: Option<u64>,
    /// Who asked to join last, if anybody did.
    pub(crate) who: Option<Identity>,
    /// How many messages came, up to the greatest `u64`.
    pub(crate) received: u64,
    /// How many messages were put, up to the greatest `u64`.
    pub(crate) sent: u64,
}

/// Whether these octets are a Disconnect-Request of the hub's own: what it passes on has an Originating address, which its flags
/// say.
fn asks_to_leave(m: &[u8]) -> bool
    ensures { result ≡ asks_to_leave m.now }
{
    match m {
        [first, flags, ..] => *first == function::DISCONNECT_REQUEST && *flags == 0,
        _ => false,
    }
}

/// How far a link is that was so far, behind a message: it asks where it hasn't joined and this is a Connect-Request.
fn heard_at(stage: Stage, asks: bool) -> Stage
    ensures { result ≡ heard_at stage asks }
{
    match stage {
        Stage::Silent | Stage::Waiting | Stage::Asked => {
            if asks { Stage::Asked } else { Stage::Waiting }
        }
        Stage::Introduced => Stage::Joined,
        Stage::Joined | Stage::Leaving | Stage::Over => stage,
    }
}

/// How far a link is that was so far, behind a call by which nothing came.
fn hushed_at(stage: Stage) -> Stage
    ensures { result ≡ hushed_at stage }
{
    match stage {
        Stage::Silent | Stage::Waiting | Stage::Asked => Stage::Waiting,
        Stage::Introduced => Stage::Joined,
        Stage::Joined | Stage::Leaving | Stage::Over => stage,
    }
}

/// How far it is behind this message, which was put.
fn put_at(stage: Stage, m: &[u8]) -> Stage
    ensures { result ≡ put_at stage m.now }
{
    match stage {
        Stage::Joined => {
            if asks_to_leave(m) {
                Stage::Leaving
            } else {
                Stage::Joined
            }
        }
        Stage::Silent
        | Stage::Waiting
        | Stage::Asked
        | Stage::Introduced
        | Stage::Leaving
        | Stage::Over => hushed_at(stage),
    }
}

/// This device, and else that of before.
fn newest(asker: Option<Identity>, before: Option<Identity>) -> Option<Identity>
    ensures { result ≡ newest asker before }
{
    match asker {
        Some(who) => Some(who),
        None => before,
    }
}

impl Course {
    /// The link of this number, on which no call was made.
    pub(crate) fn new(link: u64) -> Course
        ensures link { result.link ≡ link }
        ensures silent { result.stage ≡ Stage.Silent }
        ensures conn { result.conn ≡ None }
        ensures who { result.who ≡ None }
        ensures received { result.received ≡ 0 }
        ensures sent { result.sent ≡ 0 }
    {
        Course {
            link,
            stage: Stage::Silent,
            conn: None,
            who: None,
            received: 0,
            sent: 0,
        }
    }

    /// What it tells where this becomes of it at this time.
    pub(crate) fn tells(&self, since: Duration, event: LogEvent) -> LogRecord
        ensures { result ≡ told_of self.now since event }
    {
        LogRecord {
            since,
            event,
            link: Some(self.link),
            conn: self.conn,
            who: self.who,
            received: self.received,
            sent: self.sent,
        }
    }

    /// Whether it hasn't joined yet, and may.
    pub(crate) fn may_join(&self) -> bool
        ensures { result ≡ may_join self.now.stage }
    {
        match self.stage {
            Stage::Silent | Stage::Waiting | Stage::Asked => true,
            Stage::Introduced | Stage::Joined | Stage::Leaving | Stage::Over => false,
        }
    }

    /// Its connection, where the hub asked its peer to leave.
    pub(crate) fn leaving(&self) -> Option<u64> {
        match self.stage {
            Stage::Leaving => self.conn,
            Stage::Silent
            | Stage::Waiting
            | Stage::Asked
            | Stage::Introduced
            | Stage::Joined
            | Stage::Over => None,
        }
    }

    /// A message came, and it is the Connect-Request of this one, if of anyone.
    pub(crate) fn message(&mut self, asker: Option<Identity>)
        ensures { self.new ≡ heard asker self.old }
    {
        self.received = self.received.saturating_add(1);
        self.stage = heard_at(self.stage, asker.is_some());
        self.who = newest(asker, self.who);
    }

    /// Nothing came that is a message.
    pub(crate) fn nothing(&mut self)
        ensures { self.new ≡ hushed self.old }
    {
        self.stage = hushed_at(self.stage);
    }

    /// A message was put.
    pub(crate) fn put(&mut self, m: &[u8])
        ensures { self.new ≡ put m.now self.old }
    {
        self.sent = self.sent.saturating_add(1);
        self.stage = put_at(self.stage, m);
    }

    /// It is this connection's from now on.
    pub(crate) fn set_connection(&mut self, conn: u64)
        ensures { self.new ≡ introduced conn self.old }
    {
        self.conn = Some(conn);
        self.stage = Stage::Introduced;
    }

    /// Something is new for this other connection. What that tells: right behind its own join, that it took that one's place.
    pub(crate) fn wake(&mut self, conn: u64) -> Option<LogEvent>
        ensures known { self.new ≡ woken self.old }
        ensures told { result ≡ takeover self.old.stage conn }
    {
        match self.stage {
            Stage::Introduced => {
                self.stage = Stage::Joined;
                Some(LogEvent::TookOver(conn))
            }
            Stage::Silent
            | Stage::Waiting
            | Stage::Asked
            | Stage::Joined
            | Stage::Leaving
            | Stage::Over => None,
        }
    }

    /// It has ended so, unless it had ended before.
    fn end(&mut self, event: LogEvent) -> Option<LogEvent>
        ensures known { self.new ≡ ended self.old }
        ensures told { result ≡ once self.old.stage event }
    {
        let before = self.stage;
        self.stage = Stage::Over;
        match before {
            Stage::Over => None,
            _ => Some(event),
        }
    }

    /// A call on it failed.
    pub(crate) fn failed(&mut self) -> Option<LogEvent>
        ensures known { self.new ≡ ended self.old }
        ensures told { result ≡ once self.old.stage (LogEvent.Ended Cause.LinkFault) }
    {
        self.end(LogEvent::Ended(Cause::LinkFault))
    }

    /// The peer closed it; its connection was taken over, if that is known.
    pub(crate) fn peer_closed(&mut self, is_taken: bool) -> Option<LogEvent>
        ensures known { self.new ≡ ended self.old }
        ensures told { result ≡ once self.old.stage (peer_closed_at self.old.stage is_taken) }
    {
        self.end(peer_closed_at(self.stage, is_taken))
    }

    /// The hub closed it with this code and this reason.
    pub(crate) fn closed(
        &mut self,
        code: u16,
        reason: Option<Reason>,
        is_taken: bool,
    ) -> Option<LogEvent>
        ensures known { self.new ≡ ended self.old }
        ensures told { result ≡ once self.old.stage (closed_at self.old.stage code reason is_taken) }
    {
        self.end(closed_at(self.stage, code, reason, is_taken))
    }
}
