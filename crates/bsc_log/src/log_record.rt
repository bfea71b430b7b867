//! What a link tells, before it is written.
ghost use Rattle.std.specs.Prelude.{◌≡◌};
ghost use Rattle.std.specs.Duration.{as_nanos};
ghost use Rattle.bsc_log.specs.Stamps.{IsStampOf};
ghost use Rattle.bsc_log.specs.Turnings.{turned_at};

use crate::line::Line;
use crate::log_event::{LogEvent, Turning};
use crate::stamp::Day;
use bsc_octets::Identity;
use std::time::Duration;

/// What a link tells: what stands in a line, and its time as the clock gave it.
#[derive(Clone, Copy)]
pub(crate) struct LogRecord {
    /// When it was, since 1970.
    pub(crate) since: Duration,
    /// What it was.
    pub(crate) event: LogEvent,
    /// The number of the link among those that arrived, if it is one.
    pub(crate) link: Option<u64>,
    /// Its connection, if it has joined.
    pub(crate) conn: Option<u64>,
    /// Who asked to join on it last, if anybody did.
    pub(crate) who: Option<Identity>,
    /// How many messages came on it.
    pub(crate) received: u64,
    /// How many messages were put on it.
    pub(crate) sent: u64,
}

impl LogRecord {
    /// A stream was turned away at this time, for this.
    pub(crate) fn turned(since: Duration, why: Turning) -> LogRecord
        ensures { result ≡ turned_at since why }
    {
        LogRecord {
            since,
            event: LogEvent::Turned(why),
            link: None,
            conn: None,
            who: None,
            received: 0,
            sent: 0,
        }
    }

    /// The line that says it, with the day that its stamp was made of last.
    pub(crate) fn line(&self, day: &mut Day) -> Line
        ensures stamp { IsStampOf (as_nanos self.now.since) result.stamp.bytes }
        ensures event { result.event ≡ self.now.event }
        ensures link { result.link ≡ self.now.link }
        ensures conn { result.conn ≡ self.now.conn }
        ensures who { result.who ≡ self.now.who }
        ensures received { result.received ≡ self.now.received }
        ensures sent { result.sent ≡ self.now.sent }
    {
        Line {
            stamp: day.stamp_of(self.since),
            event: self.event,
            link: self.link,
            conn: self.conn,
            who: self.who,
            received: self.received,
            sent: self.sent,
        }
    }
}
