//! What was told and isn't written yet.
ghost use Rattle.std.specs.Prelude.{◌≡◌, Option, Some, false};
ghost use Rattle.bsc_log.specs.Limits.{behind, count_of, left_over, limited, settled, takes};

use crate::batch::ROOM;
use crate::course::Course;
use crate::limit::Limit;
use crate::log_event::{Limited, LogEvent, Turning};
use crate::log_record::LogRecord;
use bsc_octets::NoMemory;
use std::alloc::Global;
use std::time::Duration;

/// The kinds of lines that have a limit.
const KINDS: [Limited; 9] = [
    Limited::Naks,
    Limited::Denials,
    Limited::Turned(Turning::NoProtocol),
    Limited::Turned(Turning::Late),
    Limited::Turned(Turning::LongHead),
    Limited::Turned(Turning::NoDescriptor),
    Limited::Turned(Turning::PushedOut),
    Limited::Turned(Turning::NoMemory),
    Limited::Turned(Turning::Failed),
];

/// The lines of a kind.
#[derive(Clone, Copy)]
struct KindLines {
    kind: Limited,
    limit: Limit,
    /// The last that was left out, once one was.
    last: LogRecord,
}

/// What was told and isn't written yet. Of some kinds it takes as many lines as may be told in a second.
#[derive(Drop)]
pub(crate) struct Waiting {
    /// What waits, in the order in which it was told.
    pub(crate) told: Vec<LogRecord>,
    lines: [KindLines; 9],
}

/// What is told of the lines of a kind that were left out, of which this was the last: so many.
fn count_of(kind: Limited, last: LogRecord, n: u64) -> LogRecord
    ensures { result ≡ count_of kind last n }
{
    let mut count = last;
    count.event = LogEvent::LeftOut(kind, n);
    count
}

/// Puts this at the end of others, or doesn't.
fn put_where<T: Copy + Drop>(others: &mut Vec<T>, one: T, is_put: bool) {
    if is_put {
        let _ = others.push(one);
    }
}

/// The kind of lines that have a limit, where this is one.
fn limited(event: LogEvent) -> Option<Limited>
    ensures { result ≡ limited event }
{
    match event {
        LogEvent::Nak(_) => Some(Limited::Naks),
        LogEvent::Denied => Some(Limited::Denials),
        LogEvent::Turned(why) => Some(Limited::Turned(why)),
        LogEvent::Joined
        | LogEvent::TookOver(_)
        | LogEvent::Refused(_)
        | LogEvent::Ended(_)
        | LogEvent::NoSession
        | LogEvent::LeftOut(_, _) => None,
    }
}

impl KindLines {
    /// There was no line of this kind.
    fn new(kind: Limited) -> KindLines
        ensures { result.kind ≡ kind }
    {
        KindLines {
            kind,
            limit: Limit::new(),
            last: Course::new(0).tells(Duration::ZERO, LogEvent::NoSession),
        }
    }

    /// Has it told how many lines were left out, if any were.
    fn tell_count(&self, told: &mut Vec<LogRecord>, n: u64) {
        put_where(told, count_of(self.kind, self.last, n), n > 0);
    }

    /// Has it told how many lines were left out, where the second of that is over in this one.
    fn settle(&mut self, told: &mut Vec<LogRecord>, second: u64)
        ensures limit { self.new.limit ≡ settled second self.old.limit }
        ensures kind { self.new.kind ≡ self.old.kind }
    {
        let n = self.limit.take_left_over(second);
        self.tell_count(told, n);
    }

    /// Whether this line of the kind may be told in this second. It is the last that was left out, where not.
    fn takes(&mut self, one: &LogRecord, second: u64) -> bool
        ensures told { result ≡ takes second self.old.limit }
        ensures limit { self.new.limit ≡ behind second self.old.limit }
        ensures last { result ≡ false → self.new.last ≡ one.now }
        ensures kind { self.new.kind ≡ self.old.kind }
    {
        let is_told = self.limit.takes(second);
        if !is_told {
            self.last = *one;
        }
        is_told
    }
}

impl Waiting {
    /// Nothing waits.
    pub(crate) fn new(alloc: Global) -> Result<Waiting, NoMemory> {
        let [naks, denials, a, b, c, d, e, f, g] = KINDS;
        Ok(Waiting {
            told: Vec::with_capacity(alloc, ROOM)?,
            lines: [
                KindLines::new(naks),
                KindLines::new(denials),
                KindLines::new(a),
                KindLines::new(b),
                KindLines::new(c),
                KindLines::new(d),
                KindLines::new(e),
                KindLines::new(f),
                KindLines::new(g),
            ],
        })
    }

    /// Has it told how many lines were left out, where the second of that is over in this one.
    pub(crate) fn settle(&mut self, second: u64) {
        let told = &mut self.told;
        for lines in self.lines.iter_mut() {
            lines.settle(told, second);
        }
    }

    /// Whether this may be told in this second.
    fn takes(&mut self, one: &LogRecord, second: u64) -> bool {
        let Some(kind) = limited(one.event) else {
            return true;
        };
        for lines in self.lines.iter_mut() {
            if lines.kind == kind {
                return lines.takes(one, second);
            }
        }
        true
    }

    /// Has this wait, where it may be told in this second.
    pub(crate) fn add(&mut self, one: LogRecord, second: u64) {
        self.settle(second);
        let is_told = self.takes(&one, second);
        put_where(&mut self.told, one, is_told);
    }

    /// What waits at the end, and how many lines were left out then.
    pub(crate) fn into_told(self) -> Vec<LogRecord> {
        let Waiting { told, lines } = self;
        let mut told = told;
        for lines in lines.iter() {
            lines.tell_count(&mut told, lines.limit.left_out());
        }
        told
    }
}
