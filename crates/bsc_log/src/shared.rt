//! What the links of a hub share, where lines are told of them.
use crate::batch::Batch;
use crate::log_record::LogRecord;
use crate::takeovers::Takeovers;
use crate::waiting::Waiting;
use bsc_octets::NoMemory;
use std::alloc::Global;
use std::io::Stderr;
use std::mem;
use std::sync::atomic::{AtomicU64, Ordering};
use std::sync::{Mutex, Wait};
use std::time::Duration;

/// Where so many records wait, the acceptor's next look has them written, whatever it brought.
const MANY: usize = 128;

/// Where so many wait, the link that told the last one writes them. There is room for more, which others tell meanwhile.
const FULL: usize = 256;

/// A record that has waited so many milliseconds is written at the acceptor's next look.
const LATE_MS: u64 = 500;

/// Where the acceptor hasn't looked for so many milliseconds, links write what they tell.
const GONE_MS: u64 = 1_000;

/// So many milliseconds are a second.
const SECOND_MS: u64 = 1_000;

/// What was told and isn't written yet, and which connections were taken over.
pub(crate) struct Shared {
    pub(crate) takeovers: Takeovers,
    /// When the acceptor looked last, in milliseconds since 1970. It stands beside what else is met where something is told.
    looked: AtomicU64,
    /// What waits.
    waiting: Mutex<Waiting>,
    /// Where it is written. Who has this lock takes what waits: so batches are written in the order of the records.
    batch: Mutex<Batch>,
}

/// So many whole milliseconds, up to the greatest `u64`.
fn millis_of(since: Duration) -> u64 {
    u64::try_from(since.as_millis()).unwrap_or(u64::MAX)
}

/// Whether these, which wait, are to be written at a look of the acceptor's at this time: where there are many, where the first
/// has waited long, and where no link has come, so that there is time.
fn is_due(waiting: &[LogRecord], now: u64, has_come: bool) -> bool {
    match waiting {
        [] => false,
        [first, ..] => {
            !has_come || waiting.len() >= MANY || millis_of(first.since).abs_diff(now) >= LATE_MS
        }
    }
}

impl Shared {
    /// Nothing was told yet.
    pub(crate) fn new(alloc: Global, stderr: Stderr) -> Result<Shared, NoMemory> {
        Ok(Shared {
            takeovers: Takeovers::new(alloc)?,
            looked: AtomicU64::new(0),
            waiting: Mutex::new(Waiting::new(alloc)?),
            batch: Mutex::new(Batch::new(alloc, stderr)?),
        })
    }

    /// Has this wait, and says whether it is full then.
    fn push<R: Wait>(&self, rt: &R, told: LogRecord) -> bool {
        let mut waiting = self.waiting.lock(rt);
        waiting.add(told, told.since.as_secs());
        waiting.told.len() >= FULL
    }

    /// Takes what waits, in exchange for these.
    fn exchange<R: Wait>(&self, rt: &R, told: &mut Vec<LogRecord>) {
        let mut waiting = self.waiting.lock(rt);
        mem::swap(&mut waiting.told, told);
    }

    /// Writes what waits.
    fn write<R: Wait>(&self, rt: &R) {
        let mut guard = self.batch.lock(rt);
        let batch = &mut *guard;
        self.exchange(rt, &mut batch.told);
        batch.write();
    }

    /// Whether what waits is to be written at a look of the acceptor's at this time.
    fn owes<R: Wait>(&self, rt: &R, now: u64, has_come: bool) -> bool {
        let mut waiting = self.waiting.lock(rt);
        waiting.settle(now / SECOND_MS);
        is_due(waiting.told.as_slice(), now, has_come)
    }

    /// A link tells this. It is written by the acceptor's next looks; where that is gone, and where too much waits, it is written
    /// at once.
    pub(crate) fn tell<R: Wait>(&self, rt: &R, told: LogRecord) {
        let now = millis_of(told.since);
        let is_full = self.push(rt, told);
        let looked = self.looked.load(Ordering::SeqCst);
        if is_full || now.abs_diff(looked) >= GONE_MS {
            self.write(rt);
        }
    }

    /// The acceptor looks at this time, and a link has come to it or not.
    pub(crate) fn look<R: Wait>(&self, rt: &R, since: Duration, has_come: bool) {
        let now = millis_of(since);
        self.looked.store(now, Ordering::SeqCst);
        if self.owes(rt, now, has_come) {
            self.write(rt);
        }
    }
}

impl Drop for Shared {
    fn drop(self) {
        let Shared {
            takeovers: _,
            looked: _,
            waiting,
            batch,
        } = self;
        let mut batch = batch.into_inner();
        batch.told = waiting.into_inner().into_told();
        batch.write();
    }
}
