//! What ends the wait of a stream.
use crate::moment::Moment;
use std::sync::atomic::{AtomicBool, AtomicU64, Ordering};

/// The stream isn't asleep, and no ring waits for it.
const AWAKE: u64 = 0;
/// The stream sleeps, or is about to.
const ASLEEP: u64 = 1;
/// A ring came that no read has answered.
const RUNG: u64 = 2;

/// What becomes of a ring that may be put off.
#[derive(Clone, Copy)]
pub(crate) enum Ringing {
    /// It came, and nobody sleeps.
    Came,
    /// It came, and the stream is to be woken.
    Wakes,
    /// Who made it owes it from now on.
    PutOff,
    /// Who made it owed one already.
    Owed,
}

/// Rings a stream awake. It is shared by the stream, the patience of its link, and all who wake it; one word says
/// whether the stream sleeps and whether a ring waits, so that no ring is lost between the two.
#[derive(Drop)]
pub struct Waker {
    word: AtomicU64,
    waker: mio::Waker,
    /// How many milliseconds the reads have, from the first one that has to know; 0 where `until` says when they are over.
    wait_ms: AtomicU64,
    /// When the reads are over, in microseconds of the monotonic clock; 0 where they don't wait.
    until: AtomicU64,
    /// No read came since the time of the reads was set.
    fresh: AtomicBool,
    /// The link that owes it a ring: one more than the number of its connection, or 0 where none does.
    debtor: AtomicU64,
}

impl Waker {
    pub(crate) fn new(waker: mio::Waker) -> Waker {
        Waker {
            word: AtomicU64::new(AWAKE),
            waker,
            wait_ms: AtomicU64::new(0),
            until: AtomicU64::new(0),
            fresh: AtomicBool::new(true),
            debtor: AtomicU64::new(0),
        }
    }

    /// Ends the wait that is under way, or else the next one. Where the stream is awake no call of the system is made.
    pub fn ring(&self) {
        if self.is_called() {
            self.wakes();
        }
    }

    /// Says that a ring came. True where the stream sleeps, which is to be woken then.
    pub(crate) fn is_called(&self) -> bool {
        self.word.swap(RUNG, Ordering::SeqCst) == ASLEEP
    }

    /// Wakes the stream.
    pub(crate) fn wakes(&self) {
        // A write that fails leaves the sleeper to its time.
        let _ = self.waker.wake();
    }

    /// The reads from now on, all of them together, are over at this moment.
    pub fn set_until(&self, until: Moment) {
        self.wait_ms.store(0, Ordering::SeqCst);
        self.until.store(until.micros, Ordering::SeqCst);
        self.fresh.store(true, Ordering::SeqCst);
    }

    /// The reads from now on, all of them together, are over so many milliseconds after the first one that has to know. With 0
    /// they don't wait.
    pub fn set_wait(&self, wait_ms: u32) {
        self.wait_ms.store(wait_ms as u64, Ordering::SeqCst);
        if wait_ms == 0 && self.until.load(Ordering::SeqCst) != 0 {
            self.until.store(0, Ordering::SeqCst);
        }
        self.fresh.store(true, Ordering::SeqCst);
    }

    /// Whether the reads wait at all.
    pub(crate) fn waits(&self) -> bool {
        self.wait_ms.load(Ordering::SeqCst) != 0 || self.until.load(Ordering::SeqCst) != 0
    }

    /// When the reads are over, if their time begins now.
    pub(crate) fn until(&self, now: Moment) -> Moment {
        let wait_ms = self.wait_ms.load(Ordering::SeqCst);
        if wait_ms == 0 {
            Moment {
                micros: self.until.load(Ordering::SeqCst),
            }
        } else {
            now.after(u32::try_from(wait_ms).unwrap_or(u32::MAX))
        }
    }

    /// Whether this is the first read since the time of the reads was set.
    pub(crate) fn is_first_read(&self) -> bool {
        self.fresh.swap(false, Ordering::SeqCst)
    }

    /// Says that the stream is about to sleep. False where a ring waited, which is answered by this.
    pub(crate) fn falls_asleep(&self) -> bool {
        let fell = self
            .word
            .compare_exchange(AWAKE, ASLEEP, Ordering::SeqCst, Ordering::SeqCst)
            .is_ok();
        if !fell {
            self.word.store(AWAKE, Ordering::SeqCst);
        }
        fell
    }

    /// Says that the stream is awake again. True where a ring came, which is answered by this.
    pub(crate) fn wakes_up_rung(&self) -> bool {
        self.word.swap(AWAKE, Ordering::SeqCst) == RUNG
    }

    /// What becomes of a ring that may be put off by the link of connection `by`: it is where the stream sleeps, and no other link
    /// owes it one. So a stream that sleeps lacks no more than one link keeps back.
    pub(crate) fn is_called_by(&self, by: u64) -> Ringing {
        if self.word.load(Ordering::SeqCst) == ASLEEP {
            let owes = by.saturating_add(1);
            let before = self
                .debtor
                .compare_exchange(0, owes, Ordering::SeqCst, Ordering::SeqCst);
            match before {
                Ok(_) => return Ringing::PutOff,
                Err(other) => if other == owes {
                    return Ringing::Owed;
                },
            }
        }
        if self.is_called() {
            Ringing::Wakes
        } else {
            Ringing::Came
        }
    }

    /// Makes the ring that was owed.
    pub(crate) fn ring_at_last(&self) {
        self.debtor.store(0, Ordering::SeqCst);
        self.ring();
    }
}
