//! What the logs of links share.
ghost use Rattle.std.specs.Prelude.{◌≡◌, ◌++◌, [], ◌∷◌, flat_map, IfOk, IfSome};
ghost use Rattle.std.specs.declared.time.Duration.{Duration as DurationType};
ghost use Rattle.bsc_log.specs.Following.{Begins};
ghost use Rattle.bsc_log.specs.Turnings.{turned_at, turned_for};

use crate::course::Course;
use crate::link_log::LinkLog;
use crate::log_event::Turning;
use crate::log_record::LogRecord;
use crate::shared::Shared;
use bsc_octets::NoMemory;
use bsc_past::Past;
use std::alloc::Global;
use std::io::Stderr;
use std::sync::{Arc, Wait};
use std::time::{Clock, Duration};

/// Where links come one behind the other, the acceptor looks at one of so many: a look takes a lock and reads the clock.
const EACH: u64 = 16;

/// What the logs of the links of a hub share. What they told is written at the acceptor's looks, and what waits at the end once the
/// last of them is gone.
#[derive(Drop)]
pub struct Logging<R> {
    rt: R,
    shared: Arc<Shared>,
    arrived: u64,
    /// What was told so far of streams that were turned away, for contracts alone.
    turned: Past<LogRecord>,
}

impl<R: Copy> Logging<R> {
    /// A log of no links yet, which is written there.
    pub fn new(rt: R, stderr: Stderr, alloc: Global) -> Result<Logging<R>, NoMemory>
        ensures turned { IfOk result (λ l. l.turned.items ≡ []) }
    {
        Ok(Logging {
            rt,
            shared: Arc::new(alloc, Shared::new(alloc, stderr)?)?,
            arrived: 0,
            turned: Past::new(),
        })
    }

    /// The log of the next link that arrives. There is none where the share of it can't be counted.
    pub(crate) fn next_log(&mut self) -> Option<LinkLog<R>>
        ensures begins { IfSome result Begins }
        ensures turned { self.new.turned ≡ self.old.turned }
    {
        self.arrived = self.arrived.saturating_add(1);
        match Arc::try_clone(&self.shared) {
            Ok(shared) => Some(LinkLog {
                rt: self.rt,
                shared,
                course: Course::new(self.arrived),
                told: Past::new(),
            }),
            Err(_) => None,
        }
    }
}

impl<R: Clock + Wait> Logging<R> {
    /// A link has come to the acceptor, or none has within its wait. It looks where none has, and at one link of sixteen.
    pub(crate) fn look(&self, has_come: bool) {
        if has_come && self.arrived % EACH != 0 {
            return;
        }
        let since = self.rt.since_1970().unwrap_or(Duration::ZERO);
        self.shared.look(&self.rt, since, has_come);
    }

    /// A stream was turned away at this time, for this.
    fn turn(&mut self, since: Duration, why: Turning)
        ensures { self.new.turned.items ≡ self.old.turned.items ++ turned_at since why ∷ [] }
    {
        let told = LogRecord::turned(since, why);
        self.turned.add(&told);
        self.shared.tell(&self.rt, told);
    }

    /// So many streams were turned away at this time, for this.
    fn turn_each(&mut self, since: Duration, count: &(Turning, u64))
        ensures { self.new.turned.items ≡ self.old.turned.items ++ turned_for since count.now }
    {
        let (why, n) = *count;
        for at in 0..n {
            self.turn(since, why);
        }
    }

    /// So many streams were turned away, each for this.
    pub(crate) fn turn_all(&mut self, counts: &[(Turning, u64)])
        ensures { (since : DurationType) × (self.new.turned.items ≡ self.old.turned.items ++ flat_map (turned_for since) counts.now) }
    {
        let since = self.rt.since_1970().unwrap_or(Duration::ZERO);
        for one in counts.iter() {
            self.turn_each(since, one);
        }
    }
}
