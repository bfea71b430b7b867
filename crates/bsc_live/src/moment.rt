//! Moments of the monotonic clock.
ghost use Rattle.std.specs.Prelude.{◌≡◌, ◌+◌, ◌*◌, ◌-◌, min};

use std::io;
use std::time::{Clock, Duration};

/// Microseconds of the monotonic clock, which is good for 584,542 years.
#[derive(Clone, Copy, Debug, PartialEq, Eq)]
pub struct Moment {
    pub micros: u64,
}

impl Moment {
    /// This moment. Fails where the clock can't be read.
    pub fn now<R: Clock>(clock: &R) -> io::Result<Moment> {
        let since = clock.monotonic()?;
        Ok(Moment {
            micros: u64::try_from(since.as_micros()).unwrap_or(u64::MAX),
        })
    }

    /// The moment so many milliseconds later, or the last one that there is.
    pub fn after(self, wait_ms: u32) -> Moment
        ensures { result.micros ≡ min (self.micros + wait_ms * 1000) 18446744073709551615 }
    {
        Moment {
            micros: self.micros.saturating_add(wait_ms as u64 * 1000),
        }
    }

    /// The microseconds from `now` until this moment; 0 where it is over.
    pub fn left(self, now: Moment) -> u64
        ensures { result ≡ self.micros - now.micros }
    {
        self.micros.saturating_sub(now.micros)
    }
}

/// A wait of so many microseconds.
pub(crate) fn wait_of(micros: u64) -> Duration {
    Duration::from_micros(micros)
}
