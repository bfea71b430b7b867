//! The time of a line.
ghost use Rattle.std.specs.Prelude.{◌≡◌, ◌≤◌, ◌/◌, pos};
ghost use Rattle.std.specs.Duration.{as_nanos};
ghost use Rattle.jiff_core.specs.Date.{epoch_day};
ghost use Rattle.jiff_fmt.specs.Text.{date_text};
ghost use Rattle.bsc_log.specs.Stamps.{IsStampOf};

use arrayvec::ArrayString;
use jiff_core::civil::{Date, Time};
use jiff_fmt::temporal::DateTimePrinter;
use std::time::Duration;

/// The text of a time of day.
pub type Stamp = ArrayString<33>;

/// How many places of a second are told.
const PLACES: u8 = 3;

/// So many seconds are a day.
const DAY: u64 = 86_400;

/// So many days lie between the calendar's first one, -9999-01-01, and 1970-01-01.
const DAYS_BEFORE: u64 = 4_371_587;

/// The calendar's last day, 9999-12-31, is so many days behind 1970-01-01.
const LAST_DAY: u64 = 2_932_896;

/// A day, and the text of its date. Lines that are written together are mostly of one.
#[derive(Clone, Copy)]
pub(crate) struct Day {
    /// How many days it is behind 1970-01-01.
    number: u64,
    date: Date,
    text: ArrayString<13>,
    ghost reads: { number ≤ 2_932_896 → epoch_day date ≡ pos number },
    ghost shows: { text.bytes ≡ date_text date },
}

impl Day {
    /// The day so many days behind 1970-01-01; the calendar's last one, where that is past it.
    pub(crate) fn new(number: u64) -> Day
        ensures { result.number ≡ number }
    {
        let known = if number > LAST_DAY { LAST_DAY } else { number };
        let date = Date::from_days_since_min((known + DAYS_BEFORE) as u32);
        Day {
            number,
            date,
            text: DateTimePrinter::new().date_text(date),
        }
    }

    /// A time of this day as text.
    fn text_at(&self, since: Duration) -> Stamp
        requires { self.now.number ≡ as_nanos since / 1_000_000_000 / 86_400 }
        ensures { IsStampOf (as_nanos since) result.bytes }
    {
        let time = Time::from_second((since.as_secs() % DAY) as u32, since.subsec_nanos());
        let time = DateTimePrinter::new()
            .precision(Some(PLACES))
            .time_text(time);
        let mut stamp = Stamp::new();
        stamp.push_str(self.text.as_str());
        stamp.push_str("T");
        stamp.push_str(time.as_str());
        stamp.push_str("Z");
        stamp
    }

    /// The date and the time of day in UTC so long after 1970-01-01T00:00:00Z, to the millisecond, as RFC 3339 writes them. It
    /// becomes the day of that time.
    pub(crate) fn stamp_of(&mut self, since: Duration) -> Stamp
        ensures { IsStampOf (as_nanos since) result.bytes }
    {
        let number = since.as_secs() / DAY;
        if number != self.number {
            *self = Day::new(number);
        }
        self.text_at(since)
    }
}

/// The date and the time of day in UTC so long after 1970-01-01T00:00:00Z, to the millisecond, as RFC 3339 writes them; past the
/// calendar's last day, 9999-12-31, that day's.
pub fn stamp_of(since: Duration) -> Stamp
    ensures { IsStampOf (as_nanos since) result.bytes }
{
    Day::new(0).stamp_of(since)
}
