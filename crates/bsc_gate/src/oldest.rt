//! Which of some places in a table is the oldest.
ghost use Rattle.std.specs.Prelude.{◌≡◌, ◌≤◌, ◌<◌, Some};

use bsc_live::Moment;

/// The place whose time is over first, of those that were looked at.
#[derive(Clone, Copy, Drop)]
pub(crate) struct Oldest {
    pub(crate) place: Option<usize>,
    pub(crate) until: Moment,
}

/// The same, after one more was looked at.
pub(crate) fn older(so_far: Oldest, place: usize, until: Moment) -> Oldest
    ensures newer { until.micros ≤ so_far.until.micros → result ≡ record { place = Some place; until = until } }
    ensures kept { so_far.until.micros < until.micros → result ≡ so_far }
    // A moment is a count of 64 bits, so the first that is looked at is the oldest so far.
    ensures within { until.micros ≤ 18446744073709551615 }
{
    if until.micros <= so_far.until.micros {
        Oldest {
            place: Some(place),
            until,
        }
    } else {
        so_far
    }
}
