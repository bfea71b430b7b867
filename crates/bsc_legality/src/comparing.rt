//! Whether two replies are the same.
#![tactic(auto)]

ghost use Rattle.std.specs.Prelude.{◌≡◌};
ghost use Rattle.bsc_legality.specs.Sameness.{same_counts, same_end, same_numbers, same_option, same_refusal, same_reply};

use bsc_history::{Counts, End, Refusal, Reply};

pub(crate) fn same_numbers(a: &[u64], b: &[u64]) -> bool
    ensures { result ≡ same_numbers a.now b.now }
{
    a == b
}

fn same_option(a: Option<u64>, b: Option<u64>) -> bool
    ensures { result ≡ same_option a b }
{
    match (a, b) {
        (None, None) => true,
        (Some(c), Some(d)) => c == d,
        _ => false,
    }
}

pub(crate) fn same_end(a: End, b: End) -> bool
    ensures { result ≡ same_end a b }
{
    match (a, b) {
        (End::Left, End::Left) => true,
        (End::Replaced, End::Replaced) => true,
        (End::Full, End::Full) => true,
        (End::Stopped, End::Stopped) => true,
        _ => false,
    }
}

fn same_refusal(a: Refusal, b: Refusal) -> bool
    ensures { result ≡ same_refusal a b }
{
    match (a, b) {
        (Refusal::Stopped, Refusal::Stopped) => true,
        (Refusal::Duplicate { holder }, Refusal::Duplicate { holder: other }) => same_option(
            holder, other,
        ),
        (Refusal::TableFull { rows }, Refusal::TableFull { rows: other }) => rows == other,
        _ => false,
    }
}

fn same_counts(a: Counts, b: Counts) -> bool
    ensures { result ≡ same_counts a b }
{
    a.joined == b.joined
        && (a.replaced == b.replaced
            && (a.refused == b.refused
                && (a.unicasts == b.unicasts
                    && (a.broadcasts == b.broadcasts
                        && (a.appended == b.appended
                            && (a.dropped == b.dropped
                                && (a.full == b.full && a.missed == b.missed)))))))
}

/// Whether two replies are the same.
pub(crate) fn same_reply(a: &Reply, b: &Reply) -> bool
    ensures { result ≡ same_reply a.now b.now }
{
    match (a, b) {
        (
            Reply::Joined { conn, replaced },
            Reply::Joined {
                conn: other,
                replaced: gone,
            },
        ) => *conn == *other && same_option(*replaced, *gone),
        (Reply::Refused(r), Reply::Refused(s)) => same_refusal(*r, *s),
        (Reply::Appended { conn }, Reply::Appended { conn: other }) => *conn == *other,
        (Reply::Closed { conn }, Reply::Closed { conn: other }) => *conn == *other,
        (Reply::Skipped { conn }, Reply::Skipped { conn: other }) => *conn == *other,
        (Reply::NoHolder, Reply::NoHolder) => true,
        (
            Reply::SentAll {
                to,
                missed,
                skipped,
            },
            Reply::SentAll {
                to: also_to,
                missed: also_missed,
                skipped: also_skipped,
            },
        ) => same_numbers(to.as_slice(), also_to.as_slice())
            && (same_numbers(missed.as_slice(), also_missed.as_slice())
                && same_numbers(skipped.as_slice(), also_skipped.as_slice())),
        (Reply::NotCurrent { ending }, Reply::NotCurrent { ending: other }) => same_end(
            *ending, *other,
        ),
        (Reply::Stopped, Reply::Stopped) => true,
        (
            Reply::Gone { ending, taken },
            Reply::Gone {
                ending: other,
                taken: count,
            },
        ) => same_end(*ending, *other) && *taken == *count,
        (Reply::Counted(k), Reply::Counted(m)) => same_counts(*k, *m),
        _ => false,
    }
}
