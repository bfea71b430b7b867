//! What an entry adds to the counts.
#![tactic(auto)]

ghost use Rattle.std.specs.Prelude.{◌≡◌, ◌^◌};
ghost use Rattle.bsc_history.specs.Counting.{appended_in, counts_of, missed_in, one_if, plus};
ghost use Rattle.bsc_legality.specs.Bounds.{AreAtMost, HasRoute};

use bsc_history::{Call, Counts, Entry, Reply};
use bsc_octets::is_broadcast;

/// The counts of no entries.
pub(crate) const NOTHING: Counts = Counts {
    joined: 0,
    replaced: 0,
    refused: 0,
    unicasts: 0,
    broadcasts: 0,
    appended: 0,
    dropped: 0,
    full: 0,
    missed: 0,
};

/// 1 where a test passes, to be counted.
fn one_if(passes: bool) -> u64
    ensures { result ≡ one_if passes }
{
    if passes { 1 } else { 0 }
}

/// How many outboxes a reply names as appended to.
fn appended_in(reply: &Reply) -> usize
    ensures { result ≡ appended_in reply.now }
{
    match reply {
        Reply::Appended { .. } => 1,
        Reply::SentAll { to, .. } => to.len(),
        _ => 0,
    }
}

/// How many connections a reply names as missed.
fn missed_in(reply: &Reply) -> usize
    ensures { result ≡ missed_in reply.now }
{
    match reply {
        Reply::SentAll { missed, .. } => missed.len(),
        _ => 0,
    }
}

/// What an entry adds to the counts.
pub(crate) fn counts_of(entry: &Entry) -> Counts
    requires { HasRoute entry.now.call }
    ensures { result ≡ counts_of entry.now }
{
    let (unicast, broadcast) = match &entry.call {
        Call::Forward { frame, .. } => {
            let to_all = is_broadcast(frame.as_slice());
            (!to_all, to_all)
        }
        _ => (false, false),
    };
    let appended = appended_in(&entry.reply);
    let (joined, replaced, refused, full) = match &entry.reply {
        Reply::Joined { replaced, .. } => (true, replaced.is_some(), false, false),
        Reply::Refused(_) => (false, false, true, false),
        Reply::Closed { .. } => (false, false, false, true),
        _ => (false, false, false, false),
    };
    Counts {
        joined: one_if(joined),
        replaced: one_if(replaced),
        refused: one_if(refused),
        unicasts: one_if(unicast),
        broadcasts: one_if(broadcast),
        appended: appended as u64,
        dropped: one_if((unicast || broadcast) && appended == 0),
        full: one_if(full),
        missed: missed_in(&entry.reply) as u64,
    }
}

/// Counts together.
pub(crate) fn plus(counts: Counts, more: Counts) -> Counts
    requires few { AreAtMost counts (2 ^ 62) }
    requires small { AreAtMost more (2 ^ 31) }
    ensures { result ≡ plus counts more }
{
    Counts {
        joined: counts.joined + more.joined,
        replaced: counts.replaced + more.replaced,
        refused: counts.refused + more.refused,
        unicasts: counts.unicasts + more.unicasts,
        broadcasts: counts.broadcasts + more.broadcasts,
        appended: counts.appended + more.appended,
        dropped: counts.dropped + more.dropped,
        full: counts.full + more.full,
        missed: counts.missed + more.missed,
    }
}
