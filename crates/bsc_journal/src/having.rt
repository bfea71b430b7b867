//! Which entries have a line.
ghost use Rattle.std.specs.Prelude.{◌≡◌, ◌&&◌, true, false, IsTrue};
ghost use Rattle.std.specs.List.{list_all};
ghost use Rattle.bsc_journal.specs.Saying.{FitsCall, HasLine, HasOctets, IsIdentity, ShowsLooks, are_octets, are_short, call_is_short};
ghost use Rattle.bsc_journal.specs.Saying.{is_connect, is_short, look_is_short, reply_is_short};

use bsc_history::{Call, Counts, Entry, Look, Refusal, Reply};
use bsc_octets::Identity;

/// The least number of more than 19 digits.
const TOO_LONG: u64 = 10_000_000_000_000_000_000;

/// Whether a number has 1 to 19 digits.
fn is_short(n: u64) -> bool
    ensures { result ≡ is_short n }
{
    n < TOO_LONG
}

/// Whether each of some numbers has.
fn are_short(numbers: &[u64]) -> bool
    ensures { result ≡ are_short numbers.now }
{
    numbers.iter().all(|n| is_short(*n))
}

/// Whether the numbers of some looks have.
fn looks_are_short(looks: &[Look]) -> bool
    ensures { result ≡ list_all look_is_short looks.now }
{
    looks
        .iter()
        .all(|look| is_short(look.conn) && is_short(look.taken))
}

/// Whether the numbers of a call have.
fn call_is_short(call: &Call) -> bool
    ensures { result ≡ call_is_short call.now }
{
    match call {
        Call::Forward { conn, .. } => is_short(*conn),
        Call::Leave {
            conn,
            taken,
            empties,
        } => are_short(&[*conn, *taken, *empties]),
        Call::Connect { .. } | Call::Stop | Call::Count => true,
    }
}

/// Whether the numbers of counts have.
fn counts_are_short(k: &Counts) -> bool
    ensures { result ≡ reply_is_short (Reply.Counted k.now) }
{
    are_short(&[
        k.joined,
        k.replaced,
        k.refused,
        k.unicasts,
        k.broadcasts,
        k.appended,
        k.dropped,
        k.full,
        k.missed,
    ])
}

/// Whether a number has that may be missing.
fn is_short_if_some(n: Option<u64>) -> bool
    ensures { result ≡ reply_is_short (Reply.Refused (Refusal.Duplicate n)) }
{
    match n {
        Some(n) => are_short(&[n]),
        None => true,
    }
}

/// Whether the numbers of a connect's reply that joined have.
fn joined_is_short(conn: u64, replaced: Option<u64>) -> bool
    ensures { result ≡ reply_is_short (Reply.Joined conn replaced) }
{
    match replaced {
        Some(replaced) => are_short(&[conn, replaced]),
        None => are_short(&[conn]),
    }
}

/// Whether the numbers of a reply have.
fn reply_is_short(reply: &Reply) -> bool
    ensures { result ≡ reply_is_short reply.now }
{
    match reply {
        Reply::Joined { conn, replaced } => joined_is_short(*conn, *replaced),
        Reply::Refused(Refusal::Stopped) => true,
        Reply::Refused(Refusal::Duplicate { holder }) => is_short_if_some(*holder),
        Reply::Refused(Refusal::TableFull { rows }) => is_short(*rows),
        Reply::Appended { conn } => is_short(*conn),
        Reply::Closed { conn } => is_short(*conn),
        Reply::Skipped { conn } => is_short(*conn),
        Reply::SentAll {
            to,
            missed,
            skipped,
        } => are_short(to.as_slice())
            && (are_short(missed.as_slice()) && are_short(skipped.as_slice())),
        Reply::Gone { taken, .. } => is_short(*taken),
        Reply::Counted(counts) => counts_are_short(counts),
        Reply::NoHolder | Reply::NotCurrent { .. } | Reply::Stopped => true,
    }
}

/// Octets are octets.
fn are_octets(octets: &[u8])
    ensures { IsTrue (are_octets octets.now) }
{}

/// The 26 octets of an identity say it.
fn is_identity(who: &Identity)
    ensures { IsIdentity who.now }
{
    let octets = who.octets();
    are_octets(&octets);
}

/// Whether a call has octets to write: only a forward may have none.
fn has_octets(call: &Call) -> bool
    ensures yes { result ≡ true → HasOctets call.now }
    ensures no { result ≡ false → HasOctets call.now → ⊥ }
{
    match call {
        Call::Connect { who } => {
            is_identity(who);
            true
        }
        Call::Forward { frame, .. } => {
            are_octets(frame.as_slice());
            !frame.is_empty()
        }
        Call::Leave { .. } | Call::Stop | Call::Count => true,
    }
}

/// Whether a call shows its looks.
fn shows_looks(call: &Call, looks: &[Look]) -> bool
    ensures yes { result ≡ true → ShowsLooks call.now looks.now }
    ensures no { result ≡ false → ShowsLooks call.now looks.now → ⊥ }
{
    match call {
        Call::Forward { .. } => true,
        _ => looks.is_empty(),
    }
}

/// Whether a call is a connect.
pub(crate) fn is_connect(call: &Call) -> bool
    ensures { result ≡ is_connect call.now }
{
    match call {
        Call::Connect { .. } => true,
        _ => false,
    }
}

/// Whether `stopped` is read by its call.
fn fits_call(call: &Call, reply: &Reply) -> bool
    ensures yes { result ≡ true → FitsCall call.now reply.now }
    ensures no { result ≡ false → FitsCall call.now reply.now → ⊥ }
{
    match reply {
        Reply::Refused(Refusal::Stopped) => is_connect(call),
        Reply::Stopped => !is_connect(call),
        _ => true,
    }
}

/// Whether the numbers of an entry at its place have 1 to 19 digits.
fn numbers_are_short(place: u64, entry: &Entry) -> bool
    ensures { result ≡ (is_short place && (is_short entry.now.caller && (call_is_short entry.now.call
        && (list_all look_is_short entry.now.looks && reply_is_short entry.now.reply)))) }
{
    is_short(place)
        && (is_short(entry.caller)
            && (call_is_short(&entry.call)
                && (looks_are_short(entry.looks.as_slice()) && reply_is_short(&entry.reply))))
}

/// Whether an entry at its place has a line.
#[tactic(auto, using(crate::proofs::Whole::has_all))]
pub(crate) fn has_line(place: u64, entry: &Entry) -> bool
    ensures yes { result ≡ true → HasLine place entry.now }
    ensures no { result ≡ false → HasLine place entry.now → ⊥ }
{
    if !numbers_are_short(place, entry) {
        return false;
    }
    has_octets(&entry.call)
        && (shows_looks(&entry.call, entry.looks.as_slice())
            && fits_call(&entry.call, &entry.reply))
}
