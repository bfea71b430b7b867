//! Counting the lines of an inbox that nobody reads any more.
ghost use Rattle.std.specs.Prelude.{◌≡◌, ◌++◌, ◌∷◌, [], List};
ghost use Rattle.bsc_input.specs.declared.inbox.taken.Taken.{Taken as TakenType};
ghost use Rattle.bsc_live_lines.specs.Refusals.{number_in};
ghost use Rattle.bsc_live_lines.specs.Waiting.{CountsOn, taken_in};

use crate::bounds::MOST_COUNTED;
use bsc_input::{LineInbox, Taken};

/// How many lines are in what was taken and not read.
pub(crate) fn count_one(unread: &Option<Taken>) -> u64
    ensures { result ≡ number_in (taken_in unread.now) }
{
    match unread {
        Some(Taken::Line(_)) => 1,
        _ => 0,
    }
}

/// Counts on where this is a line. Whether it is.
#[tactic(auto, using(crate::proofs::More::number_more, crate::proofs::More::number_none, crate::proofs::More::number_end))]
fn count_taken(taken: &Taken, counted: u64) -> (u64, bool)
    ensures { (first : List TakenType) → counted ≡ number_in first → result.0 ≡ number_in (first ++ taken.now ∷ []) }
{
    match taken {
        Taken::Line(_) => (counted.saturating_add(1), true),
        Taken::Nothing => (counted, false),
        Taken::End => (counted, false),
    }
}

/// Takes once more, and counts on where a line is there. Whether one was.
fn count_next<I: LineInbox>(inbox: &mut I, counted: u64) -> (u64, bool)
    ensures { CountsOn (I.taken inbox.old) (I.taken inbox.new) counted result.0 }
{
    let taken = inbox.take();
    count_taken(&taken, counted)
}

/// Counts on with the lines that are there now, up to so many takes.
#[tactic(auto, using(crate::proofs::CountsOn::on_none, crate::proofs::CountsOn::on_then))]
pub(crate) fn count_more<I: LineInbox>(inbox: &mut I, counted: u64) -> u64
    ensures { CountsOn (I.taken inbox.old) (I.taken inbox.new) counted result }
{
    let mut count = counted;
    for _ in 0..MOST_COUNTED {
        let (now, is_line) = count_next(inbox, count);
        count = now;
        if !is_line {
            return count;
        }
    }
    count
}
