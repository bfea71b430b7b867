//! Replies, put at the end of a line.
ghost use Rattle.std.specs.Prelude.{◌≡◌, ◌++◌, flat_map, IfOk, codes, decimal};
ghost use Rattle.bsc_history.specs.declared.reply.Reply.TheVariants.{SentAll as SentAllReply};
ghost use Rattle.bsc_lines.specs.Replies.{replacing_words, joined_words, holder_words, refusal_words, ending_word, forward_words};
ghost use Rattle.bsc_lines.specs.Replies.{gone_words, list_words, counts_words};
ghost use Rattle.bsc_lines.specs.Lines.{reply_text};

use crate::texts::{put_number, put_numbered, put_words};
use bsc_history::{Counts, End, Refusal, Reply};
use bsc_octets::NoMemory;

/// What a join replaced, where it did.
fn put_replacing(text: &mut Vec<u8>, replaced: Option<u64>) -> Result<(), NoMemory>
    ensures { IfOk result (λ _. text.new.items ≡ text.old.items ++ replacing_words replaced) }
{
    match replaced {
        Some(conn) => put_numbered(text, " replacing", conn),
        None => Ok(()),
    }
}

/// The reply to a connect that joined.
pub fn put_joined(text: &mut Vec<u8>, conn: u64, replaced: Option<u64>) -> Result<(), NoMemory>
    ensures { IfOk result (λ _. text.new.items ≡ text.old.items ++ joined_words conn replaced) }
{
    put_numbered(text, "joined", conn)?;
    put_replacing(text, replaced)
}

/// Who holds an address: the hub itself, or a connection.
fn put_holder(text: &mut Vec<u8>, holder: Option<u64>) -> Result<(), NoMemory>
    ensures { IfOk result (λ _. text.new.items ≡ text.old.items ++ holder_words holder) }
{
    match holder {
        Some(conn) => put_numbered(text, "duplicate", conn),
        None => put_words(text, "duplicate hub"),
    }
}

/// The reply to a connect that is refused.
pub fn put_refusal(text: &mut Vec<u8>, refusal: Refusal) -> Result<(), NoMemory>
    ensures { IfOk result (λ _. text.new.items ≡ text.old.items ++ refusal_words refusal) }
{
    match refusal {
        Refusal::Stopped => put_words(text, "stopped"),
        Refusal::Duplicate { holder } => put_holder(text, holder),
        Refusal::TableFull { rows } => put_numbered(text, "tablefull", rows),
    }
}

/// How an End is written.
fn word_of(ending: End) -> &'static str
    ensures { result.now ≡ ending_word ending }
{
    match ending {
        End::Left => "left",
        End::Replaced => "replaced",
        End::Full => "full",
        End::Stopped => "stopped",
    }
}

/// The reply to a sender that has ended.
pub fn put_not_current(text: &mut Vec<u8>, ending: End) -> Result<(), NoMemory>
    ensures { IfOk result (λ _. text.new.items ≡ text.old.items ++ (codes "notcurrent " ++ ending_word ending)) }
{
    put_words(text, "notcurrent ")?;
    put_words(text, word_of(ending))
}

/// Numbers behind commas.
fn put_more(text: &mut Vec<u8>, numbers: &[u64]) -> Result<(), NoMemory>
    ensures { IfOk result (λ _. text.new.items ≡ text.old.items ++ flat_map (λ k. codes "," ++ decimal k) numbers.now) }
{
    for n in numbers.iter() {
        put_words(text, ",")?;
        put_number(text, *n)?;
    }
    Ok(())
}

/// Numbers with commas between.
pub fn put_list(text: &mut Vec<u8>, numbers: &[u64]) -> Result<(), NoMemory>
    ensures { IfOk result (λ _. text.new.items ≡ text.old.items ++ list_words numbers.now) }
{
    match numbers {
        [] => put_words(text, "-"),
        [first, more @ ..] => {
            put_number(text, *first)?;
            put_more(text, more)
        }
    }
}

/// The lists of a broadcast's reply.
pub fn put_lists(
    text: &mut Vec<u8>,
    to: &[u64],
    missed: &[u64],
    skipped: &[u64],
) -> Result<(), NoMemory>
    ensures { IfOk result (λ _. text.new.items
        ≡ text.old.items ++ forward_words (SentAllReply to.now missed.now skipped.now)) }
{
    put_words(text, "sentall to=")?;
    put_list(text, to)?;
    put_words(text, " missed=")?;
    put_list(text, missed)?;
    put_words(text, " skipped=")?;
    put_list(text, skipped)
}

/// The reply to a leave.
pub fn put_gone(text: &mut Vec<u8>, ending: End, taken: u64) -> Result<(), NoMemory>
    ensures { IfOk result (λ _. text.new.items ≡ text.old.items ++ gone_words (Reply.Gone ending taken)) }
{
    put_words(text, "gone ")?;
    put_numbered(text, word_of(ending), taken)
}

/// A word and a number behind it.
fn put_pair(text: &mut Vec<u8>, word: &str, n: u64) -> Result<(), NoMemory>
    ensures { IfOk result (λ _. text.new.items ≡ text.old.items ++ (word.now ++ decimal n)) }
{
    put_words(text, word)?;
    put_number(text, n)
}

/// The counts of a hub.
pub fn put_counts(text: &mut Vec<u8>, counts: &Counts) -> Result<(), NoMemory>
    ensures { IfOk result (λ _. text.new.items ≡ text.old.items ++ counts_words counts.now) }
{
    put_words(text, "counts")?;
    put_pair(text, " joined=", counts.joined)?;
    put_pair(text, " replaced=", counts.replaced)?;
    put_pair(text, " refused=", counts.refused)?;
    put_pair(text, " unicasts=", counts.unicasts)?;
    put_pair(text, " broadcasts=", counts.broadcasts)?;
    put_pair(text, " appended=", counts.appended)?;
    put_pair(text, " dropped=", counts.dropped)?;
    put_pair(text, " full=", counts.full)?;
    put_pair(text, " missed=", counts.missed)
}

/// A reply.
pub fn put_reply(text: &mut Vec<u8>, reply: &Reply) -> Result<(), NoMemory>
    ensures { IfOk result (λ _. text.new.items ≡ text.old.items ++ reply_text reply.now) }
{
    match reply {
        Reply::Joined { conn, replaced } => put_joined(text, *conn, *replaced),
        Reply::Refused(refusal) => put_refusal(text, *refusal),
        Reply::Appended { conn } => put_numbered(text, "sent", *conn),
        Reply::Closed { conn } => put_numbered(text, "full", *conn),
        Reply::Skipped { conn } => put_numbered(text, "long", *conn),
        Reply::NoHolder => put_words(text, "noholder"),
        Reply::SentAll {
            to,
            missed,
            skipped,
        } => put_lists(text, to.as_slice(), missed.as_slice(), skipped.as_slice()),
        Reply::NotCurrent { ending } => put_not_current(text, *ending),
        Reply::Stopped => put_words(text, "stopped"),
        Reply::Gone { ending, taken } => put_gone(text, *ending, *taken),
        Reply::Counted(counts) => put_counts(text, counts),
    }
}
