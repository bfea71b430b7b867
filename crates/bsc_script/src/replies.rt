//! The replies of the hub, put at the end of a text.
ghost use Rattle.std.specs.Prelude.{◌≡◌, ◌++◌, IfOk, codes};
ghost use Rattle.bsc_history.specs.declared.reply.Reply.TheVariants.{SentAll as SentAllReply};
ghost use Rattle.bsc_desk.specs.Entries.{one_reply, all_reply, gone_reply};
ghost use Rattle.bsc_script.specs.Written.{says, line_text};
ghost use Rattle.bsc_lines.specs.Replies.{joined_words, refusal_words, ending_word, forward_words, gone_words};

use crate::texts::{begin_line, put_line, put_numbered};
use bsc_desk::{AllReply, Gone, NewRow, OneReply};
use bsc_history::{End, Refusal};
use bsc_lines::{put_lists, put_words};
use bsc_octets::NoMemory;

/// The line of a connect that joined.
pub(crate) fn put_joined(text: &mut Vec<u8>, name: &[u8], row: NewRow) -> Result<(), NoMemory>
    ensures { IfOk result (λ _. text.new.items
        ≡ text.old.items ++ line_text (says name.now (joined_words row.conn row.replaced))) }
{
    begin_line(text, name)?;
    bsc_lines::put_joined(text, row.conn, row.replaced)?;
    put_words(text, "\n")
}

/// The line of a sender that has ended.
fn put_not_current(text: &mut Vec<u8>, name: &[u8], ending: End) -> Result<(), NoMemory>
    ensures { IfOk result (λ _. text.new.items
        ≡ text.old.items ++ line_text (says name.now (codes "notcurrent " ++ ending_word ending))) }
{
    begin_line(text, name)?;
    bsc_lines::put_not_current(text, ending)?;
    put_words(text, "\n")
}

/// The reply to a connect that is refused.
pub(crate) fn put_refusal(text: &mut Vec<u8>, name: &[u8], refusal: Refusal) -> Result<(), NoMemory>
    ensures { IfOk result (λ _. text.new.items ≡ text.old.items ++ line_text (says name.now (refusal_words refusal))) }
{
    begin_line(text, name)?;
    bsc_lines::put_refusal(text, refusal)?;
    put_words(text, "\n")
}

/// The reply to a unicast.
pub(crate) fn put_reply(text: &mut Vec<u8>, name: &[u8], reply: OneReply) -> Result<(), NoMemory>
    ensures { IfOk result (λ _. text.new.items
        ≡ text.old.items ++ line_text (says name.now (forward_words (one_reply reply)))) }
{
    match reply {
        OneReply::Appended(look) => put_numbered(text, name, "sent", look.conn),
        OneReply::Closed(look) => put_numbered(text, name, "full", look.conn),
        OneReply::Skipped { conn } => put_numbered(text, name, "long", conn),
        OneReply::NoHolder => put_line(text, name, "noholder"),
        OneReply::NotCurrent { ending } => put_not_current(text, name, ending),
        OneReply::Stopped => put_line(text, name, "stopped"),
    }
}

/// The line of a broadcast that was sent.
fn put_sent(
    text: &mut Vec<u8>,
    name: &[u8],
    to: &[u64],
    missed: &[u64],
    skipped: &[u64],
) -> Result<(), NoMemory>
    ensures { IfOk result (λ _. text.new.items
        ≡ text.old.items ++ line_text (says name.now (forward_words (SentAllReply to.now missed.now skipped.now)))) }
{
    begin_line(text, name)?;
    put_lists(text, to, missed, skipped)?;
    put_words(text, "\n")
}

/// The reply to a broadcast.
pub(crate) fn put_all(text: &mut Vec<u8>, name: &[u8], reply: &AllReply) -> Result<(), NoMemory>
    ensures { IfOk result (λ _. text.new.items
        ≡ text.old.items ++ line_text (says name.now (forward_words (all_reply reply.now)))) }
{
    match reply {
        AllReply::Sent {
            to,
            missed,
            skipped,
            ..
        } => put_sent(
            text,
            name,
            to.as_slice(),
            missed.as_slice(),
            skipped.as_slice(),
        ),
        AllReply::NotCurrent { ending } => put_not_current(text, name, *ending),
        AllReply::Stopped => put_line(text, name, "stopped"),
    }
}

/// The reply to a leave.
pub(crate) fn put_gone(text: &mut Vec<u8>, name: &[u8], gone: Gone) -> Result<(), NoMemory>
    ensures { IfOk result (λ _. text.new.items
        ≡ text.old.items ++ line_text (says name.now (gone_words (gone_reply gone)))) }
{
    begin_line(text, name)?;
    bsc_lines::put_gone(text, gone.ending, gone.taken)?;
    put_words(text, "\n")
}
