//! Lines of a script of one hub (docs/SCRIPTS.md, "The lines of a script").
ghost use Rattle.std.specs.Prelude.{◌≡◌, ◌*◌, nat_le, not, [], ◌∷◌, codes, None, IfSome};
ghost use Rattle.bsc_history.specs.declared.limits.TheConstants.{MOST_OCTETS};
ghost use Rattle.bsc_script.specs.Lines.{line_of};
ghost use Rattle.bsc_text.specs.Grammar.{maximum_of_word, number_of};
ghost use Rattle.bsc_text.specs.Words.{words_of};
ghost use Rattle.bsc_diagnostics.specs.Forms.{Says, TellsFirst, any, by_form, or_no_line};
ghost use Rattle.bsc_line_diagnostics.specs.Scripts.{calls_broken, hub_broken, other_broken, outbox_broken, product_broken, rows_broken, script_broken};

use bsc_diagnostics::{
    Diagnostic, first_of, hold_hub_identity, hold_identity, hold_name, hold_octets, hold_time,
    hold_within, next_line, no_more, only_word, told_or, why_time, word_of,
};
use bsc_history::{MOST_CALLS, MOST_OCTETS, MOST_OUTBOX, MOST_ROWS};
use bsc_player::LineFault;
use bsc_script::read_line;
use bsc_text::{begins_comment, next_word, read_maximum, read_number};
use std::alloc::Global;

const HUB: &str = "hub VMAC UUID MAXB MAXN ROWS OUTBOX [CALLS]";

/// What has no form of a line, although each of its words is right.
const NO_LINE: Diagnostic<'static> = Diagnostic::Line {
    rule: "it is no line of a script",
};

/// Whether a hub's rows, each with an outbox of so many frames of so many octets, have more octets than they may.
fn is_above(rows: u64, outbox: u64, bvlc: u16) -> bool
    ensures { result ≡ not (nat_le (rows * outbox * bvlc) MOST_OCTETS) }
{
    rows.saturating_mul(outbox).saturating_mul(u64::from(bvlc)) > MOST_OCTETS
}

/// The product of a hub's rows, frames and longest message.
fn hold_product<'a>(bvlc: &[u8], rows: &[u8], outbox: &[u8]) -> Result<(), Diagnostic<'a>>
    ensures { TellsFirst result (product_broken (maximum_of_word bvlc.now) (number_of rows.now) (number_of outbox.now)) }
{
    let (Some(bvlc), Some(rows), Some(outbox)) = (
        read_maximum(bvlc),
        read_number(rows),
        read_number(outbox),
    ) else {
        return Ok(());
    };
    if is_above(rows, outbox, bvlc) {
        return Err(Diagnostic::Line {
            rule: "ROWS times OUTBOX times MAXB is above 2^30",
        });
    }
    Ok(())
}

/// The rows of a hub.
fn hold_rows<'a>(rows: &'a [u8]) -> Result<(), Diagnostic<'a>>
    ensures { TellsFirst result (rows_broken rows.now) }
{
    hold_within(rows, 1, MOST_ROWS, "is no number of rows from 1 to 1024")
}

/// The frames of each of its outboxes.
fn hold_outbox<'a>(outbox: &'a [u8]) -> Result<(), Diagnostic<'a>>
    ensures { TellsFirst result (outbox_broken outbox.now) }
{
    hold_within(
        outbox,
        2,
        MOST_OUTBOX,
        "is no number of frames of an outbox from 2 to 1024",
    )
}

/// What stands behind the outbox of a hub line: the number of its calls, or nothing.
fn hold_calls<'a>(words: &'a [u8]) -> Result<(), Diagnostic<'a>>
    ensures { TellsFirst result (calls_broken (words_of words.now)) }
{
    let Some((calls, words)) = next_word(words) else {
        return Ok(());
    };
    no_more(words, HUB)?;
    hold_within(calls, 1, MOST_CALLS, "is no number of calls from 1 to 2^52")
}

/// A hub line, by the words after `hub`.
pub(crate) fn hold_hub<'a>(words: &'a [u8]) -> Result<(), Diagnostic<'a>>
    ensures { TellsFirst result (hub_broken (words_of words.now)) }
{
    let (address, words) = word_of(words, HUB)?;
    let (uuid, words) = word_of(words, HUB)?;
    let (bvlc, words) = word_of(words, HUB)?;
    let (npdu, words) = word_of(words, HUB)?;
    let (rows, words) = word_of(words, HUB)?;
    let (outbox, words) = word_of(words, HUB)?;
    let is_hub = first_of(
        hold_identity(address, uuid, bvlc, npdu),
        hold_hub_identity(address, bvlc, npdu),
    );
    let has_rows = first_of(hold_rows(rows), hold_outbox(outbox));
    let has_limits = first_of(hold_calls(words), hold_product(bvlc, rows, outbox));
    first_of(is_hub, first_of(has_rows, has_limits))
}

/// A line that has a name alone, by its form.
fn hold_named<'a>(words: &'a [u8], form: &'static str) -> Result<(), Diagnostic<'a>>
    ensures { TellsFirst result (by_form form.now (any ∷ []) (words_of words.now)) }
{
    let _ = only_word(words, form)?;
    Ok(())
}

/// A line of another kind than `hub`, `open` and `in`, by its first word and those after it.
fn hold_other<'a>(first: &'a [u8], words: &'a [u8]) -> Result<(), Diagnostic<'a>>
    ensures { TellsFirst result (other_broken first.now (words_of words.now)) }
{
    if first == b"text".as_slice() {
        return hold_named(words, "text NAME");
    }
    if first == b"drop".as_slice() {
        return hold_named(words, "drop NAME");
    }
    if first == b"hold".as_slice() {
        return hold_named(words, "hold NAME");
    }
    if first == b"free".as_slice() {
        return hold_named(words, "free NAME");
    }
    if first == b"at".as_slice() {
        return hold_time(words);
    }
    if first == b"stop".as_slice() {
        return no_more(words, "stop");
    }
    if first == b"counts".as_slice() {
        return no_more(words, "counts");
    }
    Err(Diagnostic::Word {
        word: first,
        rule: "begins no line: hub, open, in, text, drop, hold, free, at, stop and counts do",
    })
}

/// A line that does something.
fn hold_line<'a>(line: &'a [u8]) -> Result<(), Diagnostic<'a>>
    ensures { TellsFirst result (script_broken (words_of line.now)) }
{
    let Some((first, words)) = next_word(line) else {
        return Ok(());
    };
    if first == b"hub".as_slice() {
        return hold_hub(words);
    }
    if first == b"open".as_slice() {
        return hold_name(only_word(words, "open NAME")?);
    }
    if first == b"in".as_slice() {
        let (_, words) = word_of(words, "in NAME OCTETS")?;
        return hold_octets(words);
    }
    hold_other(first, words)
}

/// The rule that a line breaks which has no form of a line of a script; None of one that has.
pub fn why_script_line<'a>(alloc: Global, line: &'a [u8]) -> Option<Diagnostic<'a>>
    ensures refused { IfSome result (λ reason. line_of line.now ≡ None) }
    ensures told { IfSome result (λ reason. Says reason (or_no_line (codes "it is no line of a script") (script_broken (words_of line.now)))) }
{
    match read_line(alloc, line) {
        Ok(_) | Err(LineFault::NoMemory) => None,
        Err(LineFault::Refused) => Some(told_or(hold_line(line), "it is no line of a script")),
    }
}

/// Whether a line does something.
fn does_something(line: &[u8]) -> bool {
    match next_word(line) {
        Some((first, _)) => !begins_comment(first),
        None => false,
    }
}

/// Whether a line of some lines does something.
fn do_something(lines: &[u8]) -> bool {
    let mut rest = lines;
    while let Some((line, after)) = next_line(rest) {
        if does_something(line) {
            return true;
        }
        rest = after;
    }
    false
}

/// The rule that a line breaks by where it stands, by its first word and those after it, where the hub was made.
fn why_behind<'a>(first: &[u8], words: &'a [u8]) -> Diagnostic<'a> {
    if first == b"hub".as_slice() {
        return Diagnostic::Line {
            rule: "there is a hub already",
        };
    }
    let Some((word, _)) = next_word(words) else {
        return NO_LINE;
    };
    if first == b"open".as_slice() {
        return Diagnostic::Word {
            word,
            rule: "is open already, or 2,048 names are",
        };
    }
    if first == b"at".as_slice() {
        return why_time(word);
    }
    Diagnostic::Word {
        word,
        rule: "isn't open",
    }
}

/// The rule that a line breaks by where it stands, behind these lines.
pub fn why_script_place<'a>(before: &[u8], line: &'a [u8]) -> Diagnostic<'a> {
    if !do_something(before) {
        return Diagnostic::Line {
            rule: "the first line that does something has to be the hub line",
        };
    }
    match next_word(line) {
        Some((first, words)) => why_behind(first, words),
        None => NO_LINE,
    }
}
