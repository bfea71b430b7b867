//! The rule that the refused line of an input breaks.
ghost use Rattle.std.specs.Prelude.{◌≡◌, None, IfSome};
ghost use Rattle.bsc_script.specs.Lines.{line_of as script_line};
ghost use Rattle.bsc_network_script.specs.Lines.{line_of as network_line};
ghost use Rattle.bsc_replay.specs.Asking.{line_of as question_line};
ghost use Rattle.bsc_journal.specs.declared.journal_record.JournalRecord.{JournalRecord as SaidOf};
ghost use Rattle.bsc_journal.specs.Saying.{Says};

use crate::cutting::{before, behind};
use crate::format::Format;
use crate::links::why_in_network;
use bsc_diagnostics::{Diagnostic, next_line};
use bsc_journal::MOST_IN_LINE;
use bsc_line_diagnostics::{
    why_check_line, why_journal_line, why_node_line, why_node_place, why_script_line,
    why_script_place,
};
use bsc_network_diagnostics::why_network_line;
use bsc_text::MAX_LINE_LEN;
use std::alloc::Global;

/// What is left of an input that was read.
#[derive(Clone, Copy, Debug)]
pub struct Seen<'a> {
    /// All that was read, or the last part of it, from the beginning of a line on.
    pub text: &'a [u8],
    /// Whether it is all that was read.
    pub is_whole: bool,
    /// Whether the input ended behind it.
    pub has_ended: bool,
}

/// The rule that a line breaks which has no form of a line of a language; None of one that has, and where memory runs out.
pub fn why_form<'a>(alloc: Global, format: Format, line: &'a [u8]) -> Option<Diagnostic<'a>>
    // A rule is named only of what the reader refuses.
    ensures script { format ≡ Format.Script → IfSome result (λ reason. script_line line.now ≡ None) }
    ensures network { format ≡ Format.Network → IfSome result (λ reason. network_line line.now ≡ None) }
    ensures question { format ≡ Format.Question → IfSome result (λ reason. question_line line.now ≡ None) }
    ensures journal { format ≡ Format.Journal → IfSome result (λ reason. (s : SaidOf) → Says line.now s → ⊥) }
{
    match format {
        Format::Script => why_script_line(alloc, line),
        Format::Network => why_network_line(alloc, line),
        Format::Question => why_check_line(alloc, line),
        Format::NodeScript => why_node_line(line),
        Format::Journal => why_journal_line(alloc, line),
    }
}

/// The rule that a line breaks which has the form of one, by where it stands behind these lines.
fn why_place<'a>(alloc: Global, format: Format, before: &[u8], line: &'a [u8]) -> Diagnostic<'a> {
    match format {
        Format::Script => why_script_place(before, line),
        Format::Network => why_in_network(alloc, before, line),
        Format::NodeScript => why_node_place(before, line),
        Format::Question | Format::Journal => Diagnostic::Line {
            rule: "it goes past the most octets that an input may have",
        },
    }
}

/// The rule that an input breaks whose lines are all accepted.
fn why_end(format: Format) -> Diagnostic<'static> {
    match format {
        Format::Script | Format::Network => Diagnostic::Line {
            rule: "the script ends without a hub line",
        },
        Format::NodeScript => Diagnostic::Line {
            rule: "the script ends without `finish`",
        },
        Format::Question | Format::Journal => Diagnostic::Line {
            rule: "the input ends too soon",
        },
    }
}

/// Whether a line is too long.
fn is_too_long(format: Format, line: &[u8]) -> bool {
    match format {
        Format::Journal => line.len() > MOST_IN_LINE,
        _ => line.len() > MAX_LINE_LEN,
    }
}

/// The rule that a line breaks which is too long.
fn too_long(format: Format) -> Diagnostic<'static> {
    match format {
        Format::Journal => Diagnostic::Line {
            rule: "it is longer than 300,000 octets",
        },
        _ => Diagnostic::Line {
            rule: "it is longer than 140,000 octets",
        },
    }
}

/// The rule that the line with this number breaks, of a whole input.
fn why_at<'a>(alloc: Global, format: Format, text: &'a [u8], number: u64) -> Diagnostic<'a> {
    let rest = behind(text, number.saturating_sub(1));
    let Some((line, _)) = next_line(rest) else {
        return why_end(format);
    };
    if is_too_long(format, line) {
        return too_long(format);
    }
    match why_form(alloc, format, line) {
        Some(reason) => reason,
        None => why_place(alloc, format, before(text, rest), line),
    }
}

/// The rule that the first line breaks which is refused for itself, of the last part of an input.
fn why_in<'a>(alloc: Global, format: Format, text: &'a [u8], has_ended: bool) -> Diagnostic<'a> {
    let is_even = has_ended || text.ends_with(b"\n");
    let mut rest = text;
    while let Some((line, after)) = next_line(rest) {
        if is_too_long(format, line) {
            return too_long(format);
        }
        // What may go on isn't a line yet.
        if !after.is_empty() || is_even {
            if let Some(reason) = why_form(alloc, format, line) {
                return reason;
            }
        }
        rest = after;
    }
    Diagnostic::Line {
        rule: "it has the form of a line, but may not stand behind the lines before it",
    }
}

/// The rule that a refused line breaks, by its number, counted from 1, and by what is left of its input.
///
/// Of a whole input it is that line; of the last part of a long one the first line that is refused for itself.
pub fn why_line<'a>(alloc: Global, format: Format, seen: Seen<'a>, number: u64) -> Diagnostic<'a> {
    if seen.is_whole {
        why_at(alloc, format, seen.text, number)
    } else {
        why_in(alloc, format, seen.text, seen.has_ended)
    }
}
