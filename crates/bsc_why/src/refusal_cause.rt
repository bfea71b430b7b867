//! Why a line is refused that came as a node ran.
ghost use Rattle.std.specs.Prelude.{◌≡◌, false};
ghost use Rattle.bsc_live_lines.specs.Refusals.{is_good, refusal_of};
ghost use Rattle.bsc_live_lines.specs.Requests.{said_by};
ghost use Rattle.bsc_why.specs.Refusals.{IsCause};

use bsc_diagnostics::Diagnostic;
use bsc_line_diagnostics::why_node_line;
use bsc_live_lines::Refused;
use bsc_node_run::{Line, LineFault, read_line};
use bsc_text::MAX_LINE_LEN;
use std::alloc::Global;
use std::fmt::{self, Display, Formatter, Write};

/// Why a line is refused that came as a node ran.
#[derive(Clone, Copy, Debug)]
pub enum RefusalCause<'a> {
    /// It is too long.
    TooLong,
    /// It has no form of a line: it breaks this rule.
    NoLine(Diagnostic<'a>),
    /// It sets a time.
    SetsTime,
    /// It asks for something, and the node was asked to end before.
    Late,
    /// There was no memory to read it once more.
    Unread,
}

impl Display for RefusalCause<'_> {
    ghost use Rattle.bsc_why.specs.Refusals.{cause_text};

    ghost output = { cause_text };

    fn fmt<W: Write>(&self, f: &mut Formatter<W>) -> fmt::Result {
        match self {
            RefusalCause::TooLong => f.write_str("it is longer than 140,000 octets"),
            RefusalCause::NoLine(rule) => rule.fmt(f),
            RefusalCause::SetsTime => {
                f.write_str("it sets a time, and lines that come as the node runs have none")
            }
            RefusalCause::Late => f.write_str(
                "it stands behind `finish`, which is the last line that does anything",
            ),
            RefusalCause::Unread => f.write_str("there is no memory to say why"),
        }
    }
}

/// The rule that a line breaks which has no form of one.
fn rule_of<'a>(text: &'a [u8]) -> Diagnostic<'a> {
    match why_node_line(text) {
        Some(rule) => rule,
        None => Diagnostic::Line {
            rule: "it is no line of a node's script",
        },
    }
}

/// Why this line is refused.
pub fn why_refused<'a>(alloc: Global, line: Refused<'a>) -> RefusalCause<'a>
    ensures { is_good line.entry.has_finished (said_by line.entry.text.now) ≡ false → IsCause result (refusal_of line.entry) }
{
    if line.text.len() > MAX_LINE_LEN {
        return RefusalCause::TooLong;
    }
    match read_line(alloc, line.text) {
        Ok(Line::At { .. }) => RefusalCause::SetsTime,
        Ok(_) => RefusalCause::Late,
        Err(LineFault::Refused) => RefusalCause::NoLine(rule_of(line.text)),
        Err(LineFault::NoMemory) => RefusalCause::Unread,
    }
}
