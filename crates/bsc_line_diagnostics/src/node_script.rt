//! Lines of the script of a node (docs/OPERATING.md, "The script of a node").
ghost use Rattle.std.specs.Prelude.{◌≡◌};
ghost use Rattle.bsc_text.specs.Words.{words_of};
ghost use Rattle.bsc_diagnostics.specs.Forms.{TellsFirst};
ghost use Rattle.bsc_line_diagnostics.specs.NodeScripts.{TellsBroken, node_script_broken, request_broken, send_broken};

use bsc_diagnostics::{
    Diagnostic, hold_destination, hold_octets, hold_one_node, hold_time, next_line, no_more,
    only_word, word_of,
};
use bsc_text::{begins_comment, next_word, read_number};

const SEND: &str = "send VMAC OCTETS";

/// What has no form of a line.
const NO_LINE: Diagnostic<'static> = Diagnostic::Line {
    rule: "it is no line of a node's script",
};

/// What is sent: a VMAC that isn't zero, and at least one octet.
fn hold_send<'a>(words: &'a [u8]) -> Result<(), Diagnostic<'a>>
    ensures { TellsFirst result (send_broken (words_of words.now)) }
{
    let (dest, words) = word_of(words, SEND)?;
    hold_destination(dest)?;
    let _ = word_of(words, SEND)?;
    hold_octets(words)
}

/// A line that does something, by its first word and those after it.
fn hold_words<'a>(first: &'a [u8], words: &'a [u8]) -> Result<(), Diagnostic<'a>>
    ensures { TellsFirst result (request_broken first.now (words_of words.now)) }
{
    if first == b"at".as_slice() {
        return hold_time(words);
    }
    if first == b"send".as_slice() {
        return hold_send(words);
    }
    if first == b"resolve".as_slice() {
        return hold_one_node(only_word(words, "resolve VMAC")?);
    }
    if first == b"direct".as_slice() {
        return hold_one_node(only_word(words, "direct VMAC")?);
    }
    if first == b"solicit".as_slice() {
        return hold_one_node(only_word(words, "solicit VMAC")?);
    }
    if first == b"finish".as_slice() {
        return no_more(words, "finish");
    }
    Err(Diagnostic::Word {
        word: first,
        rule: "begins no line: at, send, resolve, direct, solicit and finish do",
    })
}

/// The rule that a line breaks which has no form of a line of a node's script; None of one that has.
pub fn why_node_line<'a>(line: &'a [u8]) -> Option<Diagnostic<'a>>
    ensures { TellsBroken result (node_script_broken (words_of line.now)) }
{
    let (first, words) = next_word(line)?;
    if begins_comment(first) {
        return None;
    }
    match hold_words(first, words) {
        Err(reason) => Some(reason),
        Ok(()) => None,
    }
}

/// Whether a line is that which ends the node.
fn is_finish(line: &[u8]) -> bool {
    match next_word(line) {
        Some((first, _)) => first == b"finish".as_slice(),
        None => false,
    }
}

/// Whether a line of some lines is that which ends the node.
fn have_finish(lines: &[u8]) -> bool {
    let mut rest = lines;
    while let Some((line, after)) = next_line(rest) {
        if is_finish(line) {
            return true;
        }
        rest = after;
    }
    false
}

/// The rule that a line breaks by where it stands, behind these lines.
pub fn why_node_place<'a>(before: &[u8], line: &'a [u8]) -> Diagnostic<'a> {
    if have_finish(before) {
        return Diagnostic::Line {
            rule: "it stands behind `finish`, which is the last line that does anything",
        };
    }
    match next_word(line) {
        Some((_, words)) => match next_word(words) {
            Some((word, _)) if read_number(word).is_some() => Diagnostic::Word {
                word,
                rule: "is less than the time of the `at` before it",
            },
            _ => NO_LINE,
        },
        None => NO_LINE,
    }
}
