//! Whether a link of a network is there: seen by playing the lines before it.
use bsc_diagnostics::Diagnostic;
use bsc_network_diagnostics::{Misplaced, why_network_place};
use bsc_octets::NoMemory;
use bsc_outside::{SureSink, SureSource};
use bsc_simulate::{PlayEnd, simulate};
use std::alloc::Global;

/// Whether a link could be lost after some lines: it is there, and wasn't lost.
fn has_link(alloc: Global, lines: &[u8], link: &[u8]) -> Result<bool, NoMemory> {
    let mut text = Vec::from_slice(alloc, lines)?;
    text.extend_from_slice(b"lose ")?;
    text.extend_from_slice(link)?;
    text.extend_from_slice(b"\n")?;
    let end = simulate(alloc, &mut SureSource::new(text.as_slice()), &mut SureSink);
    Ok(end == PlayEnd::Done)
}

/// The rule that the step of a link breaks: this one, where the link is there.
fn why_link<'a>(
    alloc: Global,
    before: &[u8],
    word: &'a [u8],
    rule: &'static str,
) -> Diagnostic<'a> {
    match has_link(alloc, before, word) {
        Ok(true) => Diagnostic::Word { word, rule },
        Ok(false) => Diagnostic::Word {
            word,
            rule: "is the number of no link, or of one that was lost",
        },
        Err(NoMemory) => Diagnostic::Line {
            rule: "it is no line of a network's script",
        },
    }
}

/// The rule that a line of a network's script breaks by where it stands, behind these lines, all of which were accepted.
pub(crate) fn why_in_network<'a>(alloc: Global, before: &[u8], line: &'a [u8]) -> Diagnostic<'a> {
    match why_network_place(alloc, before, line) {
        Misplaced::Rule(reason) => reason,
        Misplaced::Link { word, rule } => why_link(alloc, before, word, rule),
    }
}
