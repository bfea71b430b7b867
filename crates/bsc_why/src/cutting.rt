//! A text by its lines.
use bsc_diagnostics::next_line;

/// What comes behind the line with this number, counted from 1, in a text; nothing, where it has no such line.
pub(crate) fn behind(text: &[u8], number: u64) -> &[u8] {
    let mut rest = text;
    let mut at: u64 = 0;
    while let Some((_, after)) = next_line(rest) {
        if number <= at {
            return rest;
        }
        at = at.saturating_add(1);
        rest = after;
    }
    rest
}

/// A text up to its end, of which this is the last part.
pub(crate) fn before<'a>(text: &'a [u8], rest: &[u8]) -> &'a [u8] {
    match text.get(..text.len().saturating_sub(rest.len())) {
        Some(front) => front,
        None => &[],
    }
}
