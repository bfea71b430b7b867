//! The next line of a text, as every reader of lines cuts it.
ghost use Rattle.std.specs.Prelude.{◌<◌, ◌≤◌, ◌+◌, ◌≡◌, [], ◌∷◌, length, map, IfSome, MatchOption};
ghost use Rattle.bsc_text.specs.Lines.{line_in, pieces_of};

use bsc_text::{first_lf, line_in};

/// The first line of a text, without its end, and what comes behind it; None of an empty text.
pub fn next_line(text: &[u8]) -> Option<(&[u8], &[u8])>
    ensures line { MatchOption result
        (map line_in (pieces_of text.now) ≡ [])
        (λ (line, rest). map line_in (pieces_of text.now) ≡ line.now ∷ map line_in (pieces_of rest.now)) }
    ensures shorter { IfSome result (λ (_, rest). length rest.now < length text.now) }
{
    if text.is_empty() {
        return None;
    }
    match first_lf(text) {
        Some(n) => {
            let (piece, rest) = text.split_at(n + 1);
            Some((line_in(piece), rest))
        }
        None => Some((line_in(text), &[])),
    }
}
