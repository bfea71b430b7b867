//! Where the pieces of a text end, which line a piece holds, and whether it is too big.
//!
//! A text is cut into pieces after each LF (`pieces_of` in `specs/Lines.antt`). Every reader of lines asks these
//! functions.
ghost use Rattle.std.specs.Prelude.{◌≡◌, ◌≢◌, ◌+◌, ◌≤◌, ◌<◌, ℕ, List, [], ◌∷◌, ◌++◌, length, slice_index, MatchOption, true, false};
ghost use Rattle.bsc_text.specs.Lines.{BeginsLine, has_no_lf, is_past, is_too_big, line_in};

use crate::bounds::{MAX_INPUT_LEN, MAX_LINE_LEN};
use memchr::memchr;

/// How many octets stand in front of the first LF; all of them, where there is none.
pub fn lf_at(octets: &[u8]) -> usize
    ensures within { result ≤ length octets.now }
    ensures before { (k : ℕ) → k < result → slice_index octets.now k ≢ 10 }
    ensures found { result < length octets.now → slice_index octets.now result ≡ 10 }
{
    match memchr(b'\n', octets) {
        Some(n) => n,
        None => octets.len(),
    }
}

/// How many octets stand in front of the first LF, where there is one.
pub fn first_lf(octets: &[u8]) -> Option<usize>
    ensures { MatchOption result
        (has_no_lf octets.now ≡ true)
        (λ n. BeginsLine n octets.now) }
{
    let n = lf_at(octets);
    if n < octets.len() { Some(n) } else { None }
}

/// The octets in front of the last one, where the last one is `last`.
fn before_last(octets: &[u8], last: u8) -> Option<&[u8]>
    ensures { MatchOption result
        ((front : List ℕ) → octets.now ≢ front ++ last ∷ [])
        (λ front. octets.now ≡ front.now ++ last ∷ []) }
{
    octets.strip_suffix(&[last])
}

/// The line that a piece holds: the piece without its LF and the one CR before it.
pub fn line_in(piece: &[u8]) -> &[u8]
    ensures line { result.now ≡ line_in piece.now }
    ensures within { length result.now ≤ length piece.now }
{
    match before_last(piece, b'\n') {
        None => piece,
        Some(front) => match before_last(front, b'\r') {
            None => front,
            Some(line) => line,
        },
    }
}

/// Whether a piece that stands after `before` octets is past these limits: its line has more than `in_line` octets,
/// or it goes past the first `in_all` octets.
pub fn is_past(in_line: usize, in_all: u64, before: u64, piece: &[u8]) -> bool
    requires { before ≤ in_all }
    ensures past { result ≡ is_past in_line in_all before piece.now }
    ensures fits { result ≡ false → before + length piece.now ≤ in_all }
{
    line_in(piece).len() > in_line || in_all - before < piece.len() as u64
}

/// Whether a piece of a script that stands after `before` octets is too big.
pub fn is_too_big(before: u64, piece: &[u8]) -> bool
    requires { before ≤ MAX_INPUT_LEN }
    ensures { result ≡ is_too_big before piece.now }
{
    is_past(MAX_LINE_LEN, MAX_INPUT_LEN, before, piece)
}
