//! Finding lines, by their numbers.
ghost use Rattle.std.specs.Prelude.{◌≡◌, ◌≤◌, ◌+◌, ◌^◌, [], ◌∷◌, length, IfSome, MatchOption};
ghost use Rattle.bsc_journal.specs.Journals.{lines_of};
ghost use Rattle.bsc_audit_diagnostics.specs.Sought.{is_number, is_sought, numbers_from};

use crate::sought::Sought;
use bsc_diagnostics::next_line;
use bsc_text::{next_word, read_number};

/// Whether a number, if there is one, is that of a place.
fn is_number(place: u64, number: Option<u64>) -> bool
    ensures { result ≡ is_number place number }
{
    match number {
        Some(n) => n == place,
        None => false,
    }
}

/// Whether a line is sought.
pub(crate) fn is_sought(sought: Sought, line: &[u8]) -> bool
    ensures { result ≡ is_sought sought line.now }
{
    let Some((word, _)) = next_word(line) else {
        return false;
    };
    match sought {
        Sought::Hub => word == b"hub".as_slice(),
        Sought::Place { place } => is_number(place, read_number(word)),
    }
}

/// The number of the first line of a text that is sought, where the text begins with the line `number`, and what comes behind
/// it.
pub(crate) fn next_sought(mut text: &[u8], mut number: u64, sought: Sought) -> Option<(u64, &[u8])>
    requires { number + length text.now ≤ 2 ^ 63 }
    ensures found { MatchOption result
        (numbers_from sought number (lines_of text.entry.now) ≡ [])
        (λ (n, rest). numbers_from sought number (lines_of text.entry.now) ≡ n ∷ numbers_from sought (n + 1) (lines_of rest.now)) }
    ensures few { IfSome result (λ (n, rest). n + 1 + length rest.now ≤ 2 ^ 63) }
{
    while let Some((line, rest)) = next_line(text) {
        if is_sought(sought, line) {
            return Some((number, rest));
        }
        number += 1;
        text = rest;
    }
    None
}
