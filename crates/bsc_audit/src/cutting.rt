//! Parts of octets, and which lines of journals are too big.
ghost use Rattle.std.specs.Prelude.{◌≡◌, ◌+◌, ◌≤◌, ◌<◌, ◌⊎◌, length, take, drop, true, false};
ghost use Rattle.bsc_journal.specs.Good.{is_too_big};

use bsc_journal::{MOST_IN_ALL, MOST_IN_LINE};
use bsc_text::is_past;

/// The octets from one place to another.
pub(crate) fn between(octets: &[u8], from: usize, to: usize) -> &[u8]
    requires order { from ≤ to }
    requires within { to ≤ length octets.now }
    ensures { result.now ≡ drop from (take to octets.now) }
{
    &octets[from..to]
}

/// The octets from one place on.
pub(crate) fn after(octets: &[u8], from: usize) -> &[u8]
    requires { from ≤ length octets.now }
    ensures { result.now ≡ drop from octets.now }
{
    &octets[from..]
}

/// Whether a piece of a journal that stands after `before` octets is too big.
pub(crate) fn is_too_big(before: usize, piece: &[u8]) -> bool
    requires { before ≤ MOST_IN_ALL }
    ensures big { result ≡ is_too_big before piece.now }
    ensures fits { result ≡ false → before + length piece.now ≤ MOST_IN_ALL }
{
    is_past(MOST_IN_LINE, MOST_IN_ALL as u64, before as u64, piece)
}

/// Whether `len` octets without an LF are already too many: then each piece that begins with them is too big.
pub(crate) fn cannot_fit(before: usize, len: usize) -> bool
    requires { before ≤ MOST_IN_ALL }
    ensures cannot { result ≡ true → (MOST_IN_LINE + 1 < len) ⊎ (MOST_IN_ALL < before + len) }
    ensures may { result ≡ false → before + len ≤ MOST_IN_ALL }
{
    len > MOST_IN_LINE + 1 || MOST_IN_ALL - before < len
}

/// How many octets more may be read behind `len`: as many as all journals may have, and one that is past them.
pub(crate) fn room_behind(len: usize) -> usize
    requires { len ≤ MOST_IN_ALL }
    ensures { result + len ≡ MOST_IN_ALL + 1 }
{
    MOST_IN_ALL + 1 - len
}
