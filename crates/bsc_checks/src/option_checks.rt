//! The header options of a message: C7 to C9.
//!
//! `bsc_frame` makes C7, C7b and C8, which octets alone decide. What is understood here is asked last.
ghost use Rattle.std.specs.Prelude.{◌≤◌, ℕ, List, IfOk, IfSome, IfNone, length};
ghost use Rattle.bsc_options.specs.declared.item.OptionItem.{OptionItem};
ghost use Rattle.bsc_checks.specs.Table.{IsFirstNotUnderstood, HasOptionNotUnderstood};
ghost use Rattle.bsc_checks.specs.Walk.{IsHead, HasEnds, OptionsAnswer};
ghost use Rattle.bsc_checks.specs.declared.place.Place.{Place};

use crate::failed_check::FailedCheck;
use crate::understood::first_not_understood;
use bsc_frame::{Check, Ends, read_ends};
use bsc_octets::Envelope;

/// C9: the marker of the first destination option that has to be understood and is not.
fn not_understood(m: &[u8], head: &Envelope, ends: Ends) -> Option<u8>
    requires head { IsHead m.now head.now }
    requires ends { (xs : List OptionItem) × (ys : List OptionItem) × HasEnds m.now ends xs ys }
    ensures found { IfSome result (λ marker. IsFirstNotUnderstood m.now marker) }
    ensures none { IfNone result (¬ HasOptionNotUnderstood m.now) }
{
    first_not_understood(&m[head.rest_at..ends.dest])
}

/// Where the lists end, where none of C7 to C9 fails.
pub(crate) fn read_options(m: &[u8], head: &Envelope) -> Result<Ends, FailedCheck>
    requires head { IsHead m.now head.now }
    requires function { head.now.function ≤ 0x0C }
    ensures answer { (place : Place) (max : ℕ) → OptionsAnswer m.now place max result }
    ensures within { IfOk result (λ ends. ends.data ≤ length m.now) }
{
    let ends = match read_ends(m, head) {
        Ok(ends) => ends,
        Err(check) => return Err(FailedCheck::of(check)),
    };
    match not_understood(m, head, ends) {
        Some(marker) => Err(FailedCheck {
            check: Check::C9,
            marker,
        }),
        None => Ok(ends),
    }
}
