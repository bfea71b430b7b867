//! The head of a message: C1 to C4.
ghost use Rattle.std.specs.Prelude.{◌≡◌, Ok};
ghost use Rattle.bsc_octets.specs.Envelopes.{SpellsEnvelope, HasWholeAddresses, envelope_of};
ghost use Rattle.bsc_checks.specs.Walk.{HeadAnswers, PlacedAnswers};

use crate::addresses::has_wrong_addresses;
use crate::place::Place;
use bsc_frame::Check;
use bsc_octets::{Envelope, read_envelope};

/// How many octets every message has: function, flags and ID.
const LEAST: usize = 4;

/// The envelope, where its addresses are right for the place: C4.
fn placed(m: &[u8], head: Envelope, place: &Place) -> Result<Envelope, Check>
    requires spells { SpellsEnvelope head m.now }
    requires whole { HasWholeAddresses head }
    requires read { envelope_of m.now ≡ Ok head }
    ensures { PlacedAnswers m.now place.now result }
{
    if has_wrong_addresses(place, &head) {
        return Err(Check::C4);
    }
    Ok(head)
}

/// The envelope of a message, where none of C1 to C4 fails. None of these is answered by a NAK.
pub(crate) fn read_head(m: &[u8], place: &Place, max: u16) -> Result<Envelope, Check>
    ensures { HeadAnswers m.now place.now max result }
{
    if m.len() < LEAST {
        return Err(Check::C1);
    }
    if m.len() > usize::from(max) {
        return Err(Check::C2);
    }
    match read_envelope(m) {
        Ok(head) => placed(m, head, place),
        Err(_) => Err(Check::C3),
    }
}
