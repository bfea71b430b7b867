//! That the octets of what is noted are octets. The functions do nothing: a caller that calls one has its clause at hand.
ghost use Rattle.std.specs.Prelude.{ℕ};
ghost use Rattle.bsc_history.specs.declared.call.Call.TheVariants.{Connect};
ghost use Rattle.bsc_session.specs.Notes.Notes.{NoteHasOctets};
ghost use Rattle.bsc_session.specs.Notes.Noting.{entry_of, note_of};
ghost use Rattle.bsc_session.specs.Notes.Octets.{AreBelow256, CallHasOctets, DenialHasOctets, IsAddress};

use crate::notes::noted::{Made, Noted};
use bsc_lines::Denial;
use bsc_octets::{Identity, Vmac};

/// Octets are less than 256.
fn are_below_256(octets: &[u8])
    ensures { AreBelow256 octets.now }
{}

/// An address has six octets.
fn is_address(vmac: Vmac)
    ensures { IsAddress vmac }
{
    are_below_256(&vmac.0);
}

/// The 26 octets of an identity say it.
fn is_identity(who: &Identity)
    ensures { CallHasOctets (Connect who.now) }
{
    let octets = who.octets();
    are_below_256(&octets);
}

/// The octets of a denial are octets.
fn denial_has_octets(denial: Denial)
    ensures { DenialHasOctets denial }
{
    match denial {
        Denial::OfConnect(vmac) => is_address(vmac),
        Denial::OfPair { rule: _, from, to } => {
            is_address(from);
            is_address(to);
        }
    }
}

/// The octets of a call are octets.
fn call_has_octets(made: &Made<'_>)
    ensures { (n : ℕ) → CallHasOctets (entry_of n made.now).call }
{
    match made {
        Made::Joined { who, .. } => is_identity(who),
        Made::Refused { who, .. } => is_identity(who),
        Made::One { message, .. } => are_below_256(*message),
        Made::All { message, .. } => are_below_256(*message),
        Made::Left { .. } => (),
        Made::Stopped(_) => (),
    }
}

/// The octets of what is noted are octets.
pub(crate) fn has_octets(noted: &Noted<'_>)
    ensures { NoteHasOctets (note_of noted.now) }
{
    match noted {
        Noted::Entry { made, .. } => call_has_octets(made),
        Noted::Denied(denial) => denial_has_octets(*denial),
    }
}
