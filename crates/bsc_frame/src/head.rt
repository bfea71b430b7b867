//! The envelope of a message, and what can be wrong with it.
ghost use Rattle.bsc_octets.specs.Envelopes.{SpellsEnvelope, HasWholeAddresses};
ghost use Rattle.bsc_frame.specs.Walk.{HeadAnswers};

use crate::check::Check;
use bsc_octets::{Envelope, EnvelopeFault, control, function, read_envelope};

/// The envelope of a message, where no check of it fails: C1, C3, C5, C6.
pub(crate) fn read_head(m: &[u8]) -> Result<Envelope, Check>
    ensures { HeadAnswers m.now result }
{
    match read_envelope(m) {
        Err(EnvelopeFault::Short) => Err(Check::C1),
        Err(EnvelopeFault::Cut) => Err(Check::C3),
        Ok(envelope) => known(m, envelope),
    }
}

/// The envelope, where none of its flags is reserved and its function is known.
fn known(m: &[u8], envelope: Envelope) -> Result<Envelope, Check>
    requires spells { SpellsEnvelope envelope m.now }
    requires whole { HasWholeAddresses envelope }
    ensures { HeadAnswers m.now result }
{
    if envelope.flags > control::FLAGS {
        return Err(Check::C5);
    }
    if envelope.function > function::PROPRIETARY_MESSAGE {
        return Err(Check::C6);
    }
    Ok(envelope)
}
