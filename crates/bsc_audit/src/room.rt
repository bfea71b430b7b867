//! Room in a vector, made by steps.
ghost use Rattle.std.specs.Prelude.{◌≡◌};

use crate::places::Spot;
use bsc_octets::NoMemory;

/// How much a vector grows by at least: a part of this of what it has. So what grows by steps takes at most a little
/// more than its octets, where a vector that doubles takes twice of them, and thrice while it is copied.
const STEP: usize = 8;

/// How many more to make room for, where `len` are there: `more`, and at least a step.
fn step_from(len: usize, more: usize) -> usize {
    more.max(len / STEP)
}

/// Makes room for some octets more.
pub(crate) fn room_for(octets: &mut Vec<u8>, more: usize) -> Result<(), NoMemory>
    ensures { octets.new.items ≡ octets.old.items }
{
    if octets.capacity() - octets.len() < more {
        octets.reserve_exact(step_from(octets.len(), more))?;
    }
    Ok(())
}

/// Makes room for a spot more.
pub(crate) fn room_for_one(spots: &mut Vec<Spot>) -> Result<(), NoMemory>
    ensures { spots.new.items ≡ spots.old.items }
{
    if spots.capacity() == spots.len() {
        spots.reserve_exact(step_from(spots.len(), 64))?;
    }
    Ok(())
}
