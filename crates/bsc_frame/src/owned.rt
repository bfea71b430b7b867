//! Octets in memory of their own.
ghost use Rattle.std.specs.Prelude.{◌≡◌, IfOk};

use bsc_octets::{NoMemory, Octets};
use std::alloc::Global;

/// A copy of the octets.
pub(crate) fn owned(alloc: Global, octets: &[u8]) -> Result<Octets, NoMemory>
    ensures { IfOk result (λ o. o ≡ octets.now) }
{
    Ok(Octets::from_vec(Vec::from_slice(alloc, octets)?))
}
