//! Proprietary messages.
//!
//! | octets | field |
//! |---|---|
//! | 2 | vendor, the high octet first |
//! | 1 | the vendor's own function |
//! | any | data |
ghost use Rattle.std.specs.Prelude.{◌≡◌, ◌++◌, OnOk};
ghost use Rattle.bsc_frame.specs.Payloads.{proprietary_octets};
ghost use Rattle.bsc_frame.specs.Walk.{BodyAnswers};

use crate::body::Body;
use crate::check::Check;
use crate::fault::FrameFault;
use crate::number::put_number;
use crate::owned::owned;
use bsc_octets::{NoMemory, Octets};
use byteorder::{BigEndian, ByteOrder};
use std::alloc::Global;

/// How many octets a Proprietary-Message has before its data.
pub(crate) const FIXED_PART: usize = 3;

/// The Proprietary-Message that a payload says.
pub(crate) fn read_proprietary(alloc: Global, p: &[u8]) -> Result<Body, FrameFault>
    ensures { BodyAnswers 0x0C p.now result }
{
    if p.is_empty() {
        return Err(FrameFault::Fails(Check::C10));
    }
    if p.len() < FIXED_PART {
        return Err(FrameFault::Fails(Check::C10b));
    }
    Ok(Body::Proprietary {
        vendor: BigEndian::read_u16(p),
        function: p[2],
        content: owned(alloc, &p[FIXED_PART..])?,
    })
}

/// Puts the payload of a Proprietary-Message at the end.
pub(crate) fn put_proprietary(
    out: &mut Vec<u8>,
    vendor: u16,
    function: u8,
    content: &Octets,
) -> Result<(), NoMemory>
    ensures { OnOk result (out.new.items ≡ out.old.items ++ proprietary_octets vendor function content.now) }
{
    put_number(out, vendor)?;
    out.push(function)?;
    out.extend_from_slice(content.as_slice())?;
    Ok(())
}
