//! Advertisements: how a node says what it is connected to and what it takes.
ghost use Rattle.std.specs.Prelude.{◌≡◌, ◌++◌, OnOk};
ghost use Rattle.bsc_frame.specs.Payloads.{advert_octets};
ghost use Rattle.bsc_frame.specs.Walk.{BodyAnswers};

use crate::body::Body;
use crate::check::Check;
use crate::fault::FrameFault;
use crate::number::put_number;
use bsc_octets::NoMemory;
use byteorder::{BigEndian, ByteOrder};

/// The payload of an Advertisement (Annex AB, "Advertisement").
///
/// | octets | field |
/// |---|---|
/// | 1 | hub connection status |
/// | 1 | whether direct connections are accepted |
/// | 2 | maximum BVLC length, the high octet first |
/// | 2 | maximum NPDU length, the high octet first |
#[derive(Clone, Copy, Debug, PartialEq, Eq)]
pub struct Advert {
    /// The hub connection: 0, none; 1, the primary hub; 2, the failover hub.
    pub status: u8,
    /// Direct connections: 1 where they are accepted, 0 where not.
    pub accepts: u8,
    /// The longest message that the node takes, in octets.
    pub max_bvlc: u16,
    /// The longest NPDU that the node takes, in octets.
    pub max_npdu: u16,
}

/// How many octets an Advertisement has.
pub(crate) const FIXED_PART: usize = 6;

/// The Advertisement that a payload says.
pub(crate) fn read_advert(p: &[u8]) -> Result<Body, FrameFault>
    ensures { BodyAnswers 0x04 p.now result }
{
    if p.is_empty() {
        return Err(FrameFault::Fails(Check::C10));
    }
    if p.len() < FIXED_PART {
        return Err(FrameFault::Fails(Check::C10b));
    }
    if p.len() > FIXED_PART {
        return Err(FrameFault::Fails(Check::C10c));
    }
    let status = p[0];
    if status > 2 {
        return Err(FrameFault::Fails(Check::C11));
    }
    let accepts = p[1];
    if accepts > 1 {
        return Err(FrameFault::Fails(Check::C11));
    }
    Ok(Body::Advertisement(Advert {
        status,
        accepts,
        max_bvlc: BigEndian::read_u16(&p[2..]),
        max_npdu: BigEndian::read_u16(&p[4..]),
    }))
}

/// Puts the payload of an Advertisement at the end.
pub(crate) fn put_advert(out: &mut Vec<u8>, advert: &Advert) -> Result<(), NoMemory>
    ensures { OnOk result (out.new.items ≡ out.old.items ++ advert_octets advert.now) }
{
    out.push(advert.status)?;
    out.push(advert.accepts)?;
    put_number(out, advert.max_bvlc)?;
    put_number(out, advert.max_npdu)?;
    Ok(())
}
