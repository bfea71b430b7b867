//! BVLC-Results: the answer to a request.
ghost use Rattle.std.specs.Prelude.{◌≡◌, ◌≤◌, ◌++◌, OnOk, length, slice_index};
ghost use Rattle.bsc_frame.specs.Payloads.{answer_octets};
ghost use Rattle.bsc_frame.specs.Walk.{BodyAnswers};

use crate::body::Body;
use crate::check::Check;
use crate::fault::FrameFault;
use crate::number::put_number;
use crate::owned::owned;
use crate::text::is_utf8;
use bsc_octets::{NoMemory, Octets, results};
use byteorder::{BigEndian, ByteOrder};
use std::alloc::Global;

/// The payload of a BVLC-Result (Annex AB, "BVLC-Result").
///
/// | octets | field |
/// |---|---|
/// | 1 | the function that is answered |
/// | 1 | result code: 00, ACK, and the payload ends here; 01, NAK |
/// | 1 | NAK: error header marker |
/// | 2 | NAK: error class, the high octet first |
/// | 2 | NAK: error code, the high octet first |
/// | any | NAK: details, in UTF-8 |
#[derive(Debug, Drop)]
pub enum Answer {
    /// The request was carried out.
    Ack {
        function: u8,
    },
    /// The request was refused. The marker is that of the header option at fault, 00 where none is.
    Nak {
        function: u8,
        marker: u8,
        class: u16,
        code: u16,
        details: Octets,
    },
}

/// How many octets an ACK has.
pub(crate) const ACK_PART: usize = 2;

/// How many octets a NAK has before its details.
pub const NAK_PART: usize = 7;

/// The BVLC-Result that a payload says.
pub(crate) fn read_answer(alloc: Global, p: &[u8]) -> Result<Body, FrameFault>
    ensures { BodyAnswers 0x00 p.now result }
{
    if p.len() < ACK_PART {
        return Err(FrameFault::Fails(Check::C10b));
    }
    match p[1] {
        results::ACK => read_ack(p),
        results::NAK => read_nak(alloc, p),
        _ => Err(FrameFault::Fails(Check::C11)),
    }
}

fn read_ack(p: &[u8]) -> Result<Body, FrameFault>
    requires long { 2 ≤ length p.now }
    requires code { slice_index p.now 1 ≡ 0 }
    ensures { BodyAnswers 0x00 p.now result }
{
    if p.len() > ACK_PART {
        return Err(FrameFault::Fails(Check::C10c));
    }
    Ok(Body::BvlcResult(Answer::Ack { function: p[0] }))
}

fn read_nak(alloc: Global, p: &[u8]) -> Result<Body, FrameFault>
    requires long { 2 ≤ length p.now }
    requires code { slice_index p.now 1 ≡ 1 }
    ensures { BodyAnswers 0x00 p.now result }
{
    if p.len() < NAK_PART {
        return Err(FrameFault::Fails(Check::C10b));
    }
    let details = &p[NAK_PART..];
    if !is_utf8(details) {
        return Err(FrameFault::Fails(Check::C11));
    }
    Ok(Body::BvlcResult(Answer::Nak {
        function: p[0],
        marker: p[2],
        class: BigEndian::read_u16(&p[3..]),
        code: BigEndian::read_u16(&p[5..]),
        details: owned(alloc, details)?,
    }))
}

/// Puts the payload of a BVLC-Result at the end.
pub(crate) fn put_answer(out: &mut Vec<u8>, answer: &Answer) -> Result<(), NoMemory>
    ensures { OnOk result (out.new.items ≡ out.old.items ++ answer_octets answer.now) }
{
    match answer {
        Answer::Ack { function } => {
            out.push(*function)?;
            out.push(results::ACK)?;
        }
        Answer::Nak {
            function,
            marker,
            class,
            code,
            details,
        } => {
            out.push(*function)?;
            out.push(results::NAK)?;
            out.push(*marker)?;
            put_number(out, *class)?;
            put_number(out, *code)?;
            out.extend_from_slice(details.as_slice())?;
        }
    }
    Ok(())
}
