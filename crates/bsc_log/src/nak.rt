//! The NAK of a Connect-Request, read from the octets that a hub puts.
ghost use Rattle.std.specs.Prelude.{◌≡◌, None, IfSome};
ghost use Rattle.bsc_log.specs.Naks.{IsNak, nak_octets};
ghost use Rattle.bsc_log.specs.declared.nak.Nak.{Nak as NakType};

use bsc_octets::{function, results};
use byteorder::{BigEndian, ByteOrder};

/// So many octets stand before the payload of a message without addresses and options.
const HEAD: usize = 4;

/// So many octets are the payload of a NAK without details.
const PAYLOAD: usize = 7;

/// What the NAK of a Connect-Request says.
#[derive(Clone, Copy, Debug, PartialEq, Eq)]
pub struct Nak {
    /// The marker of the header option at fault, and 0 where none is.
    pub marker: u8,
    /// The error class.
    pub class: u16,
    /// The error code.
    pub code: u16,
}

/// The NAK that a payload says, where it is one of a Connect-Request.
fn nak_by(p: &[u8]) -> Option<Nak>
    ensures found { IfSome result (λ nak. nak_octets nak ≡ p.now) }
    ensures none { result ≡ None → (nak : NakType) → ¬ (p.now ≡ nak_octets nak) }
{
    if p.len() != PAYLOAD {
        return None;
    }
    if p[0] != function::CONNECT_REQUEST {
        return None;
    }
    if p[1] != results::NAK {
        return None;
    }
    Some(Nak {
        marker: p[2],
        class: BigEndian::read_u16(&p[3..]),
        code: BigEndian::read_u16(&p[5..]),
    })
}

/// The NAK of a Connect-Request that these octets are, if they are one.
pub(crate) fn nak_in(m: &[u8]) -> Option<Nak>
    ensures found { IfSome result (λ nak. IsNak m.now nak) }
    ensures none { result ≡ None → (nak : NakType) → ¬ IsNak m.now nak }
{
    if m.len() != HEAD + PAYLOAD {
        return None;
    }
    if m[0] != function::BVLC_RESULT {
        return None;
    }
    if m[1] != 0 {
        return None;
    }
    nak_by(&m[HEAD..])
}
