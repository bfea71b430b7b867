//! A whole message.
use crate::body::Body;
use bsc_octets::Vmac;
use bsc_options::Options;

/// A BVLC-SC message (Annex AB, "General BVLC Message Format").
///
/// | octets | field |
/// |---|---|
/// | 1 | BVLC function: that of the body |
/// | 1 | control flags: bit 3, an Originating address follows; bit 2, a Destination; bit 1, destination options; bit 0, data options; the others are clear |
/// | 2 | Message ID, the high octet first |
/// | 0 or 6 | Originating Virtual Address |
/// | 0 or 6 | Destination Virtual Address |
/// | any | destination options |
/// | any | data options |
/// | any | payload: that of the body |
#[derive(Debug, Drop)]
pub struct Message {
    /// The Message ID. A response has that of its request.
    pub id: u16,
    /// The Originating Virtual Address, where one is present.
    pub origin: Option<Vmac>,
    /// The Destination Virtual Address, where one is present.
    pub dest: Option<Vmac>,
    /// The destination options. An empty list stands for a clear flag and no octets.
    pub dest_options: Options,
    /// The data options, on an Encapsulated-NPDU and a Proprietary-Message alone. An empty list stands for a
    /// clear flag and no octets.
    pub data_options: Options,
    /// The function and its payload.
    pub body: Body,
}
