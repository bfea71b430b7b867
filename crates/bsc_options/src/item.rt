//! One header option.
use bsc_octets::Octets;

/// A header option (Annex AB, "Header Options").
#[derive(Debug, Drop)]
pub struct OptionItem {
    /// Must Understand, bit 6 of the marker.
    pub must: bool,
    /// The Header Option Type, bits 4 to 0 of the marker: 1 is Secure Path, 31 is Proprietary, 2 to 30 are
    /// not known here, and 0 is refused.
    pub kind: u8,
    /// The Header Data, where bit 5 of the marker is set: 0 to 65,535 octets. Secure Path has none, and
    /// Proprietary has at least three octets, two of the vendor and one of the vendor's own type.
    pub content: Option<Octets>,
}
