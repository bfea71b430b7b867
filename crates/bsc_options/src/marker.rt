//! The marker of a header option, one octet.
//!
//! | bit | meaning |
//! |---|---|
//! | 7 | another option follows |
//! | 6 | must understand |
//! | 5 | header data are present |
//! | 4 to 0 | the type |
ghost use Rattle.std.specs.Prelude.{◌≡◌, ◌<◌, ◌/◌, ◌%◌, ◌==◌};
ghost use Rattle.bsc_options.specs.Spelling.{marker_of};

use crate::item::OptionItem;

/// Bit 7: another option follows.
const MORE: u8 = 0x80;

/// Bit 6: must understand.
const MUST: u8 = 0x40;

/// Bit 5: header data are present.
const DATA: u8 = 0x20;

/// Bits 4 to 0: the type.
const TYPE: u8 = 0x1F;

/// The type of Secure Path.
pub const SECURE_PATH: u8 = 1;

#[tactic(auto, using(crate::proofs::Markers::bit_tests))]
pub(crate) fn has_more(marker: u8) -> bool
    ensures { result ≡ (marker / 128 % 2 == 1) }
{
    marker & MORE != 0
}

/// Whether the option must be understood.
#[tactic(auto, using(crate::proofs::Markers::bit_tests))]
pub fn has_must(marker: u8) -> bool
    ensures { result ≡ (marker / 64 % 2 == 1) }
{
    marker & MUST != 0
}

/// Whether the option has data.
#[tactic(auto, using(crate::proofs::Markers::bit_tests))]
pub fn has_data(marker: u8) -> bool
    ensures { result ≡ (marker / 32 % 2 == 1) }
{
    marker & DATA != 0
}

/// The type of the option.
#[tactic(auto, using(crate::proofs::Markers::bit_tests))]
pub fn kind_in(marker: u8) -> u8
    ensures { result ≡ marker % 32 }
{
    marker & TYPE
}

/// The marker of an item.
pub(crate) fn marker_of(item: &OptionItem, follows: bool) -> u8
    requires { item.now.kind < 32 }
    ensures { result ≡ marker_of follows item.now }
{
    let mut marker = item.kind;
    if item.content.is_some() {
        marker |= DATA;
    }
    if item.must {
        marker |= MUST;
    }
    if follows {
        marker |= MORE;
    }
    marker
}
