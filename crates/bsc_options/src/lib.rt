//! Header options of a BVLC-SC message, from octets to a list and back.
//!
//! A list is not empty. Each item of it has these octets:
//!
//! | octets | meaning |
//! |---|---|
//! | 1 | marker: bit 7, another item follows; bit 6, must understand; bit 5, data are present; bits 4 to 0, the type |
//! | 2, where bit 5 is set | the length of the data, the high octet first |
//! | as many as that | the data |
//!
//! Start at `item` (what an item is), then `reading` and `writing`. The octets of a list are defined once,
//! as `spelling_of` in `specs/Spelling.antt`, and what reads them and what writes them are both held to
//! that. This crate stands on `bsc_octets`, and on `byteorder` for the length.
#![tactic(auto)]

mod checking;
mod fault;
mod first;
mod item;
mod laws;
mod marker;
mod options;
mod reading;
mod writing;

pub use checking::{check_options, options_end};
pub use fault::OptionsFault;
pub use item::OptionItem;
pub use laws::{one_spelling, reads_back};
pub use marker::{SECURE_PATH, has_data, has_must, kind_in};
pub use options::Options;
pub use reading::read_options;
pub use writing::write_options;
