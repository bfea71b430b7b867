//! Text by lines and words: where it is cut, and what a word may be.
//!
//! Start at `feed`, which gives the lines of a source, and at `words`, which gives the words of a line. `pieces` says
//! where the pieces of a text end, which line a piece holds, and whether it is too big; `grammar` says which words are numbers, addresses,
//! devices, octets and names. Scripts of every kind are read by these.
#![tactic(auto)]

mod bounds;
mod feed;
mod grammar;
mod laws;
mod octets;
mod pieces;
mod text;
mod words;

pub use bounds::{CHUNK_LEN, LATEST, MAX_INPUT_LEN, MAX_LINE_LEN, MAX_NAME_LEN};
pub use feed::{Feed, NextLine};
pub use grammar::{
    is_name, read_device, read_identity_words, read_maximum, read_number, read_vmac,
};
pub use laws::lines_have_140_000_octets;
pub use octets::{OctetsFault, copy_of, read_octets};
pub use pieces::{first_lf, is_past, is_too_big, lf_at, line_in};
pub use text::Text;
pub use words::{begins_comment, joined, next_word};
