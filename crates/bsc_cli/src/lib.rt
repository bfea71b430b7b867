//! The words of the program: which command they name, and what they say to it.
//!
//! Start at `specs/Words.antt`, which has each command as arguments of the kit's `clap`, and what words ask for. `reading`
//! has `read_words`, which is held to it, and `read` has words together with what that came to; `laws` has what lists of
//! words ask for whatever their paths are.
#![tactic(auto)]

mod arguments;
mod asked;
mod beside;
mod bounds;
mod fault;
mod laws;
mod read;
mod reading;

pub use asked::{Asked, JournalWords};
pub use beside::status_path;
pub use bounds::{LEAST_OCTETS, MOST_OCTETS, SESSIONS, WORKERS};
pub use fault::WordsFault;
pub use laws::{calls_for_help_are_refused, listed_words_are_taken, plain_words_are_listed};
pub use read::ReadWords;
pub use reading::read_words;
