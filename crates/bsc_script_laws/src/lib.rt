//! Laws of scripts, in words of a hub: what the calls and the frames of a script's lines have in common with those of
//! any hub. The laws stand in `specs/Laws.antt` of `bsc_script`; here each is carried by a function that does nothing
//! (`laws`).
#![tactic(auto)]

mod laws;

pub use laws::{a_line_goes_on, a_script_is_of_one_hub};
