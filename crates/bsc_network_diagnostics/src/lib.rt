//! Which rule a refused line of a network's script breaks.
//!
//! `why_network_line` (`src/form.rt`) is of a line that has no form of one, `why_network_place` (`src/place.rt`) of one that may
//! not stand behind the lines before it. Whether a link is there is left to the caller, who can play these lines: nothing is
//! played here.
#![tactic(auto)]

mod form;
mod misplaced;
mod place;

pub use form::why_network_line;
pub use misplaced::Misplaced;
pub use place::why_network_place;
