//! The language of the scripts of networks: what a line says, and what a whole script comes to.
//!
//! Start at `simulate_of` in `specs/Scripts.antt`. A line adds a hub or a node, sets the clock, or makes a step; what it says is
//! `line_of` in `specs/Lines.antt`, which `read_line` (`src/reading.rt`) reads. The lines that are written are in
//! `specs/Written.antt`. `bsc_simulate` plays scripts.
#![tactic(auto)]

mod laws;
mod limits;
mod line;
mod reading;

pub use laws::{hubs_have_256_rows, nodes_take_1600_octets, tries_2_to_the_63_steps};
pub use limits::{MAX_BVLC, MAX_NPDU, OUTBOX, ROWS};
pub use line::Line;
pub use reading::read_line;
