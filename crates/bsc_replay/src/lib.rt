//! The commands that play lines: each is a language of the player.
//!
//! `replay`, in `src/script.rt`, plays a script: what a hub, and the peers that the script names, say to one
//! another. What a script comes to is `replay_of` in `specs/Scripts.antt` of `bsc_script`, whose `Script` carries
//! out each line. The loop that reads, cuts, collects and writes is `play_lines` of `bsc_player`.
//!
//! `check`, in `src/checks.rt`, answers questions on messages. A line is `PLACE PHASE MAX OCTETS`, and asks what
//! becomes of these octets at that place in that phase, where messages have at most MAX octets. What it says is
//! `line_of` in `specs/Asking.antt`, which `read_line` (`src/line.rt`) reads; the line of a verdict is
//! `verdict_line` in `specs/Answering.antt`, which `put_verdict` (`src/answering.rt`) writes; and what a whole
//! input comes to is `check_of` in `specs/Checks.antt`.
#![tactic(auto)]

mod answering;
mod checks;
mod line;
mod places;
mod script;

pub use answering::put_verdict;
pub use bsc_player::PlayEnd as ReplayEnd;
pub use bsc_script::counts_line;
pub use checks::check;
pub use line::{Line, read_line};
pub use script::replay;
