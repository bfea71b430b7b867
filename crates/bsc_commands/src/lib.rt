//! The commands of `bsc`, over whatever they are handed: a source, a sink, files, a clock, links and threads.
//!
//! Start at `run`, which does what the words of the program ask for, and answers its status. `play` plays the lines of
//! `replay` and `check`. `Outside` is what they are handed. That is real in `main` of `bsc_program`: links over sockets are
//! those of `bsc_sockets`.
#![tactic(auto)]

mod load;
mod outside;
mod playing;
mod running;

pub use outside::Outside;
pub use playing::{Command, play};
pub use running::run;
