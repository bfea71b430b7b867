//! The language of scripts: what a line says, and what it does to a hub and the peers that the script names.
//!
//! Start at `specs/Running.antt`, which says what a line does after the lines before it, and at
//! `specs/States.antt`, which says what stands after some lines: the history of the calls, and of each open
//! name what its accepting machine was told and what was written for it. `read_line` (`src/reading.rt`) says
//! what a line means, a `ScriptHub` carries it out by `run_line` (`src/running.rt`), and `Script`
//! (`src/script.rt`) is the language as the player takes it.
#![tactic(auto)]

mod bounds;
mod carrying;
mod connecting;
mod counting;
mod due;
mod emptying;
mod forwarding;
mod holding;
mod hub_line;
mod laws;
mod line;
mod naming;
mod peer;
mod reading;
mod receiving;
mod replies;
mod running;
mod script;
mod script_hub;
mod stopping;
mod telling;
mod texts;
mod ticking;

pub use bounds::{CONNECT_WAIT_MS, DISCONNECT_WAIT_MS, HEARTBEAT_MS, MOST_NAMES};
pub use counting::{counts_line, put_counts};
pub use laws::{opens_2048_names, the_hub_waits_10_seconds};
pub use line::Line;
pub use reading::read_line;
pub use script::Script;
pub use script_hub::ScriptHub;
