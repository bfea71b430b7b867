//! What becomes of a message at its place: it passes, the hub carries it on, it is dropped in silence, or a NAK
//! answers it.
//!
//! Start at `place` (where and when a message comes) and `verdict`, then `judging`. The checks stand in one
//! table, `specs/Table.antt`: what each finds wrong, in which order they are made, and which code each gives.
//! `specs/Verdicts.antt` says which verdict a message has. Each check that octets alone don't decide has a function of
//! its own here; of the others `bsc_frame` has the rules. `specs/Outcomes.antt` computes the verdict from the octets, for scripts, lines and machines that are
//! defined as total functions, and `laws` holds the two together. This crate stands on `bsc_frame` for the checks
//! that octets alone decide, on `bsc_options` and `bsc_octets` below it, and on `arrayvec` for the octets of a NAK.
#![tactic(auto)]

mod addresses;
mod failed_check;
mod functions;
mod head;
mod judging;
mod laws;
mod nak;
mod option_checks;
mod phase;
mod place;
mod putting;
mod understood;
mod verdict;

pub use bsc_frame::{Check, Message};
pub use bsc_octets::Envelope;
pub use judging::judge;
pub use laws::{one_outcome, one_verdict};
pub use phase::Phase;
pub use place::Place;
pub use putting::{put, put_number};
pub use verdict::Verdict;
