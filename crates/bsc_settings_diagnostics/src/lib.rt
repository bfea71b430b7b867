//! Why settings are refused: the value of a key and what it takes, a key or a table that is unknown, or a text that is no TOML.
//!
//! Start at `why_settings` (`src/settings.rt`). The ranges of numbers that are told are those of the tables of keys of
//! `bsc_settings`, as `ranges_are_told` says (`src/laws.rt`).
#![tactic(auto)]

mod key_range;
mod laws;
mod settings;
mod unknown;

pub use laws::ranges_are_told;
pub use settings::why_settings;
