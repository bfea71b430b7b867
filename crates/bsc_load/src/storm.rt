//! A storm on a hub: two workers take over from each other again and again, and a third forwards to their address
//! meanwhile.
//!
//! Start at `specs/Storm/Workers.antt`, which says what the workers ask of a hub, and `specs/Storm/Storms.antt`, which says what
//! `storm_on` says by its answer. `staying` and `sending` have what a worker does, `working` gives each a thread, and
//! `storm` gives each a pass, joins them and stops the hub.

mod bounds;
mod ends;
mod peers;
mod sending;
mod staying;
mod storm;
mod working;
mod works;

pub use bounds::TAKES;
pub use ends::StormEnd;
pub use storm::storm_on;
