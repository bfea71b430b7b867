//! The runs, by subject.
mod ended;
mod hubs;
mod peers;
mod refused;
mod renewed;

pub use ended::ENDED;
pub use hubs::HUBS;
pub use peers::PEERS;
pub use refused::REFUSED;
pub use renewed::RENEWED;
