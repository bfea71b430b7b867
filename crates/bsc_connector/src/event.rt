//! What a connector is told.
use crate::side::Side;

/// What a connector is told of its sides and of the time.
#[derive(Clone, Copy, Debug, PartialEq, Eq)]
pub enum ConnectorEvent {
    /// The node starts.
    Start,
    /// The hub of a side accepted.
    Connected(Side),
    /// An attempt at a side that was under way failed.
    Failed(Side),
    /// The connection of a side ended.
    Lost(Side),
    /// Time has passed.
    Tick,
}

/// What a connector is told, and when, in milliseconds.
#[derive(Clone, Copy, Debug, PartialEq, Eq)]
pub struct HubEvent {
    pub now: u64,
    pub event: ConnectorEvent,
}
