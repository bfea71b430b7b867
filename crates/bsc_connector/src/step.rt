//! What a connector does.

/// What a connector does when it is told something.
#[derive(Clone, Copy, Debug, PartialEq, Eq)]
pub struct ConnectorStep {
    /// The primary hub is dialled.
    pub dial_primary: bool,
    /// The failover is dialled.
    pub dial_failover: bool,
    /// The failover, connected or under way, is dropped.
    pub drop_failover: bool,
}
