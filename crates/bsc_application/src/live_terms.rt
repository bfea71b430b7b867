//! By what terms a node is run for an application.

/// By what terms a node is run for an application.
#[derive(Clone, Copy)]
pub struct LiveTerms {
    /// Whether it accepts direct connections.
    pub listens: bool,
    /// How many turns it may make.
    pub turns: u64,
}
