//! What a hub is served by.

/// What a hub is served by: what takes its links, the clock of its sessions, what starts their jobs, and what begins their
/// journals.
#[derive(Drop)]
pub struct ServingParts<A, C, P, J> {
    /// What takes the links that peers make.
    pub acceptor: A,
    /// The clock: each session gets another of its meaning.
    pub clock: C,
    /// What starts the jobs of sessions.
    pub spawner: P,
    /// What begins the journals of sessions.
    pub journals: J,
}
