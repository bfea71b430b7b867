//! What stands after some lines of a network's script.
use bsc_world::World;

/// What stands after some lines of a network's script: the network, its clock in milliseconds, and how many steps were made
/// and how many hubs and nodes were added.
#[derive(Drop)]
pub(crate) struct Simulation {
    pub(crate) world: World,
    pub(crate) clock: u64,
    pub(crate) steps: u64,
    pub(crate) hubs: u32,
    pub(crate) nodes: u32,
}
