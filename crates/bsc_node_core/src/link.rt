//! What is kept of a link.
ghost use Rattle.std.specs.Prelude.{◌≡◌, true};
ghost use Rattle.bsc_node_core.specs.Machines.{is_fit};

use crate::machine::Machine;
use bsc_octets::Identity;

/// What is kept of a link.
#[derive(Clone, Copy, Debug)]
pub(crate) struct Link {
    pub(crate) machine: Machine,
    /// The peer of its newest connection, once it has named itself.
    pub(crate) peer: Option<Identity>,
    /// How often it began since its slot was claimed.
    pub(crate) tries: u64,
    ghost fit: { is_fit machine ≡ true },
}
