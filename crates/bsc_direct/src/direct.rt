//! The slots of direct connections.
ghost use Rattle.std.specs.Prelude.{◌≡◌, vec_len};
ghost use Rattle.bsc_direct.specs.declared.bounds.TheConstants.{SLOTS};

use crate::slot::Slot;

/// The slots of a node's direct connections, numbered from 0.
///
/// `claim` gives a slot to a connection that is dialled or accepted, `establish` says whether it is established once
/// its peer is known, and `release` comes when it is over.
#[derive(Drop)]
pub struct Direct {
    pub(crate) slots: Vec<Slot>,
    ghost all: { vec_len slots ≡ SLOTS },
}
