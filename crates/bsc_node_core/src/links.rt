//! The links of a node.
ghost use Rattle.std.specs.Prelude.{◌≡◌, vec_len};
ghost use Rattle.bsc_direct.specs.declared.bounds.TheConstants.{SLOTS};

use crate::link::Link;
use crate::touched::Touched;

/// The links of a node: those of its two hubs, and those in its slots.
#[derive(Drop)]
pub(crate) struct Links {
    pub(crate) primary: Link,
    pub(crate) failover: Link,
    pub(crate) slots: Vec<Link>,
    /// Which of them were touched since an event began.
    pub(crate) touched: Touched,
    ghost all: { vec_len slots ≡ SLOTS },
}
