//! Where a message comes.
use crate::phase::Phase;
use bsc_octets::Vmac;

/// The connection that a message came on, as its receiver sees it.
#[derive(Clone, Copy, Debug, PartialEq, Eq)]
pub enum Place {
    /// At the hub, from a node.
    HubPort {
        phase: Phase,
    },
    /// At a node whose VMAC is `own`, from its hub.
    NodeHub {
        own: Vmac,
        phase: Phase,
    },
    /// At a node whose VMAC is `own`, from another node directly: from `peer`, once it is known.
    NodeDirect {
        own: Vmac,
        peer: Option<Vmac>,
        phase: Phase,
    },
}
