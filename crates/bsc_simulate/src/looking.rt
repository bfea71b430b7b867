//! What a line is looked at for before it is carried out.
ghost use Rattle.std.specs.Prelude.{◌≡◌};
ghost use Rattle.bsc_network_script.specs.Scripts.{names_one, may_be_hub, may_add_hub, may_add_node, may_set, is_sendable, has_content, may_try};

use bsc_network::{NODES, STEPS, WorldStep};
use bsc_node::NodeEvent;
use bsc_octets::{Identity, LEAST_BVLC, Vmac};
use bsc_text::LATEST;

/// The most hubs of a network.
const MOST_HUBS: u32 = 2;

/// Whether a VMAC may name one node.
fn names_one(vmac: Vmac) -> bool
    ensures { result ≡ names_one vmac }
{
    vmac != Vmac::ZERO && vmac != Vmac::BROADCAST
}

/// Whether a hub may have this identity.
fn may_be_hub(who: &Identity) -> bool
    ensures { result ≡ may_be_hub who.now }
{
    names_one(who.vmac) && who.max_bvlc >= LEAST_BVLC && who.max_npdu >= 1
}

/// Whether a hub may be added once so many steps were made and so many hubs were added.
pub(crate) fn may_add_hub(made: u64, hubs: u32, who: &Identity) -> bool
    ensures { result ≡ may_add_hub made hubs who.now }
{
    made == 0 && hubs < MOST_HUBS && may_be_hub(who)
}

/// Whether a node may be added once so many steps were made, and so many hubs and nodes were added.
pub(crate) fn may_add_node(made: u64, hubs: u32, nodes: u32, own: &Identity) -> bool
    ensures { result ≡ may_add_node made hubs nodes own.now }
{
    made == 0 && hubs >= 1 && nodes < NODES && names_one(own.vmac)
}

/// Whether the clock may be set to this time.
pub(crate) fn may_set(hubs: u32, clock: u64, ms: u64) -> bool
    ensures { result ≡ may_set hubs clock ms }
{
    hubs >= 1 && clock <= ms && ms <= LATEST
}

/// Whether an event may come to a node: what is sent has an octet, and a destination.
fn is_sendable(event: &NodeEvent) -> bool
    ensures { result ≡ is_sendable event.now }
{
    match event {
        NodeEvent::Send { dest, npdu } => npdu.len() >= 1 && *dest != Vmac::ZERO,
        _ => true,
    }
}

/// Whether a step has what a step needs.
fn has_content(step: &WorldStep) -> bool
    ensures { result ≡ has_content step.now }
{
    match step {
        WorldStep::Node { event, .. } => is_sendable(event),
        _ => true,
    }
}

/// Whether a step may be tried once so many were made.
pub(crate) fn may_try(made: u64, step: &WorldStep) -> bool
    ensures { result ≡ may_try made step.now }
{
    made < STEPS && has_content(step)
}
