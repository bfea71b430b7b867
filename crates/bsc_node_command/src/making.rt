//! Making a node by its settings.
ghost use Rattle.std.specs.Prelude.{◌≡◌, [], IfOk};
ghost use Rattle.bsc_node_core.specs.Node.{NodeStands};
ghost use Rattle.bsc_node_command.specs.Comes.{made_by, node_limits_of};

use crate::running_node::RunningNode;
use bsc_node::NodeLimits;
use bsc_node_core::Node;
use bsc_octets::{NoMemory, Octets};
use bsc_settings::NodeSettings;
use std::alloc::Global;

/// A text that may be missing, in memory of its own.
fn copy_if(alloc: Global, text: &Option<Octets>) -> Result<Option<Octets>, NoMemory>
    ensures { IfOk result (λ o. o ≡ text.now) }
{
    match text {
        Some(text) => Ok(Some(text.copy(alloc)?)),
        None => Ok(None),
    }
}

/// The settings of a node as its code takes them.
fn limits_of(alloc: Global, settings: &NodeSettings) -> Result<NodeLimits, NoMemory>
    ensures { IfOk result (λ l. l ≡ node_limits_of settings.now) }
{
    let primary = settings.primary.copy(alloc)?;
    let failover = copy_if(alloc, &settings.failover)?;
    let uris = copy_if(alloc, &settings.direct_uris)?;
    Ok(NodeLimits {
        times: settings.times(),
        primary,
        failover,
        uris,
        least_wait: settings.least_reconnect_ms,
        greatest_wait: settings.greatest_reconnect_ms,
    })
}

/// A node of these settings, to which nothing came yet.
pub(crate) fn make_node(alloc: Global, settings: &NodeSettings) -> Result<RunningNode, NoMemory>
    ensures { IfOk result (λ n. NodeStands n.node (made_by settings.now) []) }
{
    let limits = limits_of(alloc, settings)?;
    let node = Node::make(alloc, settings.identity(), limits)?;
    Ok(RunningNode { node })
}
