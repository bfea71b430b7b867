//! What is proved of the links of a node that was run, carried by functions that do nothing.
ghost use Rattle.bsc_node_run.specs.Drawing.{Draws};
ghost use Rattle.bsc_node_command.specs.Ran.{RanNodesTell, RanNodesUseLinks, StoppedNodesTell, StoppedNodesUseLinks};

use bsc_edge::Link;
use bsc_node_run::Words;

/// Where the run of a node came to its end, with status 0 or 8, its links were used as the log of that run says: each gave just the
/// messages that the log says it gave, and the first of those that the log says were put on it were put on it.
pub fn ran_nodes_use_links<L: Link, W: Words>()
    ensures { RanNodesUseLinks L.talk (Draws W.gives W.faults) }
{}

/// Where a fault stopped it, with status 4, 6 or 7, it has a log: that of a node to which events came, the last one with all that follows
/// from it. Its links were used as that says: each gave just the messages that it says it gave, and the first of those that it says were
/// put on it were put on it.
pub fn stopped_nodes_use_links<L: Link, W: Words>()
    ensures { StoppedNodesUseLinks L.talk (Draws W.gives W.faults) }
{}

/// And where each link that came from dialer and acceptor had told nothing when it came, what each tells at last is what that log says
/// of it.
pub fn stopped_nodes_tell<L: Link, W: Words>()
    ensures { StoppedNodesTell L.talk (Draws W.gives W.faults) }
{}

/// Where it came to its end, and each link that came from dialer and acceptor had told nothing when it came, what each tells at last is
/// what the log says of it.
pub fn ran_nodes_tell<L: Link, W: Words>()
    ensures { RanNodesTell L.talk (Draws W.gives W.faults) }
{}
