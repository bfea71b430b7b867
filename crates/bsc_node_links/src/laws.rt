//! What is proved of the talks of a node's links, each law carried by a function that does nothing.
ghost use Rattle.std.specs.Prelude.{◌≡◌, List, Some};
ghost use Rattle.bsc_node_run.specs.Drawing.{Draws};
ghost use Rattle.bsc_node_links.specs.Stopped.{StoppedLinksTell, StoppedRunsHaveLogs, StoppedScriptsHaveLogs};
ghost use Rattle.bsc_node_links.specs.Telling.{AreUntold, CameFresh, LinksAreFresh, LinksCameFresh, LinksTell};
ghost use Rattle.bsc_node_links.specs.Using.{RunsUseLinks, ScriptRunsUseLinks};

use bsc_edge::{Acceptor, Dialer, Link};
use bsc_node_run::Words;

/// The links of a run of the definition of a node are used as the log of that node says: each gave just the messages that the log
/// says it gave, and the first of those that the log says were put on it were put on it.
pub fn runs_use_links<L: Link>()
    ensures { RunsUseLinks L.talk }
{}

/// So are those of a run of a node by the text of a script, whichever words it draws.
pub fn script_runs_use_links<L: Link, W: Words>()
    ensures { ScriptRunsUseLinks L.talk (Draws W.gives W.faults) }
{}

/// A run of the definition of a node that a fault stopped has a log: that of a node to which events came, each of which might come, the
/// last one with all that follows from it. Each link gave just the messages that this log says, and the first of those that it says were
/// put on it were put on it; and the dialer was called at the first of its lines that dial.
pub fn stopped_runs_have_logs<L: Link>()
    ensures { StoppedRunsHaveLogs L.talk }
{}

/// So has one by the text of a script, whichever words its node draws.
pub fn stopped_scripts_have_logs<L: Link, W: Words>()
    ensures { StoppedScriptsHaveLogs L.talk (Draws W.gives W.faults) }
{}

/// Where the links of such a run had told nothing when they came, all that each tells at last is what that log says of it.
pub fn stopped_links_tell<L: Link>()
    ensures { StoppedLinksTell L.talk }
{}

/// Links that had told nothing when they came tell at last what the log of their node says: each gave just the messages that the log
/// has, and the first of those that the log says were put were put on it.
pub fn links_tell<L: Link>()
    ensures { LinksTell L.talk }
{}

/// Where dialer and acceptor tell what they have left, and had left only links that had told nothing, each link that came had told
/// nothing.
pub fn links_are_fresh<L: Link>()
    ensures { LinksAreFresh L.talk }
{}

/// Each link that came had told nothing, too, where dialer and acceptor tell which links came, and each of these had told nothing when
/// it came.
pub fn links_came_fresh<L: Link>()
    ensures { LinksCameFresh L.talk }
{}

/// So it is of what came from a dialer that tells it, and whose links tell nothing when they come.
pub fn dialled_came_fresh<L: Link, D: Dialer<L>>(dialer: &D)
    ensures { AreUntold L.talk D.fresh → (links : List L) → D.came dialer.now ≡ Some links → CameFresh L.talk (D.came dialer.now) }
{}

/// And of what came from an acceptor.
pub fn arrived_came_fresh<L: Link, A: Acceptor<L>>(acceptor: &A)
    ensures { AreUntold L.talk A.fresh → (links : List L) → A.came acceptor.now ≡ Some links → CameFresh L.talk (A.came acceptor.now) }
{}
