//! Laws of the definition of a node, each carried by a function that does nothing.
ghost use Rattle.bsc_node.specs.Logs.{Made};
ghost use Rattle.bsc_node.specs.Laws.{NpdusArePutOnce, DeliversWhatCame, DrawsLast, BroadcastsKeepOffSlots, SlotsKeepApart};

/// An Encapsulated-NPDU is put for a Send alone, at most once, and on the path that holds then.
pub fn npdus_are_put_once()
    ensures { (a : Made) → NpdusArePutOnce a }
{}

/// A node delivers at most the one message that came.
pub fn delivers_what_came()
    ensures { (a : Made) → DeliversWhatCame a }
{}

/// A word is drawn at most once at an event, and as the last of its actions.
pub fn draws_last()
    ensures { (a : Made) → DrawsLast a }
{}

/// The path of a broadcast is never a direct connection.
pub fn broadcasts_keep_off_slots()
    ensures { (a : Made) → BroadcastsKeepOffSlots a }
{}

/// No two established slots have the same VMAC or the same device.
pub fn slots_keep_apart()
    ensures { (a : Made) → SlotsKeepApart a }
{}
