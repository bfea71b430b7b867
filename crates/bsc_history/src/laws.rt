//! What holds of every legal history; some of it holds of any list of entries. The functions do nothing:
//! their contracts are the laws.
#![tactic(auto)]

ghost use Rattle.std.specs.Prelude.{◌≡◌, ◌^◌, List};
ghost use Rattle.bsc_history.specs.declared.limits.About.{About};
ghost use Rattle.bsc_history.specs.declared.entry.Entry.{Entry};
ghost use Rattle.bsc_history.specs.Legality.{Legal};
ghost use Rattle.bsc_history.specs.Laws.{NumbersInOrder, NumbersAreNew, OneHolder, OneOfDevice, UnicastJoins, UnicastToHolderAlone};
ghost use Rattle.bsc_history.specs.Laws.{BroadcastJoins, BroadcastToOthersAlone, AddsOnce, FullCloses, FullMisses, OneOfThree};
ghost use Rattle.bsc_history.specs.Laws.{NoneAfterEnd, JoinTakesOver, RefusalChangesNone, EndStays, EndsByCause, AddsAsNamed};
ghost use Rattle.bsc_history.specs.Laws.{LiveUntilEnded, WithinCapacity};
ghost use Rattle.bsc_history.specs.Entering.{EnterByForwards};
ghost use Rattle.bsc_history.specs.declared.limits.TheConstants.{MOST_CALLERS, MOST_CALLS, MOST_OCTETS, MOST_OUTBOX, MOST_ROWS};

/// Connections are numbered from 1, in the order of joining.
pub fn numbering()
    ensures { (a : About) (H : List Entry) → Legal a H → NumbersInOrder H }
{}

/// No two connections that haven't left have one number.
pub fn numbers_are_new()
    ensures { (a : About) (H : List Entry) → Legal a H → NumbersAreNew H }
{}

/// An address has at most one live connection.
pub fn one_holder()
    ensures { (a : About) (H : List Entry) → Legal a H → OneHolder H }
{}

/// A device has at most one live connection.
pub fn one_of_device()
    ensures { (a : About) (H : List Entry) → Legal a H → OneOfDevice H }
{}

/// A unicast joins the outbox of its destination's holder, where the holder takes it.
pub fn unicast_joins()
    ensures { (a : About) (H : List Entry) → Legal a H → UnicastJoins a H }
{}

/// A unicast joins no other outbox.
pub fn unicast_to_holder_alone()
    ensures { (a : About) (H : List Entry) → Legal a H → UnicastToHolderAlone a H }
{}

/// A broadcast joins the outbox of each live connection but its sender, where that one takes it.
pub fn broadcast_joins()
    ensures { (a : About) (H : List Entry) → BroadcastJoins a H }
{}

/// A broadcast joins no other outbox.
pub fn broadcast_to_others_alone()
    ensures { (a : About) (H : List Entry) → BroadcastToOthersAlone a H }
{}

/// A call adds at most one frame to an outbox, behind all that entered it.
pub fn once()
    ensures { (a : About) (H : List Entry) → AddsOnce a H }
{}

/// A unicast that finds its holder's outbox full ends that connection as Full, and nothing is added.
pub fn full_closes()
    ensures { (a : About) (H : List Entry) → Legal a H → FullCloses a H }
{}

/// A broadcast that finds an outbox full adds nothing to it, ends nobody, and names it as missed.
pub fn full_misses()
    ensures { (a : About) (H : List Entry) → FullMisses a H }
{}

/// Each live connection but the sender stands in exactly one of the three lists of a broadcast's reply.
pub fn one_of_three()
    ensures { (a : About) (H : List Entry) → Legal a H → OneOfThree a H }
{}

/// Nothing enters an ended outbox.
pub fn after_end()
    ensures { (a : About) (H : List Entry) → Legal a H → NoneAfterEnd a H }
{}

/// Who joins holds its address, and takes over from its device's live connection.
pub fn join_takes_over()
    ensures { (a : About) (H : List Entry) → Legal a H → JoinTakesOver a H }
{}

/// A refused connect changes nothing but its entry and its count.
pub fn refusal_changes_none()
    ensures { (a : About) (H : List Entry) → RefusalChangesNone a H }
{}

/// An End, once it stands, stands in every longer history, with the same cause.
pub fn end_stays()
    ensures { (H : List Entry) → EndStays H }
{}

/// A connection ends by its own leave, a join that replaced it, a unicast that found it full, or the
/// stop, and by nothing else.
pub fn ends_by_cause()
    ensures { (a : About) (H : List Entry) → Legal a H → EndsByCause H }
{}

/// A reply names exactly the outboxes that its call adds to.
pub fn naming()
    ensures { (a : About) (H : List Entry) → Legal a H → AddsAsNamed a H }
{}

/// A connection is live from its joining to its end.
pub fn until_end()
    ensures { (a : About) (H : List Entry) → Legal a H → LiveUntilEnded H }
{}

/// An outbox never holds more than its capacity, by the newest look at it.
pub fn within()
    ensures { (a : About) (H : List Entry) → Legal a H → WithinCapacity a H }
{}

/// Each frame of an outbox entered it by one Forward of a live sender that meant its connection, which was
/// live, under the sender's address.
pub fn frames_enter_by_forwards()
    ensures { (a : About) (H : List Entry) → Legal a H → EnterByForwards a H }
{}

/// A hub has 1,024 rows at most and outboxes of 1,024 frames, answers 2^52 calls of 2^62 callers, and its outboxes hold 2^30 octets.
pub fn a_hub_has_1024_rows()
    ensures rows { MOST_ROWS ≡ 1024 }
    ensures outbox { MOST_OUTBOX ≡ 1024 }
    ensures calls { MOST_CALLS ≡ 2 ^ 52 }
    ensures callers { MOST_CALLERS ≡ 2 ^ 62 }
    ensures octets { MOST_OCTETS ≡ 2 ^ 30 }
{}
