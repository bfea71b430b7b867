//! What holds of each session, carried by functions that do nothing.
ghost use Rattle.std.specs.Prelude.{ℕ, List};
ghost use Rattle.bsc_history.specs.declared.entry.Entry.{Entry};
ghost use Rattle.bsc_edge.specs.declared.said.Said.{Said};
ghost use Rattle.bsc_session.specs.declared.ended.Ended.{Ended};
ghost use Rattle.bsc_port.specs.declared.event.PortEvent.{PortEvent};
ghost use Rattle.bsc_session.specs.Standings.{Standing, Terms};
ghost use Rattle.bsc_session.specs.Talk.{Session, journal_of};
ghost use Rattle.bsc_session_laws.specs.Laws.{ConnectsAreAsked, ForwardsAreCarried, FramesFollowAccept, MessagesAreGiven};
ghost use Rattle.bsc_session_laws.specs.Npdus.{NpdusAreTaken};
ghost use Rattle.bsc_session_laws.specs.Policies.{PolicyIsFollowed};
ghost use Rattle.bsc_session_laws.specs.Ports.{FollowsEvent, FollowsPort};

/// The messages of a session that are judged are those that its link gave, in order.
pub fn messages_are_given()
    ensures { (v : Terms) (T : List Said) (R : List ℕ) (E : List Entry) (frames : List (List ℕ)) (ended : Ended) →
        (x : Session v T R E frames ended) → MessagesAreGiven v T x.course }
{}

/// The Forwards of a session are the messages that came, are to be carried on and aren't denied, in order: all of them, or all
/// but the last thing that the link gave, where the hub was worn or memory ran out in its call. Without a policy nothing is
/// denied. All are of the session's connection. A line that wasn't put into the journal changes nothing of it.
pub fn forwards_are_carried()
    ensures { (v : Terms) (T : List Said) (R : List ℕ) (E : List Entry) (frames : List (List ℕ)) (ended : Ended) →
        (x : Session v T R E frames ended) → ForwardsAreCarried v E ended x.course }
{}

/// The Connects of a session are for those who asked to connect, in order: all of them, or all but the last where the hub
/// was worn, memory ran out, or the policy doesn't admit who asks. One asked at most. A line that wasn't put into the journal
/// changes nothing of it.
pub fn connects_are_asked()
    ensures { (v : Terms) (T : List Said) (R : List ℕ) (E : List Entry) (frames : List (List ℕ)) (ended : Ended) →
        (x : Session v T R E frames ended) → ConnectsAreAsked v E x.course }
{}

/// A session that takes frames has put the Connect-Accept before it takes the first.
pub fn frames_follow_accept()
    ensures { (v : Terms) (T : List Said) (R : List ℕ) (E : List Entry) (frames : List (List ℕ)) (ended : Ended) →
        (x : Session v T R E frames ended) → FramesFollowAccept v T frames x.course }
{}

/// The frames from the outlet that a session puts are those received that its policy lets through to the address under which
/// it connected, in order: each was sent by an address that the policy allows there. Each of its Connects is for a device that
/// the policy admits, each unicast that it forwards is allowed, and each denial that it notes is one of the policy.
pub fn policy_is_followed()
    ensures { (v : Terms) (T : List Said) (R : List ℕ) (E : List Entry) (frames : List (List ℕ)) (ended : Ended) →
        (x : Session v T R E frames ended) → PolicyIsFollowed v T E frames (journal_of x) x.course }
{}

/// The Encapsulated-NPDUs that a session puts are those of its frames that its policy lets through, in order, each once.
pub fn npdus_are_taken()
    ensures { (v : Terms) (T : List Said) (R : List ℕ) (E : List Entry) (frames : List (List ℕ)) (ended : Ended) →
        (x : Session v T R E frames ended) → NpdusAreTaken v T frames x.course }
{
    policy_is_followed();
}

/// Whatever is fixed of a session and wherever it stands, it does what its port does, by the definition of `bsc_port`: the hub's
/// side of a link in a simulated network is by the same one.
pub fn sessions_follow_ports()
    ensures messages { (v : Terms) (s : Standing) (now : ℕ) (m : List ℕ) → FollowsPort v s now m }
    ensures events { (v : Terms) (s : Standing) (e : PortEvent) → FollowsEvent v s e }
{}
