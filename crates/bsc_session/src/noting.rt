//! What is noted of the hub's calls.
ghost use Rattle.std.specs.Prelude.{◌≡◌, ◌≤◌, ◌∷◌, ℕ, Bool, true, [], Err, IsErr};
ghost use Rattle.bsc_outside.specs.Faults.{HasRisen};
ghost use Rattle.bsc_history.specs.declared.reply.Reply.{Reply};
ghost use Rattle.bsc_desk.specs.Entries.{all_looks, all_reply, connect_entry, forward_entry, leave_entry, one_looks, one_reply};
ghost use Rattle.bsc_edge.specs.declared.fault.LinkFault.{LinkFault};
ghost use Rattle.bsc_edge.specs.Told.{fault_in};
ghost use Rattle.bsc_session.specs.Notes.Notes.{Records, denied, made as made_note};
ghost use Rattle.bsc_session.specs.CarryingOut.{RoseIf, UnputIf};
ghost use Rattle.bsc_session.specs.Stops.{stop_lost};

use crate::notes::{Journal, Made, Noted};
use crate::stop::Stop;
use crate::stopping::stop_unrecorded;
use bsc_desk::{AllReply, Gone, OneReply};
use bsc_edge::LinkFault;
use bsc_history::Refusal;
use bsc_lines::Denial;
use bsc_octets::Identity;
use std::alloc::Global;

/// Notes a connect that joined.
pub fn note_joined<J: Journal>(
    alloc: Global,
    journal: &mut J,
    at: u64,
    caller: u64,
    who: Identity,
    conn: u64,
    replaced: Option<u64>,
) -> Result<(), LinkFault>
    ensures noted { Records (J.held journal.old) (J.held journal.new)
        (made_note at (connect_entry caller who (Reply.Joined conn replaced)) ∷ []) (fault_in result) }
    ensures made { IsErr result → J.makes_lines ≡ true }
    ensures later { J.faults journal.old ≤ J.faults journal.new }
    ensures failed { result ≡ Err LinkFault.Failed → HasRisen (J.faults journal.old) (J.faults journal.new) }
{
    let made = Made::Joined {
        who,
        conn,
        replaced,
    };
    journal.note(alloc, &Noted::Entry { at, caller, made })
}

/// Notes a connect that was refused.
pub fn note_refused<J: Journal>(
    alloc: Global,
    journal: &mut J,
    at: u64,
    caller: u64,
    who: Identity,
    refusal: Refusal,
) -> Result<(), LinkFault>
    ensures noted { Records (J.held journal.old) (J.held journal.new) (made_note at (connect_entry caller who (Reply.Refused refusal)) ∷ []) (fault_in result) }
    ensures made { IsErr result → J.makes_lines ≡ true }
    ensures later { J.faults journal.old ≤ J.faults journal.new }
    ensures failed { result ≡ Err LinkFault.Failed → HasRisen (J.faults journal.old) (J.faults journal.new) }
{
    let made = Made::Refused { who, refusal };
    journal.note(alloc, &Noted::Entry { at, caller, made })
}

/// Notes a unicast.
pub fn note_one<J: Journal>(
    alloc: Global,
    journal: &mut J,
    at: u64,
    caller: u64,
    conn: u64,
    message: &[u8],
    said: OneReply,
) -> Result<(), LinkFault>
    ensures noted { Records (J.held journal.old) (J.held journal.new)
        (made_note at (forward_entry caller conn message.now (one_looks said) (one_reply said)) ∷ []) (fault_in result) }
    ensures made { IsErr result → J.makes_lines ≡ true }
    ensures later { J.faults journal.old ≤ J.faults journal.new }
    ensures failed { result ≡ Err LinkFault.Failed → HasRisen (J.faults journal.old) (J.faults journal.new) }
{
    let made = Made::One {
        conn,
        message,
        said,
    };
    journal.note(alloc, &Noted::Entry { at, caller, made })
}

/// Notes a broadcast.
pub fn note_all<J: Journal>(
    alloc: Global,
    journal: &mut J,
    at: u64,
    caller: u64,
    conn: u64,
    message: &[u8],
    said: &AllReply,
) -> Result<(), LinkFault>
    ensures noted { Records (J.held journal.old) (J.held journal.new)
        (made_note at (forward_entry caller conn message.now (all_looks said.now) (all_reply said.now)) ∷ []) (fault_in result) }
    ensures made { IsErr result → J.makes_lines ≡ true }
    ensures later { J.faults journal.old ≤ J.faults journal.new }
    ensures failed { result ≡ Err LinkFault.Failed → HasRisen (J.faults journal.old) (J.faults journal.new) }
{
    let made = Made::All {
        conn,
        message,
        said,
    };
    journal.note(alloc, &Noted::Entry { at, caller, made })
}

/// Notes a Leave.
pub fn note_left<J: Journal>(
    alloc: Global,
    journal: &mut J,
    at: u64,
    caller: u64,
    conn: u64,
    empties: u64,
    gone: Gone,
) -> Result<(), LinkFault>
    ensures noted { Records (J.held journal.old) (J.held journal.new) (made_note at (leave_entry caller conn empties gone) ∷ []) (fault_in result) }
    ensures made { IsErr result → J.makes_lines ≡ true }
    ensures later { J.faults journal.old ≤ J.faults journal.new }
    ensures failed { result ≡ Err LinkFault.Failed → HasRisen (J.faults journal.old) (J.faults journal.new) }
{
    let made = Made::Left {
        conn,
        empties,
        gone,
    };
    journal.note(alloc, &Noted::Entry { at, caller, made })
}

/// Notes a denial.
pub fn note_denial<J: Journal>(
    alloc: Global,
    journal: &mut J,
    denial: Denial,
) -> Result<(), LinkFault>
    ensures noted { Records (J.held journal.old) (J.held journal.new) (denied denial ∷ []) (fault_in result) }
    ensures made { IsErr result → J.makes_lines ≡ true }
    ensures later { J.faults journal.old ≤ J.faults journal.new }
    ensures failed { result ≡ Err LinkFault.Failed → HasRisen (J.faults journal.old) (J.faults journal.new) }
{
    journal.note(alloc, &Noted::Denied(denial))
}

/// How a line stops the session, if it wasn't put.
pub fn stop_lost(noted: Result<(), LinkFault>) -> Option<Stop>
    ensures stops { result ≡ stop_lost (fault_in noted) }
    ensures other { (a b : ℕ) → RoseIf result a b }
    ensures unrecorded { (makes : Bool) (a b : ℕ) → (IsErr noted → makes ≡ true)
        → (noted ≡ Err LinkFault.Failed → HasRisen a b) → UnputIf makes result a b }
{
    match noted {
        Ok(()) => None,
        Err(fault) => Some(stop_unrecorded(fault)),
    }
}
