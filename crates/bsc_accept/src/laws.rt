//! Laws of the steps, each carried by a function that does nothing.
ghost use Rattle.std.specs.Prelude.{◌≡◌, ℕ, ◌<◌, ◌≤◌, ◌-◌, ◌*◌, ◌^◌, ◌↔◌, true, List, [], ◌∷◌, ◌++◌};
ghost use Rattle.bsc_octets.specs.declared.identity.Identity.{Identity};
ghost use Rattle.bsc_checks.specs.declared.phase.Phase.{Phase};
ghost use Rattle.bsc_checks.specs.declared.verdict.Verdict.{Verdict};
ghost use Rattle.bsc_frame.specs.Payloads.{IsNode};
ghost use Rattle.bsc_frame.specs.Spelling.{HasSpelling};
ghost use Rattle.bsc_accept.specs.declared.start.Start.{Start};
ghost use Rattle.bsc_accept.specs.declared.pending_disconnect.PendingDisconnect.{PendingDisconnect};
ghost use Rattle.bsc_accept.specs.declared.event.Event.{Event};
ghost use Rattle.bsc_accept.specs.Messages.{connect_accept, duplicate_vmac, disconnect_request, disconnect_ack, heartbeat_ack};
ghost use Rattle.bsc_accept.specs.Past.{phase, standing, disconnecting, last_message};
ghost use Rattle.bsc_accept.specs.Steps.{step, closes};

/// The messages that a machine puts of itself have a spelling: so its replies are messages, whole ones.
pub fn replies_are_messages()
    ensures accept { (id : ℕ) (own : Identity) → id < 2 ^ 16 → IsNode own
        → HasSpelling (connect_accept id own) }
    ensures duplicate { (id : ℕ) → id < 2 ^ 16 → HasSpelling (duplicate_vmac id) }
    ensures farewell { (id : ℕ) → id < 2 ^ 16 → HasSpelling (disconnect_request id) }
    ensures answer { (id : ℕ) → id < 2 ^ 16 → HasSpelling (disconnect_ack id) }
    ensures heartbeat { (id : ℕ) → id < 2 ^ 16 → HasSpelling (heartbeat_ack id) }
{}

/// A tick closes exactly where the wait of the phase is over: the connect wait since the start, twice the heartbeat
/// since the last message, and the disconnect wait since the Disconnect-Request went out.
pub fn ticks_close()
    ensures connect_wait { (s : Start) (E : List Event) (now : ℕ) → phase E ≡ Phase.AwaitingRequest
        → (closes (step s E (Event.Tick now)) ≡ true) ↔ (s.times.connect_wait ≤ now - s.at) }
    ensures idle { (s : Start) (E : List Event) (now : ℕ) → phase E ≡ Phase.Connected
        → (closes (step s E (Event.Tick now)) ≡ true) ↔ (2 * s.times.heartbeat ≤ now - last_message s E) }
    ensures disconnect_wait { (s : Start) (E : List Event) (f : PendingDisconnect) (now : ℕ) → standing E ≡ disconnecting f
        → (closes (step s E (Event.Tick now)) ≡ true) ↔ (s.times.disconnect_wait ≤ now - f.since) }
{}

/// Every message puts the idle closing off, whatever the verdict on it.
pub fn messages_are_heard()
    ensures { (s : Start) (E : List Event) (now : ℕ) (verdict : Verdict)
        → last_message s (E ++ Event.Message now verdict ∷ []) ≡ now }
{}
