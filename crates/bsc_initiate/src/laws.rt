//! Laws of the steps, each carried by a function that does nothing.
ghost use Rattle.std.specs.Prelude.{◌≡◌, ◌≢◌, ℕ, ◌<◌, ◌≤◌, ◌-◌, ◌*◌, ◌^◌, ◌↔◌, true, false, List, [], ◌∷◌, ◌++◌};
ghost use Rattle.std.specs.List.{list_any};
ghost use Rattle.bsc_octets.specs.declared.identity.Identity.{Identity};
ghost use Rattle.bsc_checks.specs.declared.verdict.Verdict.{Verdict};
ghost use Rattle.bsc_frame.specs.Payloads.{IsNode};
ghost use Rattle.bsc_frame.specs.Spelling.{HasSpelling};
ghost use Rattle.bsc_accept.specs.declared.start.Start.{Start};
ghost use Rattle.bsc_accept.specs.declared.pending_disconnect.PendingDisconnect.{PendingDisconnect};
ghost use Rattle.bsc_accept.specs.Messages.{octets_of, disconnect_request, disconnect_ack, heartbeat_ack};
ghost use Rattle.bsc_initiate.specs.declared.event.InitEvent.{InitEvent};
ghost use Rattle.bsc_initiate.specs.declared.step.InitStep.{InitStep};
ghost use Rattle.bsc_initiate.specs.Messages.{connect_request, heartbeat_request};
ghost use Rattle.bsc_initiate.specs.Past.{standing, awaiting_websocket, awaiting_accept, connected, disconnecting, is_message, last_message, heartbeat_was_put};
ghost use Rattle.bsc_initiate.specs.Steps.{step, closes};

/// The messages that a machine puts of itself have a spelling: they are messages, whole ones.
pub fn requests_are_messages()
    ensures connect { (id : ℕ) (own : Identity) → id < 2 ^ 16 → IsNode own
        → HasSpelling (connect_request id own) }
    ensures farewell { (id : ℕ) → id < 2 ^ 16 → HasSpelling (disconnect_request id) }
    ensures answer { (id : ℕ) → id < 2 ^ 16 → HasSpelling (disconnect_ack id) }
    ensures asks { (id : ℕ) → id < 2 ^ 16 → HasSpelling (heartbeat_request id) }
    ensures beats { (id : ℕ) → id < 2 ^ 16 → HasSpelling (heartbeat_ack id) }
{}

/// A tick closes exactly where the wait of the state is over: the connect wait since the start before the accept,
/// twice the heartbeat since the last message, and the disconnect wait since the Disconnect-Request went out.
pub fn ticks_close()
    ensures websocket { (s : Start) (E : List InitEvent) (now id : ℕ) → standing E ≡ awaiting_websocket
        → (closes (step s E (InitEvent.Tick now id)) ≡ true) ↔ (s.times.connect_wait ≤ now - s.at) }
    ensures accept { (s : Start) (E : List InitEvent) (request now id : ℕ) → standing E ≡ awaiting_accept request
        → (closes (step s E (InitEvent.Tick now id)) ≡ true) ↔ (s.times.connect_wait ≤ now - s.at) }
    ensures idle { (s : Start) (E : List InitEvent) (now id : ℕ) → standing E ≡ connected
        → (closes (step s E (InitEvent.Tick now id)) ≡ true) ↔ (2 * s.times.heartbeat ≤ now - last_message s E) }
    ensures disconnect_wait { (s : Start) (E : List InitEvent) (f : PendingDisconnect) (now id : ℕ)
        → standing E ≡ disconnecting f
        → (closes (step s E (InitEvent.Tick now id)) ≡ true) ↔ (s.times.disconnect_wait ≤ now - f.since) }
{}

/// Every message puts the idle closing and the next heartbeat off, whatever the verdict on it.
pub fn messages_are_heard()
    ensures last { (s : Start) (E : List InitEvent) (now : ℕ) (verdict : Verdict)
        → last_message s (E ++ InitEvent.Message now verdict ∷ []) ≡ now }
    ensures heartbeat { (s : Start) (E : List InitEvent) (now : ℕ) (verdict : Verdict)
        → heartbeat_was_put s (E ++ InitEvent.Message now verdict ∷ []) ≡ false }
{}

/// Between two Heartbeat-Requests a message came: once a tick put one, no tick puts another before that, since it was
/// put since the last message.
pub fn heartbeats_are_put_once()
    ensures apart { (s : Start) (E later : List InitEvent) (now id next other : ℕ)
        → step s E (InitEvent.Tick now id) ≡ InitStep.Put (octets_of (heartbeat_request id))
        → list_any is_message later ≡ false
        → step s (E ++ InitEvent.Tick now id ∷ later) (InitEvent.Tick next other)
        ≢ InitStep.Put (octets_of (heartbeat_request other)) }
    ensures once { (s : Start) (E : List InitEvent) (now id : ℕ) → heartbeat_was_put s E ≡ true
        → step s E (InitEvent.Tick now id) ≢ InitStep.Put (octets_of (heartbeat_request id)) }
{}
