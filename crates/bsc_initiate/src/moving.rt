//! How a machine goes on to wait for something else.
ghost use Rattle.std.specs.Prelude.{◌≡◌, if◌then◌else◌};
ghost use Rattle.bsc_initiate.specs.declared.step.InitStep.{InitStep};
ghost use Rattle.bsc_initiate.specs.declared.stage.Stage.{Stage};
ghost use Rattle.bsc_accept.specs.Messages.{octets_of, disconnect_request};
ghost use Rattle.bsc_initiate.specs.Steps.{connected_tick};
ghost use Rattle.bsc_initiate.specs.Kept.{after, after_tick, heard_at};

use crate::initiating::Initiating;
use crate::requests::heartbeat_request;
use crate::stage::Stage;
use crate::step::InitStep;
use bsc_accept::{Closing, PendingDisconnect, disconnect_request, is_over, twice};

impl Initiating {
    /// It closes, where a wait is over.
    pub(crate) fn close_if(&mut self, over: bool, closing: Closing) -> InitStep
        ensures step { result ≡ (if over then InitStep.Close closing else InitStep.Nothing) }
        ensures stage { self.new ≡ record self.old { stage = after self.old.stage result } }
    {
        if over {
            self.close(closing)
        } else {
            InitStep::Nothing
        }
    }

    /// It waits for this from now on.
    pub(crate) fn enter(&mut self, stage: Stage)
        ensures { self.new ≡ record self.old { stage = stage } }
    {
        self.stage = stage;
    }

    /// It closes.
    pub(crate) fn close(&mut self, closing: Closing) -> InitStep
        ensures step { result ≡ InitStep.Close closing }
        ensures idle { self.new ≡ record self.old { stage = Stage.Idle } }
    {
        self.stage = Stage::Idle;
        InitStep::Close(closing)
    }

    /// A message came at this time.
    pub(crate) fn hear(&mut self, now: u64)
        ensures { self.new ≡ record self.old { last = now; stage = heard_at self.old.stage } }
    {
        self.last = now;
        if let Stage::Connected { .. } = self.stage {
            self.stage = Stage::Connected { put: false };
        }
    }

    /// A Disconnect-Request with this Message ID goes out.
    pub(crate) fn disconnect(&mut self, now: u64, id: u16) -> InitStep
        ensures step { result ≡ InitStep.Put (octets_of (disconnect_request id)) }
        ensures waits { self.new ≡ record self.old { stage = Stage.Disconnecting (record { since = now; id = id }) } }
    {
        self.stage = Stage::Disconnecting(PendingDisconnect { since: now, id });
        InitStep::Put(disconnect_request(id))
    }

    /// Time has passed in CONNECTED, with or without a Heartbeat-Request put since the last message.
    pub(crate) fn beat(&mut self, now: u64, id: u16, put: bool) -> InitStep
        requires { self.old.stage ≡ Stage.Connected put }
        ensures step { result ≡ connected_tick self.old.start self.old.last put now id }
        ensures stage { self.new
            ≡ record self.old { stage = after_tick self.old.start self.old.last put now result } }
    {
        let heartbeat = self.start.times.heartbeat;
        if is_over(self.last, twice(heartbeat), now) {
            return self.close(Closing::IDLE);
        }
        let due = is_over(self.last, u64::from(heartbeat), now);
        if due && !put {
            self.stage = Stage::Connected { put: true };
            InitStep::Put(heartbeat_request(id))
        } else {
            InitStep::Nothing
        }
    }
}
