//! How a machine goes on to wait for something else.
ghost use Rattle.std.specs.Prelude.{◌≡◌, if◌then◌else◌};
ghost use Rattle.bsc_accept.specs.declared.step.Step.{Step};
ghost use Rattle.bsc_accept.specs.declared.stage.Stage.{Stage};
ghost use Rattle.bsc_accept.specs.Messages.{octets_of, disconnect_request};
ghost use Rattle.bsc_accept.specs.Kept.{after};

use crate::accepting::Accepting;
use crate::closing::Closing;
use crate::pending_disconnect::PendingDisconnect;
use crate::replies::disconnect_request;
use crate::stage::Stage;
use crate::step::Step;

impl Accepting {
    /// It closes, where a wait is over.
    pub(crate) fn close_if(&mut self, over: bool, closing: Closing) -> Step
        ensures step { result ≡ (if over then Step.Close closing else Step.Nothing) }
        ensures stage { self.new ≡ record self.old { stage = after self.old.stage 0 result } }
    {
        if over {
            self.close(closing)
        } else {
            Step::Nothing
        }
    }

    /// It waits for this from now on.
    pub(crate) fn enter(&mut self, stage: Stage)
        ensures { self.new ≡ record self.old { stage = stage } }
    {
        self.stage = stage;
    }

    /// It closes.
    pub(crate) fn close(&mut self, closing: Closing) -> Step
        ensures step { result ≡ Step.Close closing }
        ensures idle { self.new ≡ record self.old { stage = Stage.Idle } }
    {
        self.stage = Stage::Idle;
        Step::Close(closing)
    }

    /// A Disconnect-Request with this Message ID goes out.
    pub(crate) fn disconnect(&mut self, now: u64, id: u16) -> Step
        ensures step { result ≡ Step.Put (octets_of (disconnect_request id)) }
        ensures waits { self.new ≡ record self.old { stage = Stage.Disconnecting (record { since = now; id = id }) } }
    {
        self.stage = Stage::Disconnecting(PendingDisconnect { since: now, id });
        Step::Put(disconnect_request(id))
    }
}
