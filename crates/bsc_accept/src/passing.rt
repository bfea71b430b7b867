//! Messages that passed.
ghost use Rattle.std.specs.Prelude.{◌≡◌};
ghost use Rattle.bsc_accept.specs.Messages.{who_asks, answers_function, is_farewell_answer};
ghost use Rattle.bsc_accept.specs.Past.{disconnecting};
ghost use Rattle.bsc_accept.specs.Steps.{ask_step, connected_step, passed_step};
ghost use Rattle.bsc_accept.specs.Standing.{IsOpen};
ghost use Rattle.bsc_accept.specs.Kept.{standing_at, after};

use crate::accepting::Accepting;
use crate::closing::Closing;
use crate::pending_disconnect::PendingDisconnect;
use crate::replies::{disconnect_ack, heartbeat_ack};
use crate::stage::Stage;
use crate::step::Step;
use bsc_checks::Message;
use bsc_frame::{Answer, Body};
use bsc_octets::function;

/// Whether a BVLC-Result answers a Disconnect-Request, as an ACK or as a NAK.
fn is_for_disconnect(answer: &Answer) -> bool
    ensures { result ≡ answers_function 0x08 answer.now }
{
    match answer {
        Answer::Ack { function } => *function == function::DISCONNECT_REQUEST,
        Answer::Nak { function, .. } => *function == function::DISCONNECT_REQUEST,
    }
}

/// Whether the message is the answer to a Disconnect-Request that was put.
pub fn is_farewell_answer(farewell: PendingDisconnect, message: &Message) -> bool
    ensures { result ≡ is_farewell_answer farewell.id message.now }
{
    message.id == farewell.id
        && match &message.body {
            Body::DisconnectAck => true,
            Body::BvlcResult(answer) => is_for_disconnect(answer),
            _ => false,
        }
}

impl Accepting {
    /// A message passed.
    pub(crate) fn passed(&mut self, message: &Message) -> Step
        requires { IsOpen self.old }
        ensures step { result ≡ passed_step (standing_at self.old.stage) message.now }
        ensures stage { self.new ≡ record self.old { stage = after self.old.stage message.now.id result } }
    {
        match self.stage {
            Stage::AwaitingRequest => self.asked(message),
            Stage::Connected => self.served(message),
            Stage::Disconnecting(farewell) => self.answered(farewell, message),
            Stage::Asked { .. } | Stage::Idle => unreachable!(),
        }
    }

    /// A message passed while a Connect-Request is awaited.
    fn asked(&mut self, message: &Message) -> Step
        ensures step { result ≡ ask_step (who_asks message.now.body) }
        ensures stage { self.new ≡ record self.old { stage = after self.old.stage message.now.id result } }
    {
        match &message.body {
            Body::ConnectRequest(who) => {
                self.stage = Stage::Asked { id: message.id };
                Step::Ask(*who)
            }
            _ => Step::Nothing,
        }
    }

    /// A message of the connected peer passed.
    fn served(&mut self, message: &Message) -> Step
        ensures step { result ≡ connected_step message.now.id message.now.body }
        ensures stage { self.new ≡ record self.old { stage = after self.old.stage message.now.id result } }
    {
        match &message.body {
            Body::HeartbeatRequest => Step::Put(heartbeat_ack(message.id)),
            Body::DisconnectRequest => {
                self.stage = Stage::Idle;
                Step::PutClose(disconnect_ack(message.id), Closing::NORMAL)
            }
            _ => Step::Nothing,
        }
    }

    /// A message passed while the answer to a Disconnect-Request is awaited.
    fn answered(&mut self, farewell: PendingDisconnect, message: &Message) -> Step
        ensures step { result ≡ passed_step (disconnecting farewell) message.now }
        ensures stage { self.new ≡ record self.old { stage = after self.old.stage message.now.id result } }
    {
        let over = is_farewell_answer(farewell, message);
        self.close_if(over, Closing::NORMAL)
    }
}
