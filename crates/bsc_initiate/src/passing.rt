//! Messages that passed.
ghost use Rattle.std.specs.Prelude.{◌≡◌};
ghost use Rattle.bsc_initiate.specs.Messages.{code_of, who_accepts, refusing_code};
ghost use Rattle.bsc_initiate.specs.Past.{awaiting_accept, disconnecting};
ghost use Rattle.bsc_initiate.specs.Steps.{answer_step, connected_step, passed_step};
ghost use Rattle.bsc_initiate.specs.Standing.{IsOpen};
ghost use Rattle.bsc_initiate.specs.Kept.{standing_at, after};

use crate::initiating::Initiating;
use crate::stage::Stage;
use crate::step::InitStep;
use bsc_accept::{Closing, PendingDisconnect, disconnect_ack, heartbeat_ack, is_farewell_answer};
use bsc_checks::Message;
use bsc_frame::{Answer, Body};
use bsc_octets::function;

/// The error code of a NAK of a Connect-Request.
fn refusing_code(answer: &Answer) -> Option<u16>
    ensures { result ≡ code_of answer.now }
{
    match answer {
        Answer::Ack { .. } => None,
        Answer::Nak { function, code, .. } => {
            if *function == function::CONNECT_REQUEST {
                Some(*code)
            } else {
                None
            }
        }
    }
}

/// What is done about the body of an answer to the Connect-Request.
fn answer_step(body: &Body) -> InitStep
    ensures { result ≡ answer_step (who_accepts body.now) (refusing_code body.now) }
{
    match body {
        Body::ConnectAccept(who) => InitStep::Connected(*who),
        Body::BvlcResult(answer) => {
            match refusing_code(answer) {
                Some(code) => InitStep::Refused { code },
                None => InitStep::Nothing,
            }
        }
        _ => InitStep::Nothing,
    }
}

impl Initiating {
    /// A message passed. That it came is noted already.
    pub(crate) fn passed(&mut self, message: &Message) -> InitStep
        requires { IsOpen self.old }
        ensures step { result ≡ passed_step (standing_at self.old.stage) message.now }
        ensures stage { self.new ≡ record self.old { stage = after self.old.stage result } }
    {
        match self.stage {
            Stage::AwaitingWebsocket => InitStep::Nothing,
            Stage::AwaitingAccept { id } => self.accepted(id, message),
            Stage::Connected { .. } => self.served(message),
            Stage::Disconnecting(farewell) => self.answered(farewell, message),
            Stage::Idle => unreachable!(),
        }
    }

    /// A message passed while the answer to the Connect-Request is awaited.
    fn accepted(&mut self, id: u16, message: &Message) -> InitStep
        ensures step { result ≡ passed_step (awaiting_accept id) message.now }
        ensures stage { self.new ≡ record self.old { stage = after self.old.stage result } }
    {
        if message.id != id {
            return InitStep::Nothing;
        }
        let step = answer_step(&message.body);
        match &step {
            InitStep::Connected(_) => self.stage = Stage::Connected { put: false },
            InitStep::Refused { .. } => self.stage = Stage::Idle,
            _ => {}
        }
        step
    }

    /// A message of the connected peer passed.
    fn served(&mut self, message: &Message) -> InitStep
        ensures step { result ≡ connected_step message.now.id message.now.body }
        ensures stage { self.new ≡ record self.old { stage = after self.old.stage result } }
    {
        match &message.body {
            Body::HeartbeatRequest => InitStep::Put(heartbeat_ack(message.id)),
            Body::DisconnectRequest => {
                self.stage = Stage::Idle;
                InitStep::PutClose(disconnect_ack(message.id), Closing::NORMAL)
            }
            Body::HeartbeatAck => InitStep::Nothing,
            _ => InitStep::Up,
        }
    }

    /// A message passed while the answer to a Disconnect-Request is awaited.
    fn answered(&mut self, farewell: PendingDisconnect, message: &Message) -> InitStep
        ensures step { result ≡ passed_step (disconnecting farewell) message.now }
        ensures stage { self.new ≡ record self.old { stage = after self.old.stage result } }
    {
        let over = is_farewell_answer(farewell, message);
        self.close_if(over, Closing::NORMAL)
    }
}
