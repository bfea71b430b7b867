//! The machine and its calls, one for each event.
ghost use Rattle.std.specs.Prelude.{◌≡◌, List, []};
ghost use Rattle.bsc_accept.specs.declared.start.Start.{Start};
ghost use Rattle.bsc_initiate.specs.declared.event.InitEvent.{InitEvent};
ghost use Rattle.bsc_initiate.specs.Past.{phase};
ghost use Rattle.bsc_initiate.specs.Standing.{InitiatingStands, InitiatingAnswers, AwaitsWebsocket, IsOpen, IsOver, LeavesInitiating, phase_of};

use crate::requests::connect_request;
use crate::stage::Stage;
use crate::step::InitStep;
use bsc_accept::{Closing, Start, Times, is_over, with_room};
use bsc_checks::{Phase, Verdict};
use bsc_octets::Identity;

/// The machine of a peer that initiates a connection.
///
/// `opened` comes once, when the WebSocket has opened. `message`, `tick` and `finish` may come until the machine has
/// closed: after a `Close`, a `PutClose` or a `Refused` nothing may. Each call is given the time in milliseconds, by
/// any one clock: what is later by a wait or more has waited, and a clock that falls makes no wait over.
#[derive(Clone, Copy, Debug)]
pub struct Initiating {
    pub(crate) start: Start,
    /// When the last message came, or the start.
    pub(crate) last: u64,
    pub(crate) stage: Stage,
}

impl Initiating {
    /// A machine that starts now: its WebSocket is being opened.
    pub fn start(own: Identity, times: Times, now: u64) -> Initiating
        ensures stands { InitiatingStands result (record { own = own; times = times; at = now }) [] }
        ensures awaits { AwaitsWebsocket result }
        ensures open { IsOpen result }
    {
        let start = Start {
            own,
            times,
            at: now,
        };
        Initiating {
            start,
            last: now,
            stage: Stage::AwaitingWebsocket,
        }
    }

    /// The phase; `None` before the WebSocket has opened.
    pub fn phase(&self) -> Option<Phase>
        ensures kept { result ≡ phase_of self.now }
        ensures told { (s : Start) (E : List InitEvent) → InitiatingStands self.now s E → ¬ IsOver self.now
            → result ≡ phase E }
    {
        match self.stage {
            Stage::AwaitingWebsocket | Stage::Idle => None,
            Stage::AwaitingAccept { .. } => Some(Phase::AwaitingAccept),
            Stage::Connected { .. } => Some(Phase::Connected),
            Stage::Disconnecting(_) => Some(Phase::Disconnecting),
        }
    }

    /// The WebSocket has opened: a Connect-Request with this Message ID goes out.
    pub fn opened(&mut self, now: u64, id: u16) -> InitStep
        requires { AwaitsWebsocket self.old }
        ensures step { InitiatingAnswers self.old self.new (InitEvent.Opened now id) result }
        ensures left { LeavesInitiating result self.new }
        ensures open { IsOpen self.new }
    {
        let request = connect_request(id, &self.start.own);
        self.enter(Stage::AwaitingAccept { id });
        InitStep::Put(request)
    }

    /// A message came, and was judged so.
    pub fn message(&mut self, now: u64, verdict: &Verdict) -> InitStep
        requires { IsOpen self.old }
        ensures step { InitiatingAnswers self.old self.new (InitEvent.Message now verdict.now) result }
        ensures left { LeavesInitiating result self.new }
    {
        self.hear(now);
        match verdict {
            Verdict::Pass(message) => self.passed(message),
            Verdict::Carry(_) | Verdict::Silent(_) => InitStep::Nothing,
            Verdict::Nak(_, octets) => InitStep::Put(with_room(octets)),
        }
    }

    /// The connection is to end, by a Disconnect-Request with this Message ID.
    pub fn finish(&mut self, now: u64, id: u16) -> InitStep
        requires { IsOpen self.old }
        ensures step { InitiatingAnswers self.old self.new (InitEvent.Finish now id) result }
        ensures left { LeavesInitiating result self.new }
    {
        match self.stage {
            Stage::AwaitingWebsocket | Stage::AwaitingAccept { .. } => self.close(Closing::NORMAL),
            Stage::Connected { .. } => self.disconnect(now, id),
            Stage::Disconnecting(_) => InitStep::Nothing,
            Stage::Idle => unreachable!(),
        }
    }

    /// Time has passed. A Heartbeat-Request, where one is put, has this Message ID.
    pub fn tick(&mut self, now: u64, id: u16) -> InitStep
        requires { IsOpen self.old }
        ensures step { InitiatingAnswers self.old self.new (InitEvent.Tick now id) result }
        ensures left { LeavesInitiating result self.new }
    {
        let times = self.start.times;
        match self.stage {
            Stage::AwaitingWebsocket | Stage::AwaitingAccept { .. } => {
                let over = is_over(self.start.at, u64::from(times.connect_wait), now);
                self.close_if(over, Closing::CONNECT_WAIT)
            }
            Stage::Connected { put } => self.beat(now, id, put),
            Stage::Disconnecting(farewell) => {
                let over = is_over(farewell.since, u64::from(times.disconnect_wait), now);
                self.close_if(over, Closing::NORMAL)
            }
            Stage::Idle => unreachable!(),
        }
    }
}
