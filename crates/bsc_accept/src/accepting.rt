//! The machine and its calls, one for each event.
ghost use Rattle.std.specs.Prelude.{◌≡◌, ◌≢◌, List, []};
ghost use Rattle.bsc_checks.specs.declared.phase.Phase.{Phase};
ghost use Rattle.bsc_accept.specs.declared.start.Start.{Start};
ghost use Rattle.bsc_accept.specs.declared.event.Event.{Event};
ghost use Rattle.bsc_accept.specs.Past.{phase};
ghost use Rattle.bsc_accept.specs.Steps.{refused_step};
ghost use Rattle.bsc_accept.specs.Standing.{AcceptingStands, AcceptingAnswers, AwaitsAnswer, IsOpen, IsConnected, IsOver, LeavesAccepting, phase_of};

use crate::closing::Closing;
use crate::replies::{connect_accept, duplicate_vmac, with_room};
use crate::stage::Stage;
use crate::start::Start;
use crate::step::Step;
use crate::times::Times;
use crate::waits::{is_over, twice};
use bsc_checks::{Phase, Verdict};
use bsc_history::{End, Refusal};
use bsc_octets::Identity;

/// The machine of a peer that accepts a connection.
///
/// `message`, `tick` and `finish` may come from the start on. After an `Ask` the next call is `joined` or `refused`,
/// or the machine is let go; `ended` may come in the phase Connected; and after a `Close` or a `PutClose` nothing
/// may. Each call that has a time is given it in milliseconds, by any one clock: what is later by a wait or more has
/// waited, and a clock that falls makes no wait over.
#[derive(Clone, Copy, Debug)]
pub struct Accepting {
    pub(crate) start: Start,
    /// When the last message came, or the start.
    pub(crate) last: u64,
    pub(crate) stage: Stage,
}

/// The Message ID of the Disconnect-Request that goes out where a connection has ended.
const AT_END: u16 = 1;

/// The closing of who is refused, and what is put before it.
fn refused_step(id: u16, refusal: &Refusal) -> Step
    ensures { result ≡ refused_step id refusal.now }
{
    match refusal {
        Refusal::Duplicate { .. } => Step::PutClose(duplicate_vmac(id), Closing::NORMAL),
        Refusal::TableFull { .. } => Step::Close(Closing::TABLE_FULL),
        Refusal::Stopped => Step::Close(Closing::GOING_AWAY),
    }
}

impl Accepting {
    /// A machine that starts now.
    pub fn start(own: Identity, times: Times, now: u64) -> Accepting
        ensures stands { AcceptingStands result (record { own = own; times = times; at = now }) [] }
        ensures open { IsOpen result }
    {
        let start = Start {
            own,
            times,
            at: now,
        };
        Accepting {
            start,
            last: now,
            stage: Stage::AwaitingRequest,
        }
    }

    /// The phase.
    pub fn phase(&self) -> Phase
        ensures kept { result ≡ phase_of self.now }
        ensures told { (s : Start) (E : List Event) → AcceptingStands self.now s E → ¬ IsOver self.now
            → result ≡ phase E }
    {
        match self.stage {
            Stage::AwaitingRequest | Stage::Asked { .. } | Stage::Idle => Phase::AwaitingRequest,
            Stage::Connected => Phase::Connected,
            Stage::Disconnecting(_) => Phase::Disconnecting,
        }
    }

    /// A message came, and was judged so.
    pub fn message(&mut self, now: u64, verdict: &Verdict) -> Step
        requires { IsOpen self.old }
        ensures step { AcceptingAnswers self.old self.new (Event.Message now verdict.now) result }
        ensures left { LeavesAccepting result self.new }
    {
        self.last = now;
        match verdict {
            Verdict::Pass(message) => self.passed(message),
            Verdict::Carry(_) => Step::Up,
            Verdict::Silent(_) => Step::Nothing,
            Verdict::Nak(_, octets) => Step::Put(with_room(octets)),
        }
    }

    /// Who asked has joined.
    pub fn joined(&mut self) -> Step
        requires { AwaitsAnswer self.old }
        ensures step { AcceptingAnswers self.old self.new Event.Joined result }
        ensures left { LeavesAccepting result self.new }
        ensures connected { IsConnected self.new }
    {
        match self.stage {
            Stage::Asked { id } => {
                let accept = connect_accept(id, &self.start.own);
                self.enter(Stage::Connected);
                Step::Put(accept)
            }
            _ => unreachable!(),
        }
    }

    /// Who asked was refused.
    pub fn refused(&mut self, refusal: &Refusal) -> Step
        requires { AwaitsAnswer self.old }
        ensures step { AcceptingAnswers self.old self.new (Event.Refused refusal.now) result }
        ensures left { LeavesAccepting result self.new }
    {
        match self.stage {
            Stage::Asked { id } => {
                self.stage = Stage::Idle;
                refused_step(id, refusal)
            }
            _ => unreachable!(),
        }
    }

    /// The connection has ended, and its outbox is empty.
    pub fn ended(&mut self, now: u64, ending: End) -> Step
        requires connected { IsConnected self.old }
        requires ending { ending ≢ End.Left }
        ensures step { AcceptingAnswers self.old self.new (Event.Ended now ending) result }
        ensures left { LeavesAccepting result self.new }
    {
        match ending {
            End::Full => self.close(Closing::OUTBOX_FULL),
            End::Replaced | End::Stopped => self.disconnect(now, AT_END),
            End::Left => unreachable!(),
        }
    }

    /// The connection is to end, by a Disconnect-Request with this Message ID.
    pub fn finish(&mut self, now: u64, id: u16) -> Step
        requires { IsOpen self.old }
        ensures step { AcceptingAnswers self.old self.new (Event.Finish now id) result }
        ensures left { LeavesAccepting result self.new }
    {
        match self.stage {
            Stage::AwaitingRequest => self.close(Closing::NORMAL),
            Stage::Connected => self.disconnect(now, id),
            Stage::Disconnecting(_) => Step::Nothing,
            Stage::Asked { .. } | Stage::Idle => unreachable!(),
        }
    }

    /// Time has passed.
    pub fn tick(&mut self, now: u64) -> Step
        requires { IsOpen self.old }
        ensures step { AcceptingAnswers self.old self.new (Event.Tick now) result }
        ensures left { LeavesAccepting result self.new }
    {
        let times = self.start.times;
        match self.stage {
            Stage::AwaitingRequest => {
                let over = is_over(self.start.at, u64::from(times.connect_wait), now);
                self.close_if(over, Closing::CONNECT_WAIT)
            }
            Stage::Connected => {
                let idle = is_over(self.last, twice(times.heartbeat), now);
                self.close_if(idle, Closing::IDLE)
            }
            Stage::Disconnecting(farewell) => {
                let over = is_over(farewell.since, u64::from(times.disconnect_wait), now);
                self.close_if(over, Closing::NORMAL)
            }
            Stage::Asked { .. } | Stage::Idle => unreachable!(),
        }
    }
}
