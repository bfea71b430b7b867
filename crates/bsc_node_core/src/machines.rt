//! What the machine of a link is told.
ghost use Rattle.std.specs.Prelude.{◌≡◌, ◌∷◌, ◌++◌, ℕ, List, [], Some, None, Option, true, IfOk};
ghost use Rattle.std.specs.Option.{option_map};
ghost use Rattle.bsc_octets.specs.declared.identity.Identity.{Identity};
ghost use Rattle.bsc_octets.specs.declared.vmac.Vmac.{Vmac};
ghost use Rattle.bsc_accept.specs.declared.accepting.Accepting.{Accepting};
ghost use Rattle.bsc_accept.specs.declared.event.Event.{Event};
ghost use Rattle.bsc_accept.specs.Past.{Standing, standing};
ghost use Rattle.bsc_accept.specs.Standing.{AcceptingAnswers, IsOpen as IsOpenAccepting, LeavesAccepting};
ghost use Rattle.bsc_initiate.specs.declared.event.InitEvent.{InitEvent};
ghost use Rattle.bsc_initiate.specs.declared.initiating.Initiating.{Initiating};
ghost use Rattle.bsc_initiate.specs.Standing.{AwaitsWebsocket, InitiatingAnswers, IsOpen as IsOpenInitiating, LeavesInitiating};
ghost use Rattle.bsc_node.specs.declared.action.Action.{Action};
ghost use Rattle.bsc_node.specs.Logs.{Log, accepting, initiating};
ghost use Rattle.bsc_node.specs.Links.{accepting_events, accepting_outcome, finishes, hears, is_there, opens, origin_of, ticks, is_in_connected};
ghost use Rattle.bsc_node.specs.Links as Links;
ghost use Rattle.bsc_node.specs.Conditions.{is_dialling, is_open};
ghost use Rattle.bsc_node_core.specs.declared.machine.Machine.{Machine};
ghost use Rattle.bsc_node_core.specs.Machines.{may_tell_dialled, may_tell_taken, phase_kept, taken_in};
ghost use Rattle.bsc_node_core.specs.Tables.{is_name, kept_of, link_at, place_kept};
ghost use Rattle.bsc_node_core.specs.Rules.{goes_up, message_in, message_of, message_taken, origin_in, outcome_of};
ghost use Rattle.bsc_node_core.specs.Standing.{Base, Stands};
ghost use Rattle.bsc_node_core.specs.Telling.{HasTold, busy_with};

use crate::link::Link;
use crate::machine::Machine;
use crate::state::State;
use bsc_accept::{Accepting, Step};
use bsc_checks::{Message, Phase, Place, Verdict, judge};
use bsc_initiate::{InitStep, Initiating};
use bsc_node::LinkName;
use bsc_octets::{Identity, NoMemory, Vmac};
use std::alloc::Global;

/// The phase of a link. (No message comes before the WebSocket has opened.)
fn phase_of(machine: &Machine) -> Phase
    ensures { result ≡ phase_kept machine.now }
{
    match machine {
        Machine::Gone | Machine::Over => Phase::AwaitingAccept,
        Machine::Dialled(machine) => match machine.phase() {
            Some(phase) => phase,
            None => Phase::AwaitingAccept,
        },
        Machine::Taken(machine) | Machine::Asked(machine) => machine.phase(),
    }
}

/// The VMAC of a peer.
fn vmac_of(peer: Option<Identity>) -> Option<Vmac>
    ensures { result ≡ option_map (λ (who : Identity). who.vmac) peer }
{
    match peer {
        Some(who) => Some(who.vmac),
        None => None,
    }
}

/// The place of a message that comes over a link.
fn place_of(own: Vmac, name: LinkName, link: &Link) -> Place
    ensures { result ≡ place_kept own name (kept_of link.now) }
{
    let phase = phase_of(&link.machine);
    match name {
        LinkName::Hub(_) => Place::NodeHub { own, phase },
        LinkName::Direct(_) => Place::NodeDirect {
            own,
            peer: vmac_of(link.peer),
            phase,
        },
    }
}

/// The Originating Virtual Address of a message that passed.
pub(crate) fn origin_in(verdict: &Verdict) -> Option<Vmac>
    ensures { result ≡ origin_in verdict.now }
{
    match verdict {
        Verdict::Pass(message) => message.origin,
        Verdict::Carry(_) | Verdict::Silent(_) | Verdict::Nak(_, _) => None,
    }
}

/// The message that passed.
pub(crate) fn message_in(verdict: Verdict) -> Option<Message>
    ensures { result ≡ message_in verdict }
{
    match verdict {
        Verdict::Pass(message) => Some(message),
        Verdict::Carry(_) | Verdict::Silent(_) | Verdict::Nak(_, _) => None,
    }
}

/// Whether it is the phase Connected.
fn is_in_connected(phase: Phase) -> bool
    ensures { result ≡ is_in_connected phase }
{
    match phase {
        Phase::Connected => true,
        Phase::AwaitingRequest | Phase::AwaitingAccept | Phase::Disconnecting => false,
    }
}

/// What a step of a link that was taken is to the node, as a step of one that was dialled: who asks has named itself, as who
/// accepts has. In Connected what the machine does nothing with is for the node. What is to be carried on isn't: a node
/// carries nothing on, and no message that comes to it is judged so.
pub(crate) fn as_dialled(step: Step, connected: bool) -> InitStep
    ensures { (origin : Option Vmac) (standing : Standing) (e : Event) → goes_up e standing ≡ connected
        → accepting_outcome standing e step ≡ outcome_of origin (message_taken e) result }
{
    match step {
        Step::Ask(who) => InitStep::Connected(who),
        Step::Put(octets) => InitStep::Put(octets),
        Step::PutClose(octets, closing) => InitStep::PutClose(octets, closing),
        Step::Up => InitStep::Nothing,
        Step::Close(closing) => InitStep::Close(closing),
        Step::Nothing => if connected {
            InitStep::Up
        } else {
            InitStep::Nothing
        },
    }
}

impl State {
    /// The machine of a link that was dialled makes a step. What that is to the node.
    pub(crate) fn step_dialled(
        &mut self,
        name: LinkName,
        machine: Initiating,
        step: InitStep,
    ) -> InitStep
        requires { LeavesInitiating step machine }
        ensures { (b : Base) (out : List Action) (L : Log) (before : Initiating) (e : InitEvent)
            → (link_at self.old.links name).machine ≡ Machine.Dialled before → is_name name ≡ true
            → InitiatingAnswers before machine e step → may_tell_dialled before.stage e ≡ true → Stands (busy_with name b) out self.old L
            → HasTold b out self.new (L ++ initiating name e ∷ []) name (outcome_of (origin_of e) (message_of e) result) }
    {
        self.links.go_on_dialled(name, machine, &step);
        step
    }

    /// The machine of a link that was taken makes a step. What that is to the node; in Connected a message that the
    /// machine does nothing with is for it.
    pub(crate) fn step_taken(
        &mut self,
        name: LinkName,
        machine: Accepting,
        step: Step,
        connected: bool,
    ) -> InitStep
        requires { LeavesAccepting step machine }
        ensures { (b : Base) (out : List Action) (L : Log) (before : Accepting) (e : Event) (origin : Option Vmac)
            → taken_in (link_at self.old.links name).machine ≡ Some before → is_name name ≡ true
            → AcceptingAnswers before machine e step → may_tell_taken before.stage e ≡ true
            → goes_up e (standing (accepting_events L name)) ≡ connected → Stands (busy_with name b) out self.old L
            → HasTold b out self.new (L ++ accepting name e ∷ []) name (outcome_of origin (message_taken e) result) }
    {
        self.links.go_on_taken(name, machine, &step);
        as_dialled(step, connected)
    }

    /// The machine of a link that was dialled is told to finish.
    fn finish_dialled(&mut self, now: u64, name: LinkName, machine: Initiating) -> InitStep
        requires { IsOpenInitiating machine }
        ensures { (b : Base) (out : List Action) (L : Log)
            → (link_at self.old.links name).machine ≡ Machine.Dialled machine → is_name name ≡ true → Stands (busy_with name b) out self.old L
            → HasTold b out self.new (L ++ initiating name (InitEvent.Finish now self.old.next) ∷ []) name (outcome_of None None result) }
    {
        let mut machine = machine;
        let step = machine.finish(now, self.next);
        self.step_dialled(name, machine, step)
    }

    /// The machine of a link that was taken is told to finish.
    fn finish_taken(&mut self, now: u64, name: LinkName, machine: Accepting) -> InitStep
        requires { IsOpenAccepting machine }
        ensures { (b : Base) (out : List Action) (L : Log)
            → (link_at self.old.links name).machine ≡ Machine.Taken machine → is_name name ≡ true → Stands (busy_with name b) out self.old L
            → HasTold b out self.new (L ++ accepting name (Event.Finish now self.old.next) ∷ []) name (outcome_of None None result) }
    {
        let mut machine = machine;
        let step = machine.finish(now, self.next);
        self.step_taken(name, machine, step, false)
    }

    /// The machine of a link that is there is told to finish. What its step is to the node.
    pub(crate) fn finishes(&mut self, now: u64, name: LinkName) -> InitStep
        ensures { (b : Base) (out : List Action) (L : Log) → b.now ≡ now → b.busy ≡ None → is_name name ≡ true
            → is_there name L ≡ true → Stands b out self.old L
            → HasTold b out self.new (L ++ finishes name L) name (outcome_of None None result) }
    {
        match self.links.get(name).machine {
            Machine::Dialled(machine) => self.finish_dialled(now, name, machine),
            Machine::Taken(machine) => self.finish_taken(now, name, machine),
            Machine::Gone | Machine::Over | Machine::Asked(_) => InitStep::Nothing,
        }
    }

    /// The machine of a link that was dialled is told the time.
    fn tick_dialled(&mut self, now: u64, name: LinkName, machine: Initiating) -> InitStep
        requires { IsOpenInitiating machine }
        ensures { (b : Base) (out : List Action) (L : Log)
            → (link_at self.old.links name).machine ≡ Machine.Dialled machine → is_name name ≡ true → Stands (busy_with name b) out self.old L
            → HasTold b out self.new (L ++ initiating name (InitEvent.Tick now self.old.next) ∷ []) name (outcome_of None None result) }
    {
        let mut machine = machine;
        let step = machine.tick(now, self.next);
        self.step_dialled(name, machine, step)
    }

    /// The machine of a link that was taken is told the time.
    fn tick_taken(&mut self, now: u64, name: LinkName, machine: Accepting) -> InitStep
        requires { IsOpenAccepting machine }
        ensures { (b : Base) (out : List Action) (L : Log)
            → (link_at self.old.links name).machine ≡ Machine.Taken machine → is_name name ≡ true → Stands (busy_with name b) out self.old L
            → HasTold b out self.new (L ++ accepting name (Event.Tick now) ∷ []) name (outcome_of None None result) }
    {
        let mut machine = machine;
        let step = machine.tick(now);
        self.step_taken(name, machine, step, false)
    }

    /// The machine of a link that is there is told the time. What its step is to the node.
    pub(crate) fn ticks(&mut self, now: u64, name: LinkName) -> InitStep
        ensures { (b : Base) (out : List Action) (L : Log) → b.now ≡ now → b.busy ≡ None → is_name name ≡ true
            → is_there name L ≡ true → Stands b out self.old L
            → HasTold b out self.new (L ++ ticks name L) name (outcome_of None None result) }
    {
        match self.links.get(name).machine {
            Machine::Dialled(machine) => self.tick_dialled(now, name, machine),
            Machine::Taken(machine) => self.tick_taken(now, name, machine),
            Machine::Gone | Machine::Over | Machine::Asked(_) => InitStep::Nothing,
        }
    }

    /// The machine of a link that was dialled is told that its WebSocket has opened.
    fn open_dialled(&mut self, now: u64, name: LinkName, machine: Initiating) -> InitStep
        requires { AwaitsWebsocket machine }
        ensures { (b : Base) (out : List Action) (L : Log)
            → (link_at self.old.links name).machine ≡ Machine.Dialled machine → is_name name ≡ true → Stands (busy_with name b) out self.old L
            → HasTold b out self.new (L ++ initiating name (InitEvent.Opened now self.old.next) ∷ []) name (outcome_of None None result) }
    {
        let mut machine = machine;
        let step = machine.opened(now, self.next);
        self.step_dialled(name, machine, step)
    }

    /// The machine of a link that is under way is told that its WebSocket has opened. What its step is to the node.
    pub(crate) fn opens(&mut self, now: u64, name: LinkName) -> InitStep
        ensures { (b : Base) (out : List Action) (L : Log) → b.now ≡ now → b.busy ≡ None → is_name name ≡ true
            → is_dialling name L ≡ true → Stands b out self.old L
            → HasTold b out self.new (L ++ opens name L) name (outcome_of None None result) }
    {
        match self.links.get(name).machine {
            Machine::Dialled(machine) => {
                if machine.phase().is_some() {
                    return InitStep::Nothing;
                }
                self.open_dialled(now, name, machine)
            }
            Machine::Gone | Machine::Over | Machine::Taken(_) | Machine::Asked(_) =>
                InitStep::Nothing,
        }
    }

    /// The machine of a link that was dialled gets a message, with its verdict.
    fn hear_dialled(
        &mut self,
        now: u64,
        name: LinkName,
        machine: Initiating,
        verdict: &Verdict,
    ) -> InitStep
        requires { IsOpenInitiating machine }
        ensures { (b : Base) (out : List Action) (L : Log)
            → (link_at self.old.links name).machine ≡ Machine.Dialled machine → is_name name ≡ true
            → may_tell_dialled machine.stage (InitEvent.Message now verdict.now) ≡ true
            → Stands (busy_with name b) out self.old L
            → HasTold b out self.new (L ++ initiating name (InitEvent.Message now verdict.now) ∷ []) name
            (outcome_of (origin_in verdict.now) (message_in verdict.now) result) }
    {
        let mut machine = machine;
        let step = machine.message(now, verdict);
        self.step_dialled(name, machine, step)
    }

    /// The machine of a link that was taken gets a message, with its verdict.
    fn hear_taken(
        &mut self,
        now: u64,
        name: LinkName,
        machine: Accepting,
        verdict: &Verdict,
    ) -> InitStep
        requires { IsOpenAccepting machine }
        ensures { (b : Base) (out : List Action) (L : Log)
            → (link_at self.old.links name).machine ≡ Machine.Taken machine → is_name name ≡ true → Stands (busy_with name b) out self.old L
            → HasTold b out self.new (L ++ accepting name (Event.Message now verdict.now) ∷ []) name
            (outcome_of (origin_in verdict.now) (message_in verdict.now) result) }
    {
        let mut machine = machine;
        let connected = is_in_connected(machine.phase());
        let step = machine.message(now, verdict);
        self.step_taken(name, machine, step, connected)
    }

    /// What becomes of the octets that come over a link that is open.
    pub(crate) fn verdict(
        &self,
        alloc: Global,
        name: LinkName,
        octets: &[u8],
    ) -> Result<Verdict, NoMemory>
        ensures { IfOk result (λ found. (b : Base) (out : List Action) (L : Log) → b.busy ≡ None → is_name name ≡ true
            → is_open name L ≡ true → Stands b out self.now L → Links.verdict b.made L name octets.now ≡ found) }
    {
        let place = place_of(self.own.vmac, name, &self.links.get(name));
        judge(alloc, octets, &place, self.own.max_bvlc)
    }

    /// The machine of a link that is open gets a message, with its verdict. What its step is to the node.
    pub(crate) fn hears(&mut self, now: u64, name: LinkName, verdict: &Verdict) -> InitStep
        ensures { (b : Base) (out : List Action) (L : Log) (o : List ℕ) → b.now ≡ now → b.busy ≡ None
            → is_name name ≡ true → is_open name L ≡ true → Links.verdict b.made L name o ≡ verdict.now → Stands b out self.old L
            → HasTold b out self.new (L ++ hears b.made name o L) name (outcome_of (origin_in verdict.now) (message_in verdict.now) result) }
    {
        match self.links.get(name).machine {
            Machine::Dialled(machine) => self.hear_dialled(now, name, machine, verdict),
            Machine::Taken(machine) => self.hear_taken(now, name, machine, verdict),
            Machine::Gone | Machine::Over | Machine::Asked(_) => InitStep::Nothing,
        }
    }
}
