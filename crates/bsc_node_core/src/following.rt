//! What follows from each event that comes to a node.
ghost use Rattle.std.specs.Prelude.{◌≡◌, ℕ, ◌<◌, List, [], ◌∷◌, ◌++◌, map, true, false, IfSome, OnErr, OnOk};
ghost use Rattle.bsc_connector.specs.declared.event.ConnectorEvent.{ConnectorEvent};
ghost use Rattle.bsc_node.specs.declared.action.Action.{Action};
ghost use Rattle.bsc_node.specs.Ending.{tells_connector};
ghost use Rattle.bsc_node.specs.Logs.{Log, came, in_order};
ghost use Rattle.bsc_node.specs.Events.{arrives, is_to_end, obeys, ticks_link, time_passes};
ghost use Rattle.bsc_node.specs.Meeting.{keeps_vmac, renews};
ghost use Rattle.bsc_octets.specs.Addresses.{broadcast, same_vmac};
ghost use Rattle.bsc_octets.specs.declared.identity.Identity.{Identity};
ghost use Rattle.bsc_resolve.specs.Standing.{IsUnchanged, ResolveStands};
ghost use Rattle.bsc_node.specs.Conditions.{is_open};
ghost use Rattle.bsc_node.specs.Links.{hears, meets, names, outcome};
ghost use Rattle.bsc_node.specs.Ways.{resolve_calls};
ghost use Rattle.bsc_node_core.specs.Resolving.{BothStand, asked_by};
ghost use Rattle.bsc_node_core.specs.Rules.{message_in, origin_in, outcome_of};
ghost use Rattle.bsc_node_core.specs.Tables.{is_name};
ghost use Rattle.bsc_node_core.specs.Telling.{HasTold};
ghost use Rattle.bsc_node_core.specs.Events.{at_time};
ghost use Rattle.bsc_node_core.specs.Resting.{FollowsAtRest, IsAtRest};
ghost use Rattle.bsc_node_core.specs.Standing.{Base, Stands};
ghost use Rattle.std.specs.Str.{IsUtf8};

use crate::acting::tell;
use crate::actions::Actions;
use crate::event_context::EventContext;
use crate::machines::{message_in, origin_in};
use crate::receiving::handle_message;
use crate::state::State;
use bsc_accept::Closing;
use bsc_checks::Verdict;
use bsc_connector::{ConnectorEvent, Side};
use bsc_initiate::InitStep;
use bsc_node::{Action, LinkName, NodeEvent, Note, RENEWALS};
use bsc_octets::{NoMemory, Octets, random48};
use bsc_resolve::Resolve;

impl State {
    /// An event comes.
    pub(crate) fn record_event(&mut self, event: &NodeEvent)
        ensures { (b : Base) (out : List Action) (L : Log) (t : ℕ) → Stands b out self.old L
            → Stands (at_time t b) out self.new (L ++ came (record { now = t; event = event.now }) ∷ []) }
    {
        match event {
            NodeEvent::DialFailed(name) => self.links.end(*name),
            NodeEvent::Lost(name) => self.links.end(*name),
            NodeEvent::Came(name, _) => match name {
                LinkName::Hub(side) => self.newest_hub = Some(*side),
                LinkName::Direct(_) => {}
            },
            NodeEvent::Finish => self.finishing = true,
            NodeEvent::Random(w) => {
                self.own.vmac = random48(*w);
                if self.renewals < RENEWALS {
                    self.renewals += 1;
                }
            }
            _ => {}
        }
    }

    /// A link that arrives gets the lowest free slot, or is refused where all slots are claimed.
    pub(crate) fn arrive(&mut self, out: &mut Actions, at: &EventContext) -> Result<(), NoMemory>
        ensures { OnOk result ((b : Base) (L : Log) → b.made.limits ≡ at.now.limits.now → b.now ≡ at.now.time → Stands b out.old self.old L
            → Stands b out.new self.new (L ++ arrives L)) }
    {
        match self.direct.claim(None) {
            Ok(k) => {
                self.direct_touched = true;
                self.links.claim(k);
                self.take(out, at.limits.times, at.time, k)
            }
            Err(_) => out.push(Action::Refuse(Closing::TABLE_FULL)),
        }
    }

    /// Time passes for all machines, and then for the connector.
    pub(crate) fn tick(&mut self, out: &mut Actions, at: &EventContext) -> Result<(), NoMemory>
        ensures { OnOk result (FollowsAtRest at.now (λ a. in_order (map (ticks_link a) names
            ++ tells_connector a ConnectorEvent.Tick ∷ [])) out.old self.old out.new self.new) }
    {
        self.tick_link(out, at, LinkName::Hub(Side::Primary))?;
        self.tick_link(out, at, LinkName::Hub(Side::Failover))?;
        self.tick_slots(out, at)?;
        self.tell_connector(out, at, ConnectorEvent::Tick)
    }

    /// The node is to end: its links are told to finish.
    pub(crate) fn finish(&mut self, out: &mut Actions, at: &EventContext) -> Result<(), NoMemory>
        ensures { OnOk result (FollowsAtRest at.now (λ a. is_to_end a) out.old self.old out.new self.new) }
    {
        self.tell_finished(out)?;
        self.finish_link(out, at, LinkName::Hub(Side::Primary))?;
        self.finish_link(out, at, LinkName::Hub(Side::Failover))?;
        self.finish_slots(out, at)
    }

    /// The node has the VMAC of the word that was drawn.
    pub(crate) fn renew(&mut self, out: &mut Actions, at: &EventContext) -> Result<(), NoMemory>
        ensures { OnOk result (FollowsAtRest at.now (λ a. renews a) out.old self.old out.new self.new) }
    {
        tell(out, Note::Renewed(self.own.vmac))?;
        self.end_refused(out, at)
    }

    /// No word was drawn: the node keeps its VMAC.
    pub(crate) fn keep_vmac(&mut self, out: &mut Actions, at: &EventContext) -> Result<(), NoMemory>
        ensures { OnOk result (FollowsAtRest at.now (λ a. keeps_vmac a) out.old self.old out.new self.new) }
    {
        tell(out, Note::NoRandom)?;
        self.end_refused(out, at)
    }
}

/// Time passes for all machines, then for the connector, and then for address resolution.
pub(crate) fn pass_time(
    state: &mut State,
    out: &mut Actions,
    resolve: &mut Resolve,
    at: &EventContext,
) -> Result<(), NoMemory>
    ensures goes { OnOk result ((b : Base) (L : Log) → IsAtRest at.now b → BothStand b out.old state.old resolve.old L
        → BothStand b out.new state.new resolve.new (L ++ time_passes b.made L)) }
    ensures err { OnErr result (IsUnchanged resolve.old resolve.new) }
{
    state.tick(out, at)?;
    resolve.tick(at.time);
    Ok(())
}

/// What follows from a step that a message with this verdict brought about, and by which that may have passed.
fn obey_heard(
    state: &mut State,
    out: &mut Actions,
    resolve: &mut Resolve,
    at: &EventContext,
    name: LinkName,
    verdict: Verdict,
    step: InitStep,
) -> Result<(), NoMemory>
    requires { IfSome at.now.limits.now.uris IsUtf8 }
    ensures goes { OnOk result ((b : Base) (L : Log) (M : Log) → IsAtRest at.now b → is_name name ≡ true
        → ((who : Identity) → outcome b.made M name ≡ meets who → same_vmac who.vmac broadcast ≡ false)
        → ResolveStands resolve.old b.made.limits.times.connect_wait (resolve_calls L)
        → HasTold (asked_by L b) out.old state.old M name (outcome_of (origin_in verdict) (message_in verdict) step)
        → BothStand b out.new state.new resolve.new (M ++ obeys b.made name M)) }
    ensures err { OnErr result (IsUnchanged resolve.old resolve.new) }
{
    let origin = origin_in(&verdict);
    let passed = message_in(verdict);
    match step {
        InitStep::Up => match passed {
            Some(message) => handle_message(state, out, resolve, at, name, message),
            None => Ok(()),
        },
        other => state.apply_step(out, at, name, origin, other),
    }
}

/// A message came over a link.
pub(crate) fn hear(
    state: &mut State,
    out: &mut Actions,
    resolve: &mut Resolve,
    at: &EventContext,
    name: LinkName,
    octets: &Octets,
) -> Result<(), NoMemory>
    requires { IfSome at.now.limits.now.uris IsUtf8 }
    ensures goes { OnOk result ((b : Base) (L : Log) → IsAtRest at.now b → is_name name ≡ true
        → is_open name L ≡ true → BothStand b out.old state.old resolve.old L
        → BothStand b out.new state.new resolve.new (L ++ in_order (hears b.made name octets.now ∷ obeys b.made name ∷ []) L)) }
    ensures err { OnErr result (IsUnchanged resolve.old resolve.new) }
{
    let verdict = state.verdict(at.alloc, name, octets.as_slice())?;
    let step = state.hears(at.time, name, &verdict);
    obey_heard(state, out, resolve, at, name, verdict, step)
}
