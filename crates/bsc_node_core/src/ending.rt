//! What follows where a hub connection changes, and where a link ends.
ghost use Rattle.std.specs.Prelude.{◌≡◌, true, List, ◌∷◌, ◌++◌, [], map, Option, None, unwrap_or, IfOk, OnOk};
ghost use Rattle.bsc_octets.specs.declared.vmac.Vmac.{Vmac};
ghost use Rattle.bsc_frame.specs.declared.message.Message.{Message};
ghost use Rattle.bsc_connector.specs.Standing.{MayCome};
ghost use Rattle.bsc_node.specs.declared.action.Action.{Action};
ghost use Rattle.bsc_node.specs.Logs.{Log, did, does, either, in_order, nothing, when};
ghost use Rattle.bsc_node.specs.Links.{is_there};
ghost use Rattle.bsc_accept.specs.Steps.{normal};
ghost use Rattle.bsc_node_core.specs.Tables.{is_name};
ghost use Rattle.bsc_connector.specs.declared.side.Side.{Side};
ghost use Rattle.bsc_node.specs.declared.link_name.LinkName.{LinkName};
ghost use Rattle.bsc_direct.specs.Slots.{slots};
ghost use Rattle.bsc_node.specs.Hubs.{hub_use_before, is_dropped, newest_step, same_use};
ghost use Rattle.bsc_node.specs.Ending.{carries_out_by, closes_link, dials_failover, dials_primary, drops_failover, ends, ends_by};
ghost use Rattle.bsc_node.specs.Ending.{ends_hub, ends_slot, finishes_link, finishes_machine, tells_connector, tells_finished, tells_use};
ghost use Rattle.bsc_node_core.specs.Rules.{outcome_of, tells_down};
ghost use Rattle.bsc_node_core.specs.Resting.{FollowsAtRest, IsAtRest};
ghost use Rattle.bsc_node_core.specs.Standing.{Base, FollowsAlways, Stands};
ghost use Rattle.bsc_node_core.specs.Telling.{busy_with};

use crate::acting::tell;
use crate::actions::Actions;
use crate::event_context::EventContext;
use crate::state::State;
use arrayvec::ArrayVec;
use bsc_accept::Closing;
use bsc_connector::{ConnectorEvent, ConnectorStep, HubUse, Side};
use bsc_direct::SLOTS;
use bsc_initiate::InitStep;
use bsc_node::{LinkName, NodeLimits, Note};
use bsc_octets::{NoMemory, Octets};
use std::alloc::Global;

/// The URI of the failover, where there is one.
fn failover_uri(alloc: Global, limits: &NodeLimits) -> Result<Octets, NoMemory>
    ensures { IfOk result (λ o. o ≡ unwrap_or limits.now.failover []) }
{
    match &limits.failover {
        Some(uri) => uri.copy(alloc),
        None => Ok(Octets::from_vec(Vec::new(alloc))),
    }
}

/// Whether it is the same hub, or none both times.
fn is_same_use(used: HubUse, before: HubUse) -> bool
    ensures { result ≡ same_use before used }
{
    used == before
}

impl State {
    /// Puts and closes what a machine's step puts and closes, without what follows from it.
    pub(crate) fn carry_out(
        &mut self,
        out: &mut Actions,
        alloc: Global,
        name: LinkName,
        step: InitStep,
    ) -> Result<(), NoMemory>
        ensures direct { OnOk result (self.new.direct ≡ self.old.direct) }
        ensures goes { OnOk result ((origin : Option Vmac) (msg : Option Message)
            → FollowsAlways (λ a. carries_out_by name (outcome_of origin msg step)) out.old self.old out.new self.new) }
    {
        match step {
            InitStep::Put(octets) => self.put_made(out, alloc, name, &octets),
            InitStep::PutClose(octets, closing) => {
                self.put_and_close(out, alloc, name, &octets, closing)
            }
            InitStep::Close(closing) => self.close(out, name, closing),
            InitStep::Connected(_) | InitStep::Refused { .. } | InitStep::Up | InitStep::Nothing =>
                { Ok(()) }
        }
    }

    /// Puts a message, and closes the link.
    fn put_and_close(
        &mut self,
        out: &mut Actions,
        alloc: Global,
        name: LinkName,
        octets: &ArrayVec<u8, 32>,
        closing: Closing,
    ) -> Result<(), NoMemory>
        ensures direct { OnOk result (self.new.direct ≡ self.old.direct) }
        ensures goes { OnOk result (FollowsAlways (λ a. in_order (does (Action.Put name octets.now.items) ∷ does (Action.Close name closing) ∷ []))
            out.old self.old out.new self.new) }
    {
        self.put_made(out, alloc, name, octets)?;
        self.close(out, name, closing)
    }

    /// The machine of a link that is there is told to finish: what it puts and closes by that.
    pub(crate) fn finish_machine(
        &mut self,
        out: &mut Actions,
        at: &EventContext,
        name: LinkName,
    ) -> Result<(), NoMemory>
        ensures { OnOk result ((b : Base) (L : Log) → b.now ≡ at.now.time → b.busy ≡ None → is_name name ≡ true → Stands b out.old self.old L
            → Stands b out.new self.new (L ++ finishes_machine b.made name L)) }
    {
        if self.links.is_there(name) {
            let step = self.finishes(at.time, name);
            self.carry_out(out, at.alloc, name, step)
        } else {
            Ok(())
        }
    }

    /// Dials the primary hub.
    fn dial_primary(&mut self, out: &mut Actions, at: &EventContext) -> Result<(), NoMemory>
        ensures { OnOk result ((b : Base) (L : Log) → b.made.limits.times ≡ at.now.limits.now.times → b.now ≡ at.now.time → Stands b out.old self.old L
            → Stands b out.new self.new (L ++ did (Action.Dial (LinkName.Hub Side.Primary) at.now.limits.now.primary) ∷ [])) }
    {
        let uri = at.limits.primary.copy(at.alloc)?;
        self.dial(
            out,
            at.limits.times,
            at.time,
            LinkName::Hub(Side::Primary),
            uri,
        )
    }

    /// Closes a link that is there.
    fn close_there(&mut self, out: &mut Actions, name: LinkName) -> Result<(), NoMemory>
        ensures { OnOk result ((b : Base) (L : Log) → is_name name ≡ true → Stands b out.old self.old L
            → Stands b out.new self.new (L ++ when (is_there name) (does (Action.Close name normal)) L)) }
    {
        if self.links.is_there(name) {
            self.close(out, name, Closing::NORMAL)
        } else {
            Ok(())
        }
    }

    /// Dials the failover. The link of a dropped one, where it is still there, is closed first.
    fn dial_failover(&mut self, out: &mut Actions, at: &EventContext) -> Result<(), NoMemory>
        ensures { OnOk result ((b : Base) (L : Log) → b.made.limits.times ≡ at.now.limits.now.times → b.now ≡ at.now.time → Stands b out.old self.old L
            → Stands b out.new self.new (L ++ in_order (when (is_there (LinkName.Hub Side.Failover)) (does (Action.Close (LinkName.Hub Side.Failover) normal))
            ∷ does (Action.Dial (LinkName.Hub Side.Failover) (unwrap_or at.now.limits.now.failover [])) ∷ []) L)) }
    {
        let name = LinkName::Hub(Side::Failover);
        self.close_there(out, name)?;
        let uri = failover_uri(at.alloc, at.limits)?;
        self.dial(out, at.limits.times, at.time, name, uri)
    }

    /// Dials the primary hub where the connector's step says so, unless the node is to end.
    fn try_primary(
        &mut self,
        out: &mut Actions,
        at: &EventContext,
        step: &ConnectorStep,
    ) -> Result<(), NoMemory>
        ensures { OnOk result ((b : Base) (L : Log) → b.made.limits ≡ at.now.limits.now → b.now ≡ at.now.time → newest_step b.made L ≡ step.now
            → Stands b out.old self.old L → Stands b out.new self.new (L ++ dials_primary b.made L)) }
    {
        if step.dial_primary && !self.finishing {
            self.dial_primary(out, at)
        } else {
            Ok(())
        }
    }

    /// Dials the failover where the connector's step says so, unless the node is to end.
    fn try_failover(
        &mut self,
        out: &mut Actions,
        at: &EventContext,
        step: &ConnectorStep,
    ) -> Result<(), NoMemory>
        ensures { OnOk result ((b : Base) (L : Log) → b.made.limits ≡ at.now.limits.now → b.now ≡ at.now.time → newest_step b.made L ≡ step.now
            → Stands b out.old self.old L → Stands b out.new self.new (L ++ dials_failover b.made L)) }
    {
        if step.dial_failover && !self.finishing {
            self.dial_failover(out, at)
        } else {
            Ok(())
        }
    }

    /// Tells the hub in use, where it was another one before.
    fn tell_use(&self, out: &mut Actions, before: HubUse) -> Result<(), NoMemory>
        ensures { OnOk result ((b : Base) (L : Log) → hub_use_before L ≡ before → Stands b out.old self.now L → Stands b out.new self.now (L ++ tells_use L)) }
    {
        let used = self.connector.hub_use();
        if is_same_use(used, before) {
            Ok(())
        } else {
            tell(out, Note::HubNow(used))
        }
    }

    /// Drops the failover where the connector's step says so: it is told to finish.
    fn drop_failover(
        &mut self,
        out: &mut Actions,
        at: &EventContext,
        step: &ConnectorStep,
    ) -> Result<(), NoMemory>
        ensures { OnOk result ((b : Base) (L : Log) → b.now ≡ at.now.time → b.busy ≡ None → newest_step b.made L ≡ step.now
            → Stands b out.old self.old L → Stands b out.new self.new (L ++ drops_failover b.made L)) }
    {
        if step.drop_failover {
            self.finish_machine(out, at, LinkName::Hub(Side::Failover))
        } else {
            Ok(())
        }
    }

    /// Tells the connector something: it dials, the hub in use may change, and a failover may be dropped.
    pub(crate) fn tell_connector(
        &mut self,
        out: &mut Actions,
        at: &EventContext,
        event: ConnectorEvent,
    ) -> Result<(), NoMemory>
        requires { MayCome self.old.connector event }
        ensures { OnOk result (FollowsAtRest at.now (λ a. tells_connector a event) out.old self.old out.new self.new) }
    {
        let before = self.connector.hub_use();
        let step = self.told(at.time, event);
        self.try_primary(out, at, &step)?;
        self.try_failover(out, at, &step)?;
        self.tell_use(out, before)?;
        self.drop_failover(out, at, &step)
    }

    /// Whether the hub connection of a side was dropped.
    fn is_dropped(&self, side: Side) -> bool
        ensures { (b : Base) (out : List Action) (L : Log) → Stands b out self.now L → result ≡ is_dropped side L }
    {
        match side {
            Side::Primary => false,
            Side::Failover => self.dropped,
        }
    }

    /// A hub connection is over: it is lost where the side was up, and has failed where an attempt at it was under way.
    /// That of a dropped failover is neither.
    fn end_hub(&mut self, out: &mut Actions, at: &EventContext, side: Side) -> Result<(), NoMemory>
        ensures { OnOk result (FollowsAtRest at.now (λ a. ends_hub a side) out.old self.old out.new self.new) }
    {
        if self.is_dropped(side) {
            Ok(())
        } else if self.connector.is_up(side) {
            self.tell_connector(out, at, ConnectorEvent::Lost(side))
        } else if self.connector.is_under_way(side) {
            self.tell_connector(out, at, ConnectorEvent::Failed(side))
        } else {
            Ok(())
        }
    }

    /// That a direct connection is down is told, where it was established.
    fn tell_down(&self, out: &mut Actions, k: u32) -> Result<(), NoMemory>
        ensures { OnOk result ((b : Base) (L : Log) → Stands b out.old self.now L → Stands b out.new self.now (L ++ tells_down k L)) }
    {
        match self.direct.peer(k) {
            Some(who) => tell(out, Note::DirectDown(who.vmac)),
            None => Ok(()),
        }
    }

    /// The link of a slot is over, and the slot is released.
    fn end_slot(&mut self, out: &mut Actions, k: u32) -> Result<(), NoMemory>
        ensures { OnOk result (FollowsAlways (λ a. ends_slot k) out.old self.old out.new self.new) }
    {
        self.tell_down(out, k)?;
        self.direct.release(k);
        self.direct_touched = true;
        Ok(())
    }

    /// Once the node is to end, it has ended when no link is there any more.
    pub(crate) fn tell_finished(&self, out: &mut Actions) -> Result<(), NoMemory>
        ensures { OnOk result ((b : Base) (L : Log) → Stands b out.old self.now L → Stands b out.new self.now (L ++ tells_finished L)) }
    {
        if self.finishing && self.links.none_there() {
            tell(out, Note::Finished)
        } else {
            Ok(())
        }
    }

    /// A link is over: its hub connection has ended, or its slot is released.
    fn end_by(
        &mut self,
        out: &mut Actions,
        at: &EventContext,
        name: LinkName,
    ) -> Result<(), NoMemory>
        ensures { OnOk result (FollowsAtRest at.now (λ a. ends_by a name) out.old self.old out.new self.new) }
    {
        match name {
            LinkName::Hub(side) => self.end_hub(out, at, side),
            LinkName::Direct(k) => self.end_slot(out, k),
        }
    }

    /// What follows where a link is over.
    pub(crate) fn end(
        &mut self,
        out: &mut Actions,
        at: &EventContext,
        name: LinkName,
    ) -> Result<(), NoMemory>
        ensures { OnOk result (FollowsAtRest at.now (λ a. ends a name) out.old self.old out.new self.new) }
    {
        self.end_by(out, at, name)?;
        self.tell_finished(out)
    }

    /// A link is closed, and so it is over.
    pub(crate) fn close_link(
        &mut self,
        out: &mut Actions,
        at: &EventContext,
        name: LinkName,
        closing: Closing,
    ) -> Result<(), NoMemory>
        ensures { OnOk result ((b : Base) (L : Log) → IsAtRest at.now b → is_name name ≡ true
            → Stands (busy_with name b) out.old self.old L
            → Stands b out.new self.new (L ++ closes_link b.made name closing L)) }
    {
        self.close(out, name, closing)?;
        self.end(out, at, name)
    }

    /// Where a link isn't there any more, it is over.
    fn end_gone(
        &mut self,
        out: &mut Actions,
        at: &EventContext,
        name: LinkName,
    ) -> Result<(), NoMemory>
        ensures { OnOk result ((b : Base) (L : Log) → IsAtRest at.now b → is_name name ≡ true
            → Stands b out.old self.old L
            → Stands b out.new self.new (L ++ either (is_there name) nothing (ends b.made name) L)) }
    {
        if self.links.is_there(name) {
            Ok(())
        } else {
            self.end(out, at, name)
        }
    }

    /// A link that is there is told to finish, and is over where that closed it.
    fn finish_there(
        &mut self,
        out: &mut Actions,
        at: &EventContext,
        name: LinkName,
    ) -> Result<(), NoMemory>
        ensures { OnOk result ((b : Base) (L : Log) → IsAtRest at.now b → is_name name ≡ true
            → Stands b out.old self.old L
            → Stands b out.new self.new (L ++ in_order (finishes_machine b.made name ∷ either (is_there name) nothing (ends b.made name) ∷ []) L)) }
    {
        self.finish_machine(out, at, name)?;
        self.end_gone(out, at, name)
    }

    /// The link, where it is there, is told to finish, and is over where that closed it.
    pub(crate) fn finish_link(
        &mut self,
        out: &mut Actions,
        at: &EventContext,
        name: LinkName,
    ) -> Result<(), NoMemory>
        ensures { OnOk result ((b : Base) (L : Log) → IsAtRest at.now b → is_name name ≡ true
            → Stands b out.old self.old L
            → Stands b out.new self.new (L ++ finishes_link b.made name L)) }
    {
        if self.links.is_there(name) {
            self.finish_there(out, at, name)
        } else {
            Ok(())
        }
    }

    /// The links of all slots are told to finish, in order.
    pub(crate) fn finish_slots(
        &mut self,
        out: &mut Actions,
        at: &EventContext,
    ) -> Result<(), NoMemory>
        ensures { OnOk result (FollowsAtRest at.now (λ a. in_order (map (λ k. finishes_link a (LinkName.Direct k)) slots))
            out.old self.old out.new self.new) }
    {
        for k in 0..SLOTS {
            self.finish_link(out, at, LinkName::Direct(k))?;
        }
        Ok(())
    }
}
