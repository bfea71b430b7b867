//! The actions of a node that change what it keeps, one each.
ghost use Rattle.std.specs.Prelude.{◌≡◌, ◌<◌, ◌+◌, ◌%◌, ◌^◌, ◌∷◌, ◌++◌, if◌then◌else◌, true, false, List, [], IfOk, OnOk};
ghost use Rattle.bsc_connector.specs.Standing.{MayCome};
ghost use Rattle.bsc_node.specs.declared.action.Action.{Action};
ghost use Rattle.bsc_connector.specs.declared.side.Side.{Side};
ghost use Rattle.bsc_node.specs.declared.link_name.LinkName.{LinkName};
ghost use Rattle.bsc_node.specs.Links.{same_link};
ghost use Rattle.bsc_node_core.specs.Tables.{is_name};
ghost use Rattle.bsc_node.specs.Logs.{Log, did, does};
ghost use Rattle.bsc_node.specs.Hubs.{newest_step, told};
ghost use Rattle.bsc_node_core.specs.Standing.{Base, FollowsAlways, Stands, dropped_after, next_after, renewals_after};

use crate::actions::Actions;
use crate::machine::Machine;
use crate::messages::is_response;
use crate::state::State;
use arrayvec::ArrayVec;
use bsc_accept::{Accepting, Closing, Times};
use bsc_connector::{ConnectorEvent, ConnectorStep, Side};
use bsc_direct::SLOTS;
use bsc_initiate::Initiating;
use bsc_node::{Action, LinkName, Note};
use bsc_octets::{NoMemory, Octets};
use std::alloc::Global;

/// Tells the user something.
pub(crate) fn tell(out: &mut Actions, note: Note) -> Result<(), NoMemory>
    ensures { OnOk result (out.new ≡ out.old ++ Action.Tell note ∷ []) }
{
    out.push(Action::Tell(note))
}

/// The number after one: after FFFF comes 0000.
fn number_past(number: u16) -> u16
    ensures { result ≡ (number + 1) % 65536 }
{
    number.wrapping_add(1)
}

/// The number of the next message once these octets are put, where it was this one: a response has none of its own.
fn number_after(number: u16, octets: &[u8]) -> u16
    ensures { result ≡ next_after octets.now number }
{
    if is_response(octets) {
        number
    } else {
        number_past(number)
    }
}

/// The renewals since a hub accepted, once the connector was told this.
fn renewals_after(event: ConnectorEvent, renewals: u8) -> u8
    ensures { result ≡ renewals_after event renewals }
{
    match event {
        ConnectorEvent::Connected(_) => 0,
        _ => renewals,
    }
}

/// Whether the failover was dropped since its link began, once the link of this name begins.
fn dropped_begun(name: LinkName, dropped: bool) -> bool
    ensures { result ≡ (if same_link name (LinkName.Hub Side.Failover) then false else dropped) }
{
    match name {
        LinkName::Hub(Side::Failover) => false,
        LinkName::Hub(Side::Primary) | LinkName::Direct(_) => dropped,
    }
}

/// Whether the failover was dropped, once the connector was told this.
fn dropped_after(event: ConnectorEvent, dropped: bool) -> bool
    ensures { result ≡ dropped_after event dropped }
{
    match event {
        ConnectorEvent::Connected(Side::Primary) => true,
        _ => dropped,
    }
}

/// These octets in memory of their own.
fn owned(alloc: Global, octets: &[u8]) -> Result<Octets, NoMemory>
    ensures { IfOk result (λ o. o ≡ octets.now) }
{
    Ok(Octets::from_vec(Vec::from_slice(alloc, octets)?))
}

impl State {
    /// A message of the node was put: the next one has the next number, and after FFFF comes 0000.
    pub(crate) fn count(&mut self)
        ensures { self.new ≡ record self.old { next = (self.old.next + 1) % 65536 } }
    {
        self.next = number_past(self.next);
    }

    /// Puts a message. One that is no response is numbered.
    pub(crate) fn put(
        &mut self,
        out: &mut Actions,
        name: LinkName,
        octets: Octets,
    ) -> Result<(), NoMemory>
        ensures direct { OnOk result (self.new.direct ≡ self.old.direct) }
        ensures goes { OnOk result (FollowsAlways (λ a. does (Action.Put name octets)) out.old self.old out.new self.new) }
    {
        let next = number_after(self.next, octets.as_slice());
        out.push(Action::Put(name, octets))?;
        self.next = next;
        Ok(())
    }

    /// Puts a message that a machine made.
    pub(crate) fn put_made(
        &mut self,
        out: &mut Actions,
        alloc: Global,
        name: LinkName,
        octets: &ArrayVec<u8, 32>,
    ) -> Result<(), NoMemory>
        ensures direct { OnOk result (self.new.direct ≡ self.old.direct) }
        ensures goes { OnOk result (FollowsAlways (λ a. does (Action.Put name octets.now.items)) out.old self.old out.new self.new) }
    {
        let copy = owned(alloc, octets.as_slice())?;
        self.put(out, name, copy)
    }

    /// Closes a link.
    pub(crate) fn close(
        &mut self,
        out: &mut Actions,
        name: LinkName,
        closing: Closing,
    ) -> Result<(), NoMemory>
        ensures direct { OnOk result (self.new.direct ≡ self.old.direct) }
        ensures goes { OnOk result (FollowsAlways (λ a. does (Action.Close name closing)) out.old self.old out.new self.new) }
    {
        out.push(Action::Close(name, closing))?;
        self.links.end(name);
        Ok(())
    }

    /// Dials a URI, for the link of this name.
    pub(crate) fn dial(
        &mut self,
        out: &mut Actions,
        times: Times,
        now: u64,
        name: LinkName,
        uri: Octets,
    ) -> Result<(), NoMemory>
        ensures { OnOk result ((b : Base) (L : Log) → b.made.limits.times ≡ times → b.now ≡ now → is_name name ≡ true
            → Stands b out.old self.old L → Stands b out.new self.new (L ++ did (Action.Dial name uri) ∷ [])) }
    {
        out.push(Action::Dial(name, uri))?;
        let machine = Initiating::start(self.own, times, now);
        self.links.begin(name, Machine::Dialled(machine));
        self.dropped = dropped_begun(name, self.dropped);
        Ok(())
    }

    /// Takes the link that arrived, for this slot.
    pub(crate) fn take(
        &mut self,
        out: &mut Actions,
        times: Times,
        now: u64,
        k: u32,
    ) -> Result<(), NoMemory>
        ensures { OnOk result ((b : Base) (L : Log) → b.made.limits.times ≡ times → b.now ≡ now → k < SLOTS → Stands b out.old self.old L
            → Stands b out.new self.new (L ++ did (Action.Take (LinkName.Direct k)) ∷ [])) }
    {
        out.push(Action::Take(LinkName::Direct(k)))?;
        let machine = Accepting::start(self.own, times, now);
        self.links
            .begin(LinkName::Direct(k), Machine::Taken(machine));
        Ok(())
    }

    /// Tells the connector something.
    pub(crate) fn told(&mut self, now: u64, event: ConnectorEvent) -> ConnectorStep
        requires time { now < 2 ^ 62 }
        requires order { MayCome self.old.connector event }
        ensures { (b : Base) (out : List Action) (L : Log) → b.now ≡ now → Stands b out self.old L
            → Stands b out self.new (L ++ told event L) × (newest_step b.made (L ++ told event L) ≡ result) }
    {
        self.renewals = renewals_after(event, self.renewals);
        self.dropped = dropped_after(event, self.dropped);
        self.connector.event(now, event)
    }
}
