//! What follows where a peer has named itself or has refused, and where a VMAC is drawn anew.
ghost use Rattle.std.specs.Prelude.{◌≡◌, ◌≢◌, ◌<◌, ◌==◌, ◌&&◌, ◌++◌, nat_lt, not, ℕ, true, false, List, Option, None, OnOk};
ghost use Rattle.bsc_octets.specs.declared.identity.Identity.{Identity};
ghost use Rattle.bsc_octets.specs.Addresses.{broadcast, same_vmac};
ghost use Rattle.bsc_accept.specs.Messages.{duplicate_vmac_code};
ghost use Rattle.bsc_accept.specs.Standing.{AwaitsAnswer};
ghost use Rattle.bsc_direct.specs.declared.establish.Establish.{Establish};
ghost use Rattle.bsc_direct.specs.Standing.{IsOnlyClaimed};
ghost use Rattle.bsc_node.specs.declared.action.Action.{Action};
ghost use Rattle.bsc_node.specs.declared.link_name.LinkName.{LinkName};
ghost use Rattle.bsc_node.specs.Logs.{Log, is_finishing};
ghost use Rattle.bsc_node.specs.Links.{meets};
ghost use Rattle.bsc_node.specs.Ways.{establish};
ghost use Rattle.bsc_node.specs.Ending.{carries_out};
ghost use Rattle.bsc_node.specs.Meeting.{comes_up, ends_refused, finishes_replaced, is_hub, is_refused_by, joins, may_draw};
ghost use Rattle.bsc_node.specs.Meeting.{meets_dialled, meets_direct, meets_peer, meets_slot, meets_taken, refuser, refuses, renewals};
ghost use Rattle.bsc_node_core.specs.declared.machine.Machine.{Machine};
ghost use Rattle.bsc_node_core.specs.Tables.{is_name, link_at};
ghost use Rattle.bsc_node_core.specs.Standing.{Base, Stands};
ghost use Rattle.bsc_node_core.specs.Telling.{HasTold, busy_with};
ghost use Rattle.bsc_node_core.specs.Resting.{FollowsAtRest, IsAtRest};

use crate::acting::tell;
use crate::actions::Actions;
use crate::event_context::EventContext;
use crate::machine::Machine;
use crate::machines::as_dialled;
use crate::state::State;
use bsc_accept::{Accepting, Closing};
use bsc_connector::{ConnectorEvent, Side};
use bsc_direct::Establish;
use bsc_history::Refusal;
use bsc_node::{Action, LinkName, Note, RENEWALS};
use bsc_octets::{Identity, NoMemory, Vmac, function, results};
use std::alloc::Global;

/// Whether a refusal with this error code is that of a hub, of the node's VMAC as a duplicate.
fn is_duplicate(name: LinkName, code: u16) -> bool
    ensures { result ≡ (is_hub name && (code == duplicate_vmac_code)) }
{
    match name {
        LinkName::Hub(_) => code == results::NODE_DUPLICATE_VMAC,
        LinkName::Direct(_) => false,
    }
}

impl State {
    /// The slot that was replaced, where one was, is told to finish.
    fn finish_replaced(
        &mut self,
        out: &mut Actions,
        at: &EventContext,
        replaced: Option<u32>,
    ) -> Result<(), NoMemory>
        ensures { OnOk result ((b : Base) (L : Log) → IsAtRest at.now b → ((k : ℕ)
            → replaced ≡ Some k → is_name (LinkName.Direct k) ≡ true)
            → Stands b out.old self.old L → Stands b out.new self.new (L ++ finishes_replaced b.made replaced L)) }
    {
        match replaced {
            Some(k) => self.finish_link(out, at, LinkName::Direct(k)),
            None => Ok(()),
        }
    }

    /// A direct connection is established; the slot that it replaced is told to finish.
    fn come_up(
        &mut self,
        out: &mut Actions,
        at: &EventContext,
        k: u32,
        who: Identity,
    ) -> Result<(), NoMemory>
        requires claimed { IsOnlyClaimed self.old.direct k }
        requires unicast { who.vmac ≢ broadcast }
        ensures { OnOk result ((b : Base) (L : Log) (replaced : Option ℕ) → IsAtRest at.now b
            → establish b.made k who L ≡ Establish.Up replaced
            → Stands b out.old self.old L → Stands b out.new self.new (L ++ comes_up b.made k who replaced L)) }
    {
        let own = self.own.vmac;
        let vmac = who.vmac;
        let answer = self.direct.establish(own, k, who);
        self.direct_touched = true;
        tell(out, Note::DirectUp(vmac))?;
        match answer {
            Establish::Up { replaced } => self.finish_replaced(out, at, replaced),
            Establish::Duplicate { .. } | Establish::WrongPeer { .. } => Ok(()),
        }
    }

    /// A peer that this node dialled is established, or the link is closed.
    fn meet_dialled(
        &mut self,
        out: &mut Actions,
        at: &EventContext,
        k: u32,
        who: Identity,
    ) -> Result<(), NoMemory>
        requires claimed { IsOnlyClaimed self.old.direct k }
        requires unicast { who.vmac ≢ broadcast }
        ensures { OnOk result ((b : Base) (L : Log) → IsAtRest at.now b
            → Stands b out.old self.old L → Stands b out.new self.new (L ++ meets_dialled b.made k who (establish b.made k who L) L)) }
    {
        match self.direct.establishes(self.own.vmac, k, &who) {
            Establish::Up { .. } => self.come_up(out, at, k, who),
            Establish::Duplicate { .. } | Establish::WrongPeer { .. } => self.close_link(
                out,
                at,
                LinkName::Direct(k),
                Closing::WRONG_PEER,
            ),
        }
    }

    /// Who asked is accepted.
    fn join(
        &mut self,
        out: &mut Actions,
        alloc: Global,
        k: u32,
        machine: Accepting,
    ) -> Result<(), NoMemory>
        requires { AwaitsAnswer machine }
        ensures direct { OnOk result (self.new.direct ≡ self.old.direct) }
        ensures goes { OnOk result ((b : Base) (L : Log) → b.busy ≡ None → is_name (LinkName.Direct k) ≡ true
            → (link_at self.old.links (LinkName.Direct k)).machine ≡ Machine.Asked machine
            → Stands (busy_with (LinkName.Direct k) b) out.old self.old L
            → Stands b out.new self.new ((L ++ joins (LinkName.Direct k) L) ++ carries_out b.made (LinkName.Direct k) (L ++ joins (LinkName.Direct k) L))) }
    {
        let name = LinkName::Direct(k);
        let mut machine = machine;
        let step = machine.joined();
        self.links.go_on_taken(name, machine, &step);
        self.carry_out(out, alloc, name, as_dialled(step, false))
    }

    /// Who asked is refused, since its VMAC is taken.
    fn refuse(
        &mut self,
        out: &mut Actions,
        alloc: Global,
        k: u32,
        machine: Accepting,
    ) -> Result<(), NoMemory>
        requires { AwaitsAnswer machine }
        ensures { OnOk result ((b : Base) (L : Log) → b.busy ≡ None → is_name (LinkName.Direct k) ≡ true
            → (link_at self.old.links (LinkName.Direct k)).machine ≡ Machine.Asked machine
            → Stands (busy_with (LinkName.Direct k) b) out.old self.old L
            → Stands b out.new self.new ((L ++ refuses (LinkName.Direct k) L) ++ carries_out b.made (LinkName.Direct k) (L ++ refuses (LinkName.Direct k) L))) }
    {
        let name = LinkName::Direct(k);
        let mut machine = machine;
        let step = machine.refused(&Refusal::Duplicate { holder: None });
        self.links.go_on_taken(name, machine, &step);
        self.carry_out(out, alloc, name, as_dialled(step, false))
    }

    /// A peer that dialled this node gets the Connect-Accept and is established, or is refused.
    fn meet_taken(
        &mut self,
        out: &mut Actions,
        at: &EventContext,
        k: u32,
        machine: Accepting,
        who: Identity,
    ) -> Result<(), NoMemory>
        requires asked { AwaitsAnswer machine }
        requires claimed { IsOnlyClaimed self.old.direct k }
        requires unicast { who.vmac ≢ broadcast }
        ensures { OnOk result ((b : Base) (L : Log) → IsAtRest at.now b
            → (link_at self.old.links (LinkName.Direct k)).machine ≡ Machine.Asked machine
            → Stands (busy_with (LinkName.Direct k) b) out.old self.old L
            → Stands b out.new self.new (L ++ meets_taken b.made k who (establish b.made k who L) L)) }
    {
        match self.direct.establishes(self.own.vmac, k, &who) {
            Establish::Up { .. } => {
                self.join(out, at.alloc, k, machine)?;
                self.come_up(out, at, k, who)
            }
            Establish::Duplicate { .. } | Establish::WrongPeer { .. } => {
                self.refuse(out, at.alloc, k, machine)?;
                self.end(out, at, LinkName::Direct(k))
            }
        }
    }

    /// The peer of a slot that waits for it has named itself. The broadcast VMAC is no peer's.
    fn meet_slot(
        &mut self,
        out: &mut Actions,
        at: &EventContext,
        k: u32,
        who: Identity,
    ) -> Result<(), NoMemory>
        requires { IsOnlyClaimed self.old.direct k }
        ensures { OnOk result ((b : Base) (L : Log) → IsAtRest at.now b → same_vmac who.vmac broadcast ≡ false
            → HasTold b out.old self.old L (LinkName.Direct k) (meets who) → Stands b out.new self.new (L ++ meets_slot b.made k who L)) }
    {
        if who.vmac == Vmac::BROADCAST {
            return Ok(());
        }
        match self.links.get(LinkName::Direct(k)).machine {
            Machine::Asked(machine) => { self.meet_taken(out, at, k, machine, who) }
            Machine::Gone | Machine::Over | Machine::Dialled(_) | Machine::Taken(_) => {
                self.meet_dialled(out, at, k, who)
            }
        }
    }

    /// The peer of a direct connection has named itself. Where its slot doesn't wait for it the link is closed.
    fn meet_direct(
        &mut self,
        out: &mut Actions,
        at: &EventContext,
        k: u32,
        who: Identity,
    ) -> Result<(), NoMemory>
        ensures { OnOk result ((b : Base) (L : Log) → IsAtRest at.now b
            → is_name (LinkName.Direct k) ≡ true → same_vmac who.vmac broadcast ≡ false
            → HasTold b out.old self.old L (LinkName.Direct k) (meets who) → Stands b out.new self.new (L ++ meets_direct b.made k who L)) }
    {
        if self.direct.awaits_peer(k) {
            self.meet_slot(out, at, k, who)
        } else {
            self.close_link(out, at, LinkName::Direct(k), Closing::WRONG_PEER)
        }
    }

    /// The hub of a side has accepted.
    fn meet_hub(&mut self, out: &mut Actions, at: &EventContext, side: Side) -> Result<(), NoMemory>
        ensures { OnOk result ((b : Base) (L : Log) (who : Identity) → IsAtRest at.now b
            → HasTold b out.old self.old L (LinkName.Hub side) (meets who) → Stands b out.new self.new (L ++ meets_peer b.made (LinkName.Hub side) who L)) }
    {
        if self.connector.is_under_way(side) {
            self.tell_connector(out, at, ConnectorEvent::Connected(side))
        } else {
            Ok(())
        }
    }

    /// The peer of a link has named itself: a hub is connected, a direct connection is established or not.
    pub(crate) fn meet_peer(
        &mut self,
        out: &mut Actions,
        at: &EventContext,
        name: LinkName,
        who: Identity,
    ) -> Result<(), NoMemory>
        ensures { OnOk result ((b : Base) (L : Log) → IsAtRest at.now b → is_name name ≡ true
            → same_vmac who.vmac broadcast ≡ false
            → HasTold b out.old self.old L name (meets who) → Stands b out.new self.new (L ++ meets_peer b.made name who L)) }
    {
        match name {
            LinkName::Hub(side) => self.meet_hub(out, at, side),
            LinkName::Direct(k) => self.meet_direct(out, at, k, who),
        }
    }

    /// Who refused: over a hub connection the address that the NAK came from, over a direct connection the peer that
    /// was wanted.
    fn refuser(&self, name: LinkName, origin: Option<Vmac>) -> Option<Vmac>
        ensures { (b : Base) (out : List Action) (L : Log) → Stands b out self.now L → result ≡ refuser name origin L }
    {
        match name {
            LinkName::Hub(_) => origin,
            LinkName::Direct(k) => self.direct.wanted(k),
        }
    }

    /// Whether the node may renew its VMAC: it isn't to end, and it did so fewer times than it may since a hub accepted it.
    fn may_renew(&self) -> bool
        ensures { (b : Base) (out : List Action) (L : Log) → Stands b out self.now L → result ≡ (not (is_finishing L) && nat_lt (renewals L) RENEWALS) }
    {
        if self.finishing {
            return false;
        }
        self.renewals < RENEWALS
    }

    /// Whether the node may draw another VMAC.
    fn may_draw(&self, name: LinkName, code: u16) -> bool
        ensures { (b : Base) (out : List Action) (L : Log) → Stands b out self.now L → result ≡ may_draw name code L }
    {
        if is_duplicate(name, code) && self.links.none_there() {
            self.may_renew()
        } else {
            false
        }
    }

    /// A link whose Connect-Request was refused is closed. Then another VMAC is drawn, or the link is over.
    pub(crate) fn be_refused(
        &mut self,
        out: &mut Actions,
        at: &EventContext,
        name: LinkName,
        origin: Option<Vmac>,
        code: u16,
    ) -> Result<(), NoMemory>
        ensures { OnOk result ((b : Base) (L : Log) → IsAtRest at.now b → is_name name ≡ true
            → Stands (busy_with name b) out.old self.old L → Stands b out.new self.new (L ++ is_refused_by b.made name origin code L)) }
    {
        self.close(out, name, Closing::NORMAL)?;
        let from = self.refuser(name, origin);
        tell(
            out,
            Note::Nak {
                from,
                function: function::CONNECT_REQUEST,
                code,
            },
        )?;
        if self.may_draw(name, code) {
            out.push(Action::Draw)
        } else {
            self.end(out, at, name)
        }
    }

    /// The link of the hub whose refusal the drawn word answers is over now.
    pub(crate) fn end_refused(
        &mut self,
        out: &mut Actions,
        at: &EventContext,
    ) -> Result<(), NoMemory>
        ensures { OnOk result (FollowsAtRest at.now (λ a. ends_refused a) out.old self.old out.new self.new) }
    {
        match self.newest_hub {
            Some(side) => self.end(out, at, LinkName::Hub(side)),
            None => Ok(()),
        }
    }
}
