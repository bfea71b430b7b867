//! What the hub's side of a link does.
ghost use Rattle.std.specs.Prelude.{◌≡◌, ◌≢◌, List, Some, None, IfOk, IfSome, OnOk, IsFalse, IsTrue};
ghost use Rattle.bsc_octets.specs.Addresses.{same_vmac, zero_vmac, broadcast};
ghost use Rattle.bsc_octets.specs.Forwarding.{has_route};
ghost use Rattle.bsc_accept.specs.declared.event.Event.{Event};
ghost use Rattle.bsc_accept.specs.Standing.{AwaitsAnswer, IsConnected};
ghost use Rattle.bsc_port.specs.Actions.{machine_event};
ghost use Rattle.bsc_port.specs.Standing.{Fits, HasPast, IsReady, LeavesBy, LeavesPort, MayHandle};
ghost use Rattle.bsc_node.specs.declared.link_name.LinkName.{LinkName as NameOf};
ghost use Rattle.bsc_network.specs.declared.way.Way.TheVariants.{Down};
ghost use Rattle.bsc_network.specs.Worlds.{World as WorldOf};
ghost use Rattle.bsc_network.specs.Changes.{puts_now};
ghost use Rattle.bsc_network.specs.HubSides.{closes, connects, forwards, receives, tells, unless_over};
ghost use Rattle.bsc_world.specs.Standing.{WorldKeptAs};
ghost use Rattle.bsc_world.specs.Becoming.{Became, Becomes, BecomesBusy, HasSide, Keeps, Stands};
ghost use Rattle.bsc_world.specs.Sides.{Heard, KeepsSides};
ghost use Rattle.bsc_world.specs.Ports.{acts, puts_out};
ghost use Rattle.bsc_world.specs.SideCalls.{Finds, HasPort, PortHandles, PortHears};

use crate::asked::Asked;
use crate::kept_link::KeptLink;
use crate::passed::Passed;
use crate::world::World;
use bsc_history::End;
use bsc_network::{Content, Target, Way};
use bsc_octets::{Identity, NoMemory, Octets};
use bsc_port::{Output, PortAction, PortEvent};
use std::alloc::Global;

/// These octets in memory of their own.
fn owned(alloc: Global, octets: &[u8]) -> Result<Octets, NoMemory>
    ensures { IfOk result (λ o. o ≡ octets.now) }
{
    Ok(Octets::from_vec(Vec::from_slice(alloc, octets)?))
}

impl KeptLink {
    /// The port of the hub's side, where there is one, is told something.
    fn handle(&mut self, event: PortEvent) -> Option<Output>
        requires may { HasPort (λ p. MayHandle event p) self.old }
        requires some { HasPort (λ p. HasPast p) self.old }
        ensures { PortHandles result event self.old self.new }
    {
        let Target::Hub(_) = self.to else {
            return None;
        };
        match &mut self.side {
            Some(side) => Some(side.handle(event)),
            None => None,
        }
    }

    /// A message comes to it, at a hub that takes no longer one than this.
    fn receive(
        &mut self,
        alloc: Global,
        now: u64,
        max: u16,
        m: &[u8],
    ) -> Result<Option<PortAction>, NoMemory>
        requires ready { HasPort (λ p. IsReady p) self.old }
        requires some { HasPort (λ p. HasPast p) self.old }
        ensures { IfOk result (λ o. PortHears o now max m.now self.old self.new) }
    {
        let Target::Hub(_) = self.to else {
            return Ok(None);
        };
        match &mut self.side {
            Some(side) => Ok(Some(side.receive(alloc, now, max, None, None, m)?)),
            None => Ok(None),
        }
    }
}

impl World {
    /// Whether a link leads to a hub, at which its session lasts.
    fn has_side(&self, link: u32) -> bool
        ensures { Finds result self.now link }
    {
        let place = link as usize;
        if self.links.len() <= place {
            return false;
        }
        let kept = &self.links[place];
        let Target::Hub(_) = kept.to else {
            return false;
        };
        match &kept.side {
            Some(_) => true,
            None => false,
        }
    }

    /// The hub's side puts something, where its session lasts.
    fn put_down(&mut self, link: u32, content: Content) -> Result<(), NoMemory>
        ensures sides { OnOk result (KeepsSides self.old self.new) }
        ensures goes { OnOk result (Keeps (unless_over link (puts_now link Down content)) self.old self.new) }
    {
        if self.has_side(link) {
            self.put_now(link, Way::Down, content)
        } else {
            Ok(())
        }
    }

    /// The hub's side closes the link, and so its session is over.
    fn close(&mut self, link: u32) -> Result<(), NoMemory>
        requires some { Stands (Some link) self.old }
        ensures { OnOk result (BecomesBusy (Some link) None (unless_over link (closes link)) self.old self.new) }
    {
        self.put_down(link, Content::Closed)?;
        self.call_leave(link);
        Ok(())
    }

    /// Carries out what a port does with the link.
    fn carry_out(&mut self, alloc: Global, link: u32, output: Output) -> Result<(), NoMemory>
        requires some { Stands (Some link) self.old }
        requires left { HasSide self.old link (λ side. LeavesPort output side) }
        ensures { OnOk result (BecomesBusy (Some link) None (unless_over link (puts_out link output)) self.old self.new) }
    {
        match output {
            Output::Send(octets) => {
                let message = owned(alloc, octets.as_slice())?;
                self.put_down(link, Content::Message(message))
            }
            Output::SendClose(octets, _) => {
                let message = owned(alloc, octets.as_slice())?;
                self.put_down(link, Content::Message(message))?;
                self.close(link)
            }
            Output::Close(_) => self.close(link),
            Output::Nothing => Ok(()),
        }
    }

    /// The port is told something, and what it does is carried out.
    fn tell(&mut self, alloc: Global, link: u32, event: PortEvent) -> Result<(), NoMemory>
        requires some { Stands (Some link) self.old }
        requires may { HasSide self.old link (λ side. MayHandle event side) }
        ensures { OnOk result (BecomesBusy (Some link) None (unless_over link (tells link (machine_event event))) self.old self.new) }
    {
        let place = link as usize;
        if self.links.len() <= place {
            self.call_leave(link);
            return Ok(());
        }
        let kept = &mut self.links[place];
        match kept.handle(event) {
            Some(output) => self.carry_out(alloc, link, output),
            None => {
                self.call_leave(link);
                Ok(())
            }
        }
    }

    /// The port is told how its connection has ended, and what it does is carried out.
    pub(crate) fn tell_ended(
        &mut self,
        alloc: Global,
        link: u32,
        ending: End,
    ) -> Result<(), NoMemory>
        requires some { Stands None self.old }
        requires connected { HasSide self.old link (λ side. IsConnected side.machine) }
        requires ending { ending ≢ End.Left }
        ensures { OnOk result ((F : List NameOf) (w : WorldOf) → w.now ≡ self.old.clock → WorldKeptAs self.old F None w
            → Became self.old self.new F None w (unless_over link (tells link (Event.Ended w.now ending)) w)) }
    {
        let now = self.clock;
        self.tell(alloc, link, PortEvent::Ended { now, ending })
    }

    /// Who asks is connected, where the session lasts: the machine is told what came of it, and where the hub is worn the
    /// link is closed.
    fn connect(
        &mut self,
        alloc: Global,
        link: u32,
        place: u64,
        who: Identity,
    ) -> Result<(), NoMemory>
        requires not_zero { IsFalse (same_vmac who.vmac zero_vmac) }
        requires not_broadcast { IsFalse (same_vmac who.vmac broadcast) }
        requires some { Stands (Some link) self.old }
        requires asked { HasSide self.old link (λ side. AwaitsAnswer side.machine) }
        requires alone { HasSide self.old link (λ side. side.joined ≡ None) }
        ensures { OnOk result (BecomesBusy (Some link) None (unless_over link (connects link place who)) self.old self.new) }
    {
        if self.has_side(link) {
            match self.call_connect(alloc, link, place, who)? {
                Asked::Worn => self.close(link),
                Asked::Joined => self.tell(alloc, link, PortEvent::Joined),
                Asked::Refused(refusal) => self.tell(alloc, link, PortEvent::Refused(refusal)),
            }
        } else {
            self.call_leave(link);
            Ok(())
        }
    }

    /// A message is passed on, where the session lasts. Where the hub is worn the link is closed.
    fn forward(&mut self, alloc: Global, link: u32, place: u64, m: &[u8]) -> Result<(), NoMemory>
        requires route { IsTrue (has_route m.now) }
        requires some { Stands None self.old }
        ensures { OnOk result (Becomes (unless_over link (forwards link place m.now)) self.old self.new) }
    {
        if self.has_side(link) {
            match self.call_forward(alloc, link, place, m)? {
                Passed::Alone => Ok(()),
                Passed::Worn => self.close(link),
                Passed::Made => Ok(()),
            }
        } else {
            Ok(())
        }
    }

    /// A message comes to the port, where the session lasts: what it does.
    fn hear_from(
        &mut self,
        alloc: Global,
        link: u32,
        m: &[u8],
    ) -> Result<Option<PortAction>, NoMemory>
        requires some { Stands None self.old }
        ensures fits { IfOk result (λ o. IfSome o (λ action. Fits None m.now action)) }
        ensures left { IfOk result (λ o. IfSome o (λ action. HasSide self.new link (λ side. LeavesBy action side))) }
        ensures told { IfOk result (λ o. (F : List NameOf) (w : WorldOf) → w.now ≡ self.old.clock
            → WorldKeptAs self.old F None w
            → Heard o link m.now self.old self.new F w) }
    {
        let Some(hub) = self.hub_of(link) else {
            return Ok(None);
        };
        let max = self.hubs[hub as usize].about.hub.max_bvlc;
        let now = self.clock;
        let kept = &mut self.links[link as usize];
        kept.receive(alloc, now, max, m)
    }

    /// Carries out what the port does at a message.
    fn act(
        &mut self,
        alloc: Global,
        link: u32,
        place: u64,
        m: &[u8],
        action: PortAction,
    ) -> Result<(), NoMemory>
        requires some { Stands (Some link) self.old }
        requires fits { Fits None m.now action }
        requires left { HasSide self.old link (λ side. LeavesBy action side) }
        ensures { OnOk result (BecomesBusy (Some link) None (unless_over link (acts link place m.now action)) self.old self.new) }
    {
        match action {
            PortAction::Connect(who) => self.connect(alloc, link, place, who),
            PortAction::Forward => self.forward(alloc, link, place, m),
            PortAction::Does(output) => self.carry_out(alloc, link, output),
            PortAction::Reject(_) => self.close(link),
            PortAction::Discard(_) | PortAction::Deny(_) => Ok(()),
        }
    }

    /// A message comes, with its place: the port is told, and what it does is carried out.
    pub(crate) fn receive(
        &mut self,
        alloc: Global,
        link: u32,
        place: u64,
        m: &[u8],
    ) -> Result<(), NoMemory>
        requires some { Stands None self.old }
        ensures { OnOk result (Becomes (unless_over link (receives link place m.now)) self.old self.new) }
    {
        match self.hear_from(alloc, link, m)? {
            Some(action) => self.act(alloc, link, place, m, action),
            None => Ok(()),
        }
    }
}
