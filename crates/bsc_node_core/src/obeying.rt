//! What follows from a step of a link's machine.
ghost use Rattle.std.specs.Prelude.{◌≡◌, ◌∷◌, ◌++◌, [], map, true, false, Option, None, OnOk};
ghost use Rattle.bsc_octets.specs.declared.identity.Identity.{Identity};
ghost use Rattle.bsc_octets.specs.Addresses.{broadcast, same_vmac};
ghost use Rattle.bsc_frame.specs.declared.message.Message.{Message};
ghost use Rattle.bsc_direct.specs.Slots.{slots};
ghost use Rattle.bsc_node.specs.declared.link_name.LinkName.{LinkName};
ghost use Rattle.bsc_node.specs.Conditions.{is_dialling};
ghost use Rattle.bsc_node.specs.Logs.{Log, in_order};
ghost use Rattle.bsc_node.specs.Links.{meets, opens, outcome};
ghost use Rattle.bsc_node.specs.Events.{obeys, ticks_link};
ghost use Rattle.bsc_initiate.specs.declared.step.InitStep.{InitStep};
ghost use Rattle.bsc_node_core.specs.Tables.{is_name};
ghost use Rattle.bsc_node_core.specs.Rules.{outcome_of};
ghost use Rattle.bsc_node_core.specs.Resting.{FollowsAtRest, IsAtRest};
ghost use Rattle.bsc_node_core.specs.Standing.{Base, Stands};
ghost use Rattle.bsc_node_core.specs.Telling.{HasTold};

use crate::actions::Actions;
use crate::event_context::EventContext;
use crate::state::State;
use bsc_direct::SLOTS;
use bsc_initiate::InitStep;
use bsc_node::LinkName;
use bsc_octets::{NoMemory, Vmac};

impl State {
    /// What follows from a step that passes no message up: what it puts and closes, and then what that brings about.
    pub(crate) fn apply_step(
        &mut self,
        out: &mut Actions,
        at: &EventContext,
        name: LinkName,
        origin: Option<Vmac>,
        step: InitStep,
    ) -> Result<(), NoMemory>
        ensures { OnOk result ((b : Base) (L : Log) (msg : Option Message) → IsAtRest at.now b → is_name name ≡ true
            → ((who : Identity) → outcome b.made L name ≡ meets who → same_vmac who.vmac broadcast ≡ false) → (step ≡ InitStep.Up → msg ≡ None)
            → HasTold b out.old self.old L name (outcome_of origin msg step) → Stands b out.new self.new (L ++ obeys b.made name L)) }
    {
        match step {
            InitStep::Put(octets) => self.put_made(out, at.alloc, name, &octets),
            InitStep::PutClose(octets, closing) => {
                self.put_made(out, at.alloc, name, &octets)?;
                self.close_link(out, at, name, closing)
            }
            InitStep::Close(closing) => self.close_link(out, at, name, closing),
            InitStep::Connected(who) => self.meet_peer(out, at, name, who),
            InitStep::Refused { code } => self.be_refused(out, at, name, origin, code),
            InitStep::Up | InitStep::Nothing => Ok(()),
        }
    }

    /// A link that was dialled has opened.
    pub(crate) fn open(
        &mut self,
        out: &mut Actions,
        at: &EventContext,
        name: LinkName,
    ) -> Result<(), NoMemory>
        ensures { OnOk result ((b : Base) (L : Log) → IsAtRest at.now b → is_name name ≡ true
            → is_dialling name L ≡ true → Stands b out.old self.old L
            → Stands b out.new self.new (L ++ in_order (opens name ∷ obeys b.made name ∷ []) L)) }
    {
        let step = self.opens(at.time, name);
        self.apply_step(out, at, name, None, step)
    }

    /// The machine of a link that is there is told the time.
    pub(crate) fn tick_link(
        &mut self,
        out: &mut Actions,
        at: &EventContext,
        name: LinkName,
    ) -> Result<(), NoMemory>
        ensures { OnOk result ((b : Base) (L : Log) → IsAtRest at.now b → is_name name ≡ true
            → Stands b out.old self.old L
            → Stands b out.new self.new (L ++ ticks_link b.made name L)) }
    {
        if self.links.is_there(name) {
            let step = self.ticks(at.time, name);
            self.apply_step(out, at, name, None, step)
        } else {
            Ok(())
        }
    }

    /// The machines of the links of all slots are told the time, in order.
    pub(crate) fn tick_slots(
        &mut self,
        out: &mut Actions,
        at: &EventContext,
    ) -> Result<(), NoMemory>
        ensures { OnOk result (FollowsAtRest at.now (λ a. in_order (map (λ k. ticks_link a (LinkName.Direct k)) slots))
            out.old self.old out.new self.new) }
    {
        for k in 0..SLOTS {
            self.tick_link(out, at, LinkName::Direct(k))?;
        }
        Ok(())
    }
}
