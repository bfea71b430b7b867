//! The links of a node, by their names.
ghost use Rattle.std.specs.Prelude.{◌≡◌, IfOk, not, true, ℕ, slice_get, length, vec_len};
ghost use Rattle.std.specs.List.{list_any};
ghost use Rattle.bsc_node.specs.declared.link_name.LinkName.{LinkName};
ghost use Rattle.bsc_node.specs.Links.{names};
ghost use Rattle.bsc_node_core.specs.declared.link.Link.{Link};
ghost use Rattle.bsc_node_core.specs.declared.machine.Machine.{Machine};
ghost use Rattle.bsc_accept.specs.Standing.{LeavesAccepting};
ghost use Rattle.bsc_initiate.specs.Standing.{LeavesInitiating};
ghost use Rattle.bsc_node_core.specs.Machines.{dialled_after, dialled_peer, is_fit, says_there, taken_after, taken_peer};
ghost use Rattle.bsc_node_core.specs.Tables.{AgreeUntouched, Sets, Touches, begun, claimed, is_name, kept_in, kept_of, link_at, nothing_kept};
ghost use Rattle.bsc_node_core.specs.Tables.{with_machine, with_machine_and_peer, with_peer};

use crate::link::Link;
use crate::links::Links;
use crate::machine::Machine;
use crate::touched::Touched;
use bsc_accept::{Accepting, Step};
use bsc_connector::Side;
use bsc_direct::SLOTS;
use bsc_initiate::{InitStep, Initiating};
use bsc_node::LinkName;
use bsc_octets::{Identity, NoMemory};
use std::alloc::Global;

/// Whether one of these links is there.
fn any_there(links: &[Link]) -> bool
    ensures { result ≡ list_any (λ (l : Link). says_there l.machine) links.now }
{
    links.iter().any(|link| link.is_there())
}

/// Writes these links over as many others.
fn write_over(links: &mut Vec<Link>, from: &[Link])
    requires { vec_len links.old ≡ length from.now }
    ensures items { links.new.items ≡ from.now }
    ensures len { vec_len links.new ≡ vec_len links.old }
{
    links.as_mut_slice().copy_from_slice(from);
}

impl Links {
    /// No link ever began.
    pub(crate) fn make(alloc: Global) -> Result<Links, NoMemory>
        ensures primary { IfOk result (λ ls. kept_of ls.primary ≡ nothing_kept) }
        ensures failover { IfOk result (λ ls. kept_of ls.failover ≡ nothing_kept) }
        ensures slots { IfOk result (λ ls. (k : ℕ) → kept_in (slice_get ls.slots.items k) ≡ nothing_kept) }
    {
        let none = Link::none();
        Ok(Links {
            primary: none,
            failover: none,
            slots: vec![in alloc; none; SLOTS as usize]?,
            touched: Touched::Nothing,
        })
    }

    /// The same links in memory of their own.
    pub(crate) fn copy(&self, alloc: Global) -> Result<Links, NoMemory>
        ensures primary { IfOk result (λ ls. ls.primary ≡ self.now.primary) }
        ensures failover { IfOk result (λ ls. ls.failover ≡ self.now.failover) }
        ensures slots { IfOk result (λ ls. ls.slots.items ≡ self.now.slots.items) }
    {
        Ok(Links {
            primary: self.primary,
            failover: self.failover,
            slots: Vec::from_slice(alloc, self.slots.as_slice())?,
            touched: self.touched,
        })
    }

    /// Becomes all of these, in the memory that it has.
    fn copy_from(&mut self, links: &Links)
        ensures primary { self.new.primary ≡ links.now.primary }
        ensures failover { self.new.failover ≡ links.now.failover }
        ensures slots { self.new.slots.items ≡ links.now.slots.items }
    {
        self.primary = links.primary;
        self.failover = links.failover;
        write_over(&mut self.slots, links.slots.as_slice());
    }

    /// Becomes this one of these.
    fn copy_one(&mut self, links: &Links, name: LinkName)
        ensures { Sets self.old self.new name (link_at links.now name) }
    {
        match name {
            LinkName::Hub(Side::Primary) => self.primary = links.primary,
            LinkName::Hub(Side::Failover) => self.failover = links.failover,
            LinkName::Direct(k) => if k < SLOTS {
                self.slots[k as usize] = links.slots[k as usize];
            },
        }
    }

    /// Becomes the same as these, of which those that weren't touched are the same already.
    pub(crate) fn catch_up(&mut self, links: &Links)
        ensures { AgreeUntouched self.old links.now → (name : LinkName) → is_name name ≡ true → link_at self.new name ≡ link_at links.now name }
    {
        match links.touched {
            Touched::Nothing => {}
            Touched::One(name) => self.copy_one(links, name),
            Touched::Many => self.copy_from(links),
        }
    }

    /// What is kept of a link.
    pub(crate) fn get(&self, name: LinkName) -> Link
        ensures { kept_of result ≡ link_at self.now name }
    {
        match name {
            LinkName::Hub(Side::Primary) => self.primary,
            LinkName::Hub(Side::Failover) => self.failover,
            LinkName::Direct(k) => match self.slots.get(k as usize) {
                Some(link) => *link,
                None => Link::none(),
            },
        }
    }

    /// Keeps this of a link.
    pub(crate) fn set(&mut self, name: LinkName, link: Link)
        ensures sets { Sets self.old self.new name (kept_of link) }
        ensures touches { Touches self.old self.new name }
    {
        self.touched = self.touched.also(name);
        match name {
            LinkName::Hub(Side::Primary) => self.primary = link,
            LinkName::Hub(Side::Failover) => self.failover = link,
            LinkName::Direct(k) => if k < SLOTS {
                self.slots[k as usize] = link;
            },
        }
    }

    /// Whether a link is there.
    pub(crate) fn is_there(&self, name: LinkName) -> bool
        ensures { result ≡ says_there (link_at self.now name).machine }
    {
        self.get(name).is_there()
    }

    /// The link's machine goes on.
    fn go_on(&mut self, name: LinkName, machine: Machine)
        requires { is_fit machine ≡ true }
        ensures sets { Sets self.old self.new name (with_machine machine (link_at self.old name)) }
        ensures touches { Touches self.old self.new name }
    {
        match name {
            LinkName::Hub(side) => {
                self.touched = self.touched.also(name);
                match side {
                    Side::Primary => self.primary.machine = machine,
                    Side::Failover => self.failover.machine = machine,
                }
            }
            LinkName::Direct(_) => {
                let link = self.get(name);
                self.set(name, link.with_machine(machine));
            }
        }
    }

    /// The peer of a link has named itself.
    fn meet(&mut self, name: LinkName, who: Identity)
        ensures sets { Sets self.old self.new name (with_peer who (link_at self.old name)) }
        ensures touches { Touches self.old self.new name }
    {
        let link = self.get(name);
        self.set(name, link.with_peer(who));
    }

    /// A link is over. Its peer stays known.
    pub(crate) fn end(&mut self, name: LinkName)
        ensures sets { Sets self.old self.new name (with_machine Machine.Gone (link_at self.old name)) }
        ensures touches { Touches self.old self.new name }
    {
        self.go_on(name, Machine::Gone);
    }

    /// A link begins, with this machine.
    pub(crate) fn begin(&mut self, name: LinkName, machine: Machine)
        requires { is_fit machine ≡ true }
        ensures sets { Sets self.old self.new name (begun machine (link_at self.old name)) }
        ensures touches { Touches self.old self.new name }
    {
        let link = self.get(name);
        self.set(name, link.begun(machine));
    }

    /// The machine of a link that was dialled goes on by a step, by which its peer may have named itself.
    pub(crate) fn go_on_dialled(&mut self, name: LinkName, machine: Initiating, step: &InitStep)
        requires { LeavesInitiating step.now machine }
        ensures sets { Sets self.old self.new name
            (with_machine_and_peer (dialled_after machine step.now) (dialled_peer step.now (link_at self.old name).peer) (link_at self.old name)) }
        ensures touches { Touches self.old self.new name }
    {
        match step {
            InitStep::PutClose(_, _) | InitStep::Close(_) | InitStep::Refused { .. } => {
                self.go_on(name, Machine::Over)
            }
            InitStep::Connected(who) => {
                self.go_on(name, Machine::Dialled(machine));
                self.meet(name, *who);
            }
            InitStep::Put(_) | InitStep::Up | InitStep::Nothing => {
                self.go_on(name, Machine::Dialled(machine))
            }
        }
    }

    /// The machine of a link that was taken goes on by a step, by which its peer may have named itself.
    pub(crate) fn go_on_taken(&mut self, name: LinkName, machine: Accepting, step: &Step)
        requires { LeavesAccepting step.now machine }
        ensures sets { Sets self.old self.new name
            (with_machine_and_peer (taken_after machine step.now) (taken_peer step.now (link_at self.old name).peer) (link_at self.old name)) }
        ensures touches { Touches self.old self.new name }
    {
        match step {
            Step::PutClose(_, _) | Step::Close(_) => self.go_on(name, Machine::Over),
            Step::Ask(who) => {
                self.go_on(name, Machine::Asked(machine));
                self.meet(name, *who);
            }
            Step::Put(_) | Step::Up | Step::Nothing => { self.go_on(name, Machine::Taken(machine)) }
        }
    }

    /// The slot of a link was claimed: no link began in it since.
    pub(crate) fn claim(&mut self, k: u32)
        ensures sets { Sets self.old self.new (LinkName.Direct k) (claimed (link_at self.old (LinkName.Direct k))) }
        ensures touches { Touches self.old self.new (LinkName.Direct k) }
    {
        let link = self.get(LinkName::Direct(k));
        self.set(LinkName::Direct(k), link.claimed());
    }

    /// Whether no link at all is there.
    pub(crate) fn none_there(&self) -> bool
        ensures { result ≡ not (list_any (λ name. says_there (link_at self.now name).machine) names) }
    {
        !(self.primary.is_there() || self.failover.is_there() || any_there(self.slots.as_slice()))
    }
}
