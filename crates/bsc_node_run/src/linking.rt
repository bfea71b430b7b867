//! The links of a node by their names.
ghost use Rattle.std.specs.Prelude.{◌≡◌, not, [], ◌∷◌, ◌++◌, true, false, None, Some, Option, is_some, ◌&&◌, OnErr, OnOk, IfOk};
ghost use Rattle.std.specs.Prelude.{List, ℕ, ◌<◌, ◌==◌, length, vec_len, slice_get, slice_set};
ghost use Rattle.std.specs.List.{list_any};
ghost use Rattle.bsc_node.specs.declared.link_name.LinkName.{LinkName as LinkNameType};
ghost use Rattle.bsc_node.specs.Links.{same_link};
ghost use Rattle.bsc_node_run.specs.Worlds.{Becomes, Dialling, begun, ends, forgets, is_of, is_open, link_if, link_in};
ghost use Rattle.bsc_node_run.specs.Worlds.{with_link, with_news, with_over, without, without_arrived, world_of};

use crate::link_set::LinkSet;
use crate::news::{Change, News};
use bsc_connector::Side;
use bsc_direct::SLOTS;
use bsc_node::LinkName;
use bsc_octets::NoMemory;
use std::alloc::Global;
use std::collections::VecDeque;
use std::mem;

/// Whether this is news of the link of a name.
fn is_of(name: LinkName, news: &News) -> bool
    ensures { result ≡ is_of name news.now }
{
    same_link(news.link, name)
}

/// News without those of a link.
fn drop_of(name: LinkName, news: &mut VecDeque<News>)
    ensures { news.new.items ≡ without name news.old.items }
{
    news.retain(|n| !is_of(name, n));
}

/// Whether two names are the same.
pub(crate) fn same_link(a: LinkName, b: LinkName) -> bool
    ensures { result ≡ same_link a b }
{
    match (a, b) {
        (LinkName::Hub(Side::Primary), LinkName::Hub(Side::Primary)) => true,
        (LinkName::Hub(Side::Failover), LinkName::Hub(Side::Failover)) => true,
        (LinkName::Direct(j), LinkName::Direct(k)) => j == k,
        _ => false,
    }
}

/// Puts a link into a slot, and gives the one that was there.
fn replace_in<L: Drop>(slots: &mut Vec<Option<L>>, k: u32, link: Option<L>) -> Option<L>
    requires within { k < SLOTS }
    requires all { vec_len slots.old ≡ SLOTS }
    ensures old { result ≡ link_if (slice_get slots.old.items k) }
    ensures new { slots.new.items ≡ slice_set slots.old.items k link }
    ensures len { vec_len slots.new ≡ SLOTS }
{
    mem::replace(&mut slots[k as usize], link)
}

impl<L: Drop> LinkSet<L> {
    /// No links, and nothing new.
    pub fn make(alloc: Global) -> Result<LinkSet<L>, NoMemory>
        ensures links { IfOk result (λ s. (name : LinkNameType) → link_in s name ≡ None) }
        ensures arrived { IfOk result (λ s. s.arrived ≡ None) }
        ensures over { IfOk result (λ s. s.over.items ≡ []) }
        ensures due { IfOk result (λ s. s.due.items ≡ []) }
        ensures waiting { IfOk result (λ s. s.waiting.items ≡ []) }
        ensures finished { IfOk result (λ s. s.finished ≡ false) }
    {
        let mut slots = Vec::new(alloc);
        slots.resize_with(SLOTS as usize, || None)?;
        Ok(LinkSet {
            primary: None,
            failover: None,
            slots,
            arrived: None,
            over: Vec::new(alloc),
            due: VecDeque::new(alloc),
            waiting: VecDeque::new(alloc),
            finished: false,
        })
    }

    /// Whether the node told that it has ended.
    pub fn has_finished(&self) -> bool
        ensures { result ≡ self.now.finished }
    {
        self.finished
    }

    /// Whether something new of a link is left to be told to the node.
    pub fn has_news(&self) -> bool
        ensures { result ≡ not (length self.now.waiting.items == 0) }
    {
        !self.waiting.is_empty()
    }

    /// Puts a link in the place of a name, and gives the one that was there.
    pub(crate) fn replace(&mut self, name: LinkName, link: Option<L>) -> Option<L>
        ensures old { result ≡ link_in self.old name }
        ensures new { Becomes (with_link name link) self.old self.new }
    {
        match name {
            LinkName::Hub(Side::Primary) => mem::replace(&mut self.primary, link),
            LinkName::Hub(Side::Failover) => mem::replace(&mut self.failover, link),
            LinkName::Direct(k) => if k < SLOTS {
                replace_in(&mut self.slots, k, link)
            } else {
                None
            },
        }
    }

    /// Takes the link that arrived.
    pub(crate) fn take_arrived(&mut self) -> Option<L>
        ensures old { result ≡ self.old.arrived }
        ensures new { Becomes without_arrived self.old self.new }
    {
        self.arrived.take()
    }

    /// Whether the link of a name is there.
    pub(crate) fn is_there(&self, name: LinkName) -> bool
        ensures { result ≡ is_some (link_in self.now name) }
    {
        match name {
            LinkName::Hub(Side::Primary) => self.primary.is_some(),
            LinkName::Hub(Side::Failover) => self.failover.is_some(),
            LinkName::Direct(k) => match self.slots.get(k as usize) {
                Some(link) => link.is_some(),
                None => false,
            },
        }
    }

    /// Whether the node isn't told yet that the link of a name opened.
    fn is_opening(&self, name: LinkName) -> bool
        ensures { result ≡ list_any (is_of name) self.now.waiting.items }
    {
        self.waiting.iter().any(|news| is_of(name, news))
    }

    /// Whether the link of a name is there, and the node was told so.
    pub(crate) fn is_open(&self, name: LinkName) -> bool
        ensures { (d : Dialling L) (h : Option (List ℕ)) → result ≡ is_open name (world_of self.now d h) }
    {
        self.is_there(name) && !self.is_opening(name)
    }

    /// A link was taken out.
    pub(crate) fn end(&mut self, link: L) -> Result<(), NoMemory>
        ensures over { OnOk result (Becomes (with_over link) self.old self.new) }

        // Where there is no memory to keep it, all else is as it was.
        ensures dropped { OnErr result (Becomes (λ w. w) self.old self.new) }
    {
        match self.over.push(link) {
            Ok(()) => Ok(()),
            Err(_) => Err(NoMemory),
        }
    }

    /// The link of a name is over: it is taken out, where there is one.
    pub(crate) fn take_out(&mut self, name: LinkName) -> Result<(), NoMemory>
        ensures over { OnOk result ((l : L) → link_in self.old name ≡ Some l → Becomes (ends name l) self.old self.new) }
        ensures dropped { OnErr result (Becomes (with_link name None) self.old self.new) }
    {
        match self.replace(name, None) {
            Some(link) => self.end(link),
            None => Ok(()),
        }
    }

    /// Something is new of a link.
    pub(crate) fn note(&mut self, link: LinkName, change: Change) -> Result<(), NoMemory>
        ensures news { OnOk result (Becomes (with_news link change) self.old self.new) }
        ensures missed { OnErr result (Becomes (λ w. w) self.old self.new) }
    {
        match self.waiting.push_back(News { link, change }) {
            Ok(()) => Ok(()),
            Err(_) => Err(NoMemory),
        }
    }

    /// What is new of a link isn't told any more.
    pub(crate) fn forget(&mut self, name: LinkName)
        ensures { Becomes (forgets name) self.old self.new }
    {
        drop_of(name, &mut self.due);
        drop_of(name, &mut self.waiting);
    }

    /// A turn begins: what is new by now is told in it, and the links that were taken out before are dropped.
    pub(crate) fn begin_turn(&mut self, alloc: Global)
        ensures { Becomes begun self.old self.new }
    {
        self.over.clear();
        self.due = mem::replace(&mut self.waiting, VecDeque::new(alloc));
    }
}
