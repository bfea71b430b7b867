//! Calls on the link of a name, where it stands.
ghost use Rattle.std.specs.Prelude.{◌≡◌, ◌<◌, vec_len, slice_get, slice_set};
ghost use Rattle.bsc_node_run.specs.Calling.{IsHeard, IsPut};
ghost use Rattle.bsc_node_run.specs.Worlds.{Becomes, link_if, link_in, with_link};

use crate::bounds::LINK_WAIT_MS;
use crate::link_set::LinkSet;
use bsc_connector::Side;
use bsc_direct::SLOTS;
use bsc_edge::{Incoming, Link, LinkFault};
use bsc_node::LinkName;
use std::alloc::Global;

/// Receives once on a link, where there is one.
fn receive_on<L: Link + Drop>(
    alloc: Global,
    link: &mut Option<L>,
) -> Option<Result<Incoming, LinkFault>>
    ensures { IsHeard L.talk link.old link.new result }
{
    match link {
        Some(link) => Some(link.receive(alloc, LINK_WAIT_MS)),
        None => None,
    }
}

/// Puts a message on a link, where there is one.
fn put_on<L: Link + Drop>(
    alloc: Global,
    link: &mut Option<L>,
    octets: &[u8],
) -> Result<(), LinkFault>
    ensures { IsPut L.talk octets.now link.old link.new result }
{
    match link {
        Some(link) => link.put(alloc, octets),
        None => Ok(()),
    }
}

/// Receives once on the link in a slot, where there is one.
fn receive_in<L: Link + Drop>(
    alloc: Global,
    slots: &mut Vec<Option<L>>,
    k: u32,
) -> Option<Result<Incoming, LinkFault>>
    requires within { k < SLOTS }
    requires all { vec_len slots.old ≡ SLOTS }
    ensures heard { IsHeard L.talk (link_if (slice_get slots.old.items k)) (link_if (slice_get slots.new.items k)) result }
    ensures new { slots.new.items ≡ slice_set slots.old.items k (link_if (slice_get slots.new.items k)) }
    ensures len { vec_len slots.new ≡ SLOTS }
{
    receive_on(alloc, &mut slots[k as usize])
}

/// Puts a message on the link in a slot, where there is one.
fn put_in<L: Link + Drop>(
    alloc: Global,
    slots: &mut Vec<Option<L>>,
    k: u32,
    octets: &[u8],
) -> Result<(), LinkFault>
    requires within { k < SLOTS }
    requires all { vec_len slots.old ≡ SLOTS }
    ensures put { IsPut L.talk octets.now (link_if (slice_get slots.old.items k)) (link_if (slice_get slots.new.items k)) result }
    ensures new { slots.new.items ≡ slice_set slots.old.items k (link_if (slice_get slots.new.items k)) }
    ensures len { vec_len slots.new ≡ SLOTS }
{
    put_on(alloc, &mut slots[k as usize], octets)
}

impl<L: Link + Drop> LinkSet<L> {
    /// Receives once on the link of a name, where there is one.
    pub(crate) fn receive(
        &mut self,
        alloc: Global,
        name: LinkName,
    ) -> Option<Result<Incoming, LinkFault>>
        ensures heard { IsHeard L.talk (link_in self.old name) (link_in self.new name) result }
        ensures new { Becomes (with_link name (link_in self.new name)) self.old self.new }
    {
        match name {
            LinkName::Hub(Side::Primary) => receive_on(alloc, &mut self.primary),
            LinkName::Hub(Side::Failover) => receive_on(alloc, &mut self.failover),
            LinkName::Direct(k) => if k < SLOTS {
                receive_in(alloc, &mut self.slots, k)
            } else {
                None
            },
        }
    }

    /// Puts a message on the link of a name, where there is one.
    pub(crate) fn put(
        &mut self,
        alloc: Global,
        name: LinkName,
        octets: &[u8],
    ) -> Result<(), LinkFault>
        ensures put { IsPut L.talk octets.now (link_in self.old name) (link_in self.new name) result }
        ensures new { Becomes (with_link name (link_in self.new name)) self.old self.new }
    {
        match name {
            LinkName::Hub(Side::Primary) => put_on(alloc, &mut self.primary, octets),
            LinkName::Hub(Side::Failover) => put_on(alloc, &mut self.failover, octets),
            LinkName::Direct(k) => if k < SLOTS {
                put_in(alloc, &mut self.slots, k, octets)
            } else {
                Ok(())
            },
        }
    }
}
