//! What can be asked of the slots, and copies of them.
ghost use Rattle.std.specs.Prelude.{◌≡◌, ◌<◌, ◌&&◌, List, IfOk, IsTrue, is_none, length, vec_len};
ghost use Rattle.bsc_direct.specs.declared.call.SlotCall.{SlotCall};
ghost use Rattle.bsc_direct.specs.Slots.{establish, established_peer, free_slot, is_claimed, wanted};
ghost use Rattle.bsc_direct.specs.Kept.{says_peer, says_wanted, slot_at};
ghost use Rattle.bsc_direct.specs.Standing.{DirectStands, IsOnlyClaimed};

use crate::bounds::SLOTS;
use crate::direct::Direct;
use crate::establish::Establish;
use crate::places::place_free;
use crate::slot::Slot;
use bsc_octets::{Identity, NoMemory, Vmac};
use std::alloc::Global;

/// Writes these slots over as many others.
fn write_over(slots: &mut Vec<Slot>, from: &[Slot])
    requires { vec_len slots.old ≡ length from.now }
    ensures items { slots.new.items ≡ from.now }
    ensures len { vec_len slots.new ≡ vec_len slots.old }
{
    slots.as_mut_slice().copy_from_slice(from);
}

impl Direct {
    /// The lowest free slot, where one is free.
    pub fn free(&self) -> Option<u32>
        ensures { (calls : List SlotCall) → DirectStands self.now calls → result ≡ free_slot calls }
    {
        match place_free(&self.slots) {
            Some(place) => Some(place as u32),
            None => None,
        }
    }

    /// What is kept of a slot.
    fn slot(&self, slot: u32) -> Slot
        ensures { result ≡ slot_at self.now.slots.items slot }
    {
        match self.slots.get(slot as usize) {
            Some(slot) => *slot,
            None => Slot::Free,
        }
    }

    /// The VMAC that is wanted of the peer of a slot that is claimed, where one is.
    pub fn wanted(&self, slot: u32) -> Option<Vmac>
        ensures { (calls : List SlotCall) → DirectStands self.now calls → result ≡ wanted calls slot }
    {
        self.slot(slot).wanted()
    }

    /// The peer with which a slot is established, where it is.
    pub fn peer(&self, slot: u32) -> Option<Identity>
        ensures { (calls : List SlotCall) → DirectStands self.now calls → result ≡ established_peer calls slot }
    {
        self.slot(slot).peer()
    }

    /// Whether a slot is claimed and not established.
    pub fn awaits_peer(&self, slot: u32) -> bool
        ensures kept { IsTrue result → IsOnlyClaimed self.now slot }
        ensures told { (calls : List SlotCall) → DirectStands self.now calls
            → result ≡ (is_claimed calls slot && is_none (established_peer calls slot)) }
    {
        self.slot(slot).awaits_peer()
    }

    /// What `establish` answers, with nothing established yet.
    pub fn establishes(&self, own: Vmac, slot: u32, peer: &Identity) -> Establish
        requires { slot < SLOTS }
        ensures { (calls : List SlotCall) → DirectStands self.now calls → result ≡ establish own calls slot peer.now }
    {
        self.answer(own, slot, peer)
    }

    /// The same slots in memory of their own.
    pub fn copy(&self, alloc: Global) -> Result<Direct, NoMemory>
        ensures { IfOk result (λ d. d.slots.items ≡ self.now.slots.items) }
    {
        Ok(Direct {
            slots: Vec::from_slice(alloc, self.slots.as_slice())?,
        })
    }

    /// Becomes the same slots as others, in the memory that it has.
    pub fn copy_from(&mut self, other: &Direct)
        ensures { self.new.slots.items ≡ other.now.slots.items }
    {
        write_over(&mut self.slots, other.slots.as_slice());
    }
}
