//! The calls of the slots.
ghost use Rattle.std.specs.Prelude.{◌≡◌, ◌≢◌, ◌<◌, ℕ, List, [], ◌∷◌, ◌++◌, Some, None, IfOk, OnErr, IfErr};
ghost use Rattle.bsc_octets.specs.Addresses.{broadcast};
ghost use Rattle.bsc_direct.specs.declared.call.SlotCall.{SlotCall};
ghost use Rattle.bsc_direct.specs.Slots.{established};
ghost use Rattle.bsc_direct.specs.Kept.{establish_kept, slots_up, slots_without};
ghost use Rattle.bsc_direct.specs.Left.{IsHeld, LeavesOthers};
ghost use Rattle.bsc_direct.specs.Standing.{DirectStands, IsClaimed, IsFull, DirectAnswers, StandsOn, IsOnlyClaimed};

use crate::bounds::SLOTS;
use crate::direct::Direct;
use crate::establish::Establish;
use crate::places::{place_free, rival_of, with_device, with_vmac};
use crate::slot::Slot;
use crate::slots_full::SlotsFull;
use bsc_octets::{Identity, NoMemory, Vmac};
use std::alloc::Global;

impl Direct {
    /// Slots that are all free.
    pub fn make(alloc: Global) -> Result<Direct, NoMemory>
        ensures { IfOk result (λ d. DirectStands d []) }
    {
        Ok(Direct {
            slots: vec![in alloc; Slot::Free; SLOTS as usize]?,
        })
    }

    /// Claims the lowest free slot for a connection, to this VMAC where one is wanted. `SlotsFull` where all are
    /// claimed.
    pub fn claim(&mut self, wanted: Option<Vmac>) -> Result<u32, SlotsFull>
        ensures claimed { IfOk result (λ slot. IsClaimed self.old self.new slot wanted) }
        ensures only { IfOk result (λ slot. IsOnlyClaimed self.new slot) }
        ensures left { IfOk result (λ slot. LeavesOthers self.old self.new slot) }
        ensures full { IfErr result (λ fault. IsFull self.old fault) }
        ensures err { OnErr result (self.new ≡ self.old) }
    {
        match place_free(&self.slots) {
            Some(place) => {
                self.slots[place] = Slot::Claimed { wanted };
                Ok(place as u32)
            }
            None => Err(SlotsFull { slots: SLOTS }),
        }
    }

    /// Whether the connection of a slot is established, now that its peer is known. The own VMAC is `own`.
    pub fn establish(&mut self, own: Vmac, slot: u32, peer: Identity) -> Establish
        requires claimed { IsOnlyClaimed self.old slot }
        requires unicast { peer.vmac ≢ broadcast }
        ensures answer { DirectAnswers self.old self.new own slot peer result }
        ensures held { IsHeld self.new slot }
        ensures left { LeavesOthers self.old self.new slot }
    {
        match self.answer(own, slot, &peer) {
            Establish::Up { replaced } => {
                self.come_up(slot, peer, replaced);
                Establish::Up { replaced }
            }
            Establish::Duplicate { holder } => Establish::Duplicate { holder },
            Establish::WrongPeer { wanted } => Establish::WrongPeer { wanted },
        }
    }

    /// Whether the connection of a slot is established with this peer.
    pub(crate) fn answer(&self, own: Vmac, slot: u32, peer: &Identity) -> Establish
        requires { slot < SLOTS }
        ensures { result ≡ establish_kept own self.now.slots.items slot peer.now }
    {
        if let Some(wanted) = self.slots[slot as usize].wanted() {
            if wanted != peer.vmac {
                return Establish::WrongPeer { wanted };
            }
        }
        if peer.vmac == own {
            return Establish::Duplicate { holder: None };
        }
        match rival_of(&self.slots, peer) {
            Some(holder) => Establish::Duplicate {
                holder: Some(holder),
            },
            None => Establish::Up {
                replaced: with_device(&self.slots, peer.device),
            },
        }
    }

    /// The slot's connection is established with this peer, in place of that of another slot where one is given.
    fn come_up(&mut self, slot: u32, peer: Identity, replaced: Option<u32>)
        requires slot { slot < SLOTS }
        requires replaced { (k : ℕ) → replaced ≡ Some k → k < SLOTS }
        ensures { self.new.slots.items ≡ slots_up slot peer replaced self.old.slots.items }
    {
        if let Some(replaced) = replaced {
            self.replace(replaced);
        }
        let wanted = self.slots[slot as usize].wanted();
        self.slots[slot as usize] = Slot::Established { wanted, peer };
    }

    /// The slot is no longer established.
    fn replace(&mut self, slot: u32)
        requires { slot < SLOTS }
        ensures { self.new.slots.items ≡ slots_without (Some slot) self.old.slots.items }
    {
        let without = self.slots[slot as usize].without_peer();
        self.slots[slot as usize] = without;
    }

    /// Releases a slot, whose connection is over.
    pub fn release(&mut self, slot: u32)
        ensures stands { StandsOn self.old self.new (SlotCall.Release slot) }
        ensures left { LeavesOthers self.old self.new slot }
    {
        if slot < SLOTS {
            self.slots[slot as usize] = Slot::Free;
        }
    }

    /// The slot that is established for a VMAC.
    pub fn established(&self, v: Vmac) -> Option<u32>
        ensures { (calls : List SlotCall) → DirectStands self.now calls → result ≡ established calls v }
    {
        with_vmac(&self.slots, v)
    }
}
