//! Laws of the established slots, each carried by a function that does nothing.
ghost use Rattle.std.specs.Prelude.{◌≡◌, ℕ, List, [], ◌∷◌, ◌++◌, map, Some, None};
ghost use Rattle.std.specs.List.{range_with_len};
ghost use Rattle.bsc_octets.specs.declared.identity.Identity.{Identity};
ghost use Rattle.bsc_octets.specs.Addresses.{broadcast};
ghost use Rattle.bsc_direct.specs.declared.call.SlotCall.{SlotCall};
ghost use Rattle.bsc_direct.specs.declared.direct.Direct.{Direct};
ghost use Rattle.bsc_direct.specs.Slots.{established, is_claimed, free_slot};
ghost use Rattle.bsc_direct.specs.Laws.{PeersAreApart};
ghost use Rattle.bsc_direct.specs.Standing.{DirectStands};

/// Two established slots never have the same VMAC or the same device.
pub fn established_slots_are_apart()
    ensures { (d : Direct) (calls : List SlotCall) → DirectStands d calls → PeersAreApart calls }
{}

/// No slot is established for the broadcast VMAC.
pub fn no_slot_is_established_for_the_broadcast()
    ensures { (d : Direct) (calls : List SlotCall) → DirectStands d calls → established calls broadcast ≡ None }
{}

/// A connection that comes up claims no slot and frees none: one that is replaced stays claimed until it is released.
pub fn a_replaced_slot_stays_claimed()
    ensures { (calls : List SlotCall) (slot k : ℕ) (who : Identity) → is_claimed (calls ++ SlotCall.Up slot who ∷ []) k ≡ is_claimed calls k }
{}

/// A node has 64 slots: where so many are claimed none is free, and where one less is claimed the last one is free.
pub fn a_node_has_64_slots()
    ensures none_is_free { free_slot (map (λ k. SlotCall.Claim k None) (range_with_len 0 64)) ≡ None }
    ensures last_is_free { free_slot (map (λ k. SlotCall.Claim k None) (range_with_len 0 63)) ≡ Some 63 }
{}
