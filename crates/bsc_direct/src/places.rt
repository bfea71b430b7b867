//! Looking for slots, from the lowest on.
ghost use Rattle.std.specs.Prelude.{◌≡◌, ◌<◌, ℕ, not, position, length, Option, Some};
ghost use Rattle.bsc_octets.specs.Addresses.{same_vmac, same_device};
ghost use Rattle.bsc_direct.specs.Slots.{is_rival};
ghost use Rattle.bsc_direct.specs.Kept.{says_claimed, kept_with};

use crate::bounds::SLOTS;
use crate::slot::Slot;
use bsc_octets::{DeviceId, Identity, Vmac};

/// The number of the slot at a place.
fn number(place: Option<usize>) -> Option<u32>
    requires { (k : ℕ) → place ≡ Some k → k < SLOTS }
    ensures { result ≡ place }
{
    match place {
        Some(place) => Some(place as u32),
        None => None,
    }
}

/// The place of the lowest slot that is free.
pub(crate) fn place_free(slots: &[Slot]) -> Option<usize>
    ensures { result ≡ position (λ s. not (says_claimed s)) slots.now }
{
    slots.iter().position(|slot| slot.is_free())
}

fn place_of_vmac(slots: &[Slot], v: Vmac) -> Option<usize>
    ensures { result ≡ kept_with (λ who. same_vmac who.vmac v) slots.now }
{
    slots.iter().position(|slot| slot.has_vmac(v))
}

fn place_of_device(slots: &[Slot], device: DeviceId) -> Option<usize>
    ensures { result ≡ kept_with (λ who. same_device who.device device) slots.now }
{
    slots.iter().position(|slot| slot.has_device(device))
}

fn place_of_rival(slots: &[Slot], who: &Identity) -> Option<usize>
    ensures { result ≡ kept_with (is_rival who.now) slots.now }
{
    slots.iter().position(|slot| slot.is_rival_of(who))
}

/// The slot that is established with this VMAC.
pub(crate) fn with_vmac(slots: &[Slot], v: Vmac) -> Option<u32>
    requires { length slots.now ≡ SLOTS }
    ensures { result ≡ kept_with (λ who. same_vmac who.vmac v) slots.now }
{
    number(place_of_vmac(slots, v))
}

/// The slot that is established with this device.
pub(crate) fn with_device(slots: &[Slot], device: DeviceId) -> Option<u32>
    requires { length slots.now ≡ SLOTS }
    ensures { result ≡ kept_with (λ who. same_device who.device device) slots.now }
{
    number(place_of_device(slots, device))
}

/// The slot that is established with this VMAC by another device.
pub(crate) fn rival_of(slots: &[Slot], who: &Identity) -> Option<u32>
    requires { length slots.now ≡ SLOTS }
    ensures { result ≡ kept_with (is_rival who.now) slots.now }
{
    number(place_of_rival(slots, who))
}
