//! The path of a message to a VMAC.
ghost use Rattle.std.specs.Prelude.{◌≡◌, List};
ghost use Rattle.bsc_octets.specs.Addresses.{broadcast};
ghost use Rattle.bsc_direct.specs.declared.call.SlotCall.{SlotCall};
ghost use Rattle.bsc_direct.specs.Standing.{DirectStands};
ghost use Rattle.bsc_direct.specs.Paths.{hub_path, path};

use crate::direct::Direct;
use crate::routes::Route;
use bsc_connector::HubUse;
use bsc_octets::Vmac;

/// The path over the hub in use, where there is one.
fn over_hub(hub_use: HubUse) -> Route
    ensures { result ≡ hub_path hub_use }
{
    match hub_use {
        HubUse::Primary | HubUse::Failover => Route::Hub,
        HubUse::NoHub => Route::NoPath,
    }
}

/// The path to a VMAC, or to all nodes where it is the broadcast VMAC.
pub fn route(direct: &Direct, hub_use: HubUse, dest: Vmac) -> Route
    ensures path { (calls : List SlotCall) → DirectStands direct.now calls → result ≡ path calls hub_use dest }
    // The path of the broadcast is never a slot.
    ensures broadcast { (calls : List SlotCall) → DirectStands direct.now calls → dest ≡ broadcast → result ≡ hub_path hub_use }
{
    match direct.established(dest) {
        Some(slot) => Route::Direct(slot),
        None => over_hub(hub_use),
    }
}
