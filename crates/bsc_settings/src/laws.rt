//! How small and how great numbers of settings may be, and that a node by its settings is a node, carried by functions that do
//! nothing.
ghost use Rattle.std.specs.Prelude.{◌≡◌, ◌<◌, ◌^◌, length};
ghost use Rattle.bsc_frame.specs.Payloads.{IsNode};
ghost use Rattle.bsc_settings.specs.declared.bounds.TheConstants.{GREATEST_MS, LEAST_MS, MAX_GROUP_LEN, MOST_TURNS};
ghost use Rattle.bsc_settings.specs.Parts.{node_identity_of};

use crate::node::NodeSettings;
use bsc_octets::{DeviceId, Vmac};

/// Times are of 100 ms to an hour, turns are 2^40 at most, and a group has 16 letters at most.
pub fn times_are_of_100_ms_to_an_hour()
    ensures least { LEAST_MS ≡ 100 }
    ensures greatest { GREATEST_MS ≡ 3600000 }
    ensures turns { MOST_TURNS ≡ 2 ^ 40 }
    ensures group { MAX_GROUP_LEN ≡ 16 }
{}

/// An address has six octets.
fn has_six(vmac: &Vmac)
    ensures { length vmac.now.0 ≡ 6 }
{
    let _octets: &[u8] = &vmac.0;
}

/// A device UUID has sixteen octets.
fn has_sixteen(device: &DeviceId)
    ensures { length device.now.0 ≡ 16 }
{
    let _octets: &[u8] = device.0.as_bytes();
}

/// A number of 16 bits is in its range.
fn in_range(number: u16)
    ensures { number < 2 ^ 16 }
{}

/// Who a node is by its settings can be said in a Connect-Request: its address is neither zero nor the broadcast address.
pub fn settings_are_of_nodes(settings: &NodeSettings)
    ensures { IsNode (node_identity_of settings.now) }
{
    has_six(&settings.vmac);
    has_sixteen(&settings.uuid);
    in_range(settings.max_bvlc);
    in_range(settings.max_npdu);
}
