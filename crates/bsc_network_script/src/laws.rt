//! The numbers of a network's script, each carried by a function that does nothing.
ghost use Rattle.std.specs.Prelude.{◌≡◌, ◌^◌, ◌-◌, ℕ, Bool, false, Some};
ghost use Rattle.bsc_octets.specs.declared.vmac.Vmac.{Vmac};
ghost use Rattle.bsc_octets.specs.declared.device_id.DeviceId.{DeviceId};
ghost use Rattle.bsc_network.specs.declared.world_step.WorldStep.{WorldStep};
ghost use Rattle.bsc_network_script.specs.declared.line.Line.{Line};
ghost use Rattle.bsc_network_script.specs.Lines.{node_of};
ghost use Rattle.bsc_network_script.specs.Scripts.{has_content, hub_limits, may_try};

/// Each hub has 256 rows and outboxes of 64 frames, and answers 2^52 calls of 2^62 callers.
pub fn hubs_have_256_rows()
    ensures { hub_limits ≡ record { rows = 256; outbox = 64; calls = 2 ^ 52; callers = 2 ^ 62 } }
{}

/// Each node takes messages of 1,600 octets and NPDUs of 1,497.
pub fn nodes_take_1600_octets()
    ensures { (v : Vmac) (u : DeviceId) (direct : Bool)
        → node_of (Some v) (Some u) (Some direct) ≡ Some (Line.Node (record { vmac = v; device = u; max_bvlc = 1600; max_npdu = 1497 }) direct) }
{}

/// 2^63 steps may be tried: after so many none is, and after one less each that has something to send where it sends.
pub fn tries_2_to_the_63_steps()
    ensures no_more { (step : WorldStep) → may_try (2 ^ 63) step ≡ false }
    ensures once_more { (step : WorldStep) → may_try (2 ^ 63 - 1) step ≡ has_content step }
{}
