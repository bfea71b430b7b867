//! What is sent goes to addresses of six octets: each address in code has six.
ghost use Rattle.std.specs.Prelude.{◌≡◌, ℕ, length};
ghost use Rattle.bsc_network.specs.Courses.{IsWhole};
ghost use Rattle.bsc_network.specs.declared.world_step.WorldStep.{WorldStep as StepOf};

use bsc_network::WorldStep;
use bsc_node::NodeEvent;
use bsc_octets::Vmac;

/// A VMAC has six octets.
fn has_six(vmac: &Vmac)
    ensures { length vmac.now.0 ≡ 6 }
{
    let _octets: &[u8] = &vmac.0;
}

/// What a node sends goes to an address of six octets.
fn sends_whole(event: &NodeEvent)
    ensures { (k : ℕ) → IsWhole (StepOf.Node k event.now) }
{
    match event {
        NodeEvent::Send { dest, npdu: _ } => has_six(dest),
        NodeEvent::Start
        | NodeEvent::Tick
        | NodeEvent::Resolve(_)
        | NodeEvent::DirectTo(_)
        | NodeEvent::Solicit(_)
        | NodeEvent::Finish
        | NodeEvent::Opened(_)
        | NodeEvent::DialFailed(_)
        | NodeEvent::Arrived
        | NodeEvent::Came(_, _)
        | NodeEvent::CameText(_)
        | NodeEvent::Lost(_)
        | NodeEvent::Random(_)
        | NodeEvent::NoRandom => (),
    }
}

/// What is sent by a step goes to an address of six octets.
pub(crate) fn is_whole(step: &WorldStep)
    ensures { IsWhole step.now }
{
    match step {
        WorldStep::Node { node: _, event } => sends_whole(event),
        WorldStep::Arrive { .. }
        | WorldStep::Lose { .. }
        | WorldStep::Take { .. }
        | WorldStep::Stop { .. } => (),
    }
}
