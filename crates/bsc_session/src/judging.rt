//! The judging of messages.
ghost use Rattle.std.specs.Prelude.{◌≡◌, ℕ, Ok, Some, IfOk, IfErr, IsTrue, IsFalse};
ghost use Rattle.bsc_octets.specs.declared.envelope.Envelope.{Envelope};
ghost use Rattle.bsc_octets.specs.declared.identity.Identity.{Identity};
ghost use Rattle.bsc_octets.specs.Addresses.{broadcast, same_vmac, zero_vmac};
ghost use Rattle.bsc_octets.specs.Forwarding.{has_route};
ghost use Rattle.bsc_frame.specs.declared.message.Message.{Message};
ghost use Rattle.bsc_checks.specs.declared.phase.Phase.{Phase};
ghost use Rattle.bsc_checks.specs.declared.place.Place.{Place};
ghost use Rattle.bsc_checks.specs.declared.verdict.Verdict.{Verdict};
ghost use Rattle.bsc_accept.specs.Messages.{who_asks};
ghost use Rattle.bsc_checks.specs.Outcomes.{outcome_of};

use bsc_checks::{Phase, Place, Verdict, judge};
use bsc_octets::NoMemory;
use std::alloc::Global;

/// The verdict on a message at the hub's port.
pub fn verdict(alloc: Global, m: &[u8], phase: Phase, max: u16) -> Result<Verdict, NoMemory>
    ensures found { IfOk result (λ v. v ≡ outcome_of m.now (Place.HubPort phase) max) }
    ensures memory { IfErr result (λ _. (msg : Message) × (outcome_of m.now (Place.HubPort phase) max ≡ Verdict.Pass msg)) }

    // What is carried on has a Destination and no origin, and comes once the connection is made.
    ensures route { (e : Envelope) → result ≡ Ok (Verdict.Carry e) → IsTrue (has_route m.now) }
    ensures carried { (e : Envelope) → result ≡ Ok (Verdict.Carry e) → phase ≡ Phase.Connected }

    // Who asks has the address of a node.
    ensures not_zero { (msg : Message) (who : Identity) → result ≡ Ok (Verdict.Pass msg) → who_asks msg.body ≡ Some who
        → IsFalse (same_vmac who.vmac zero_vmac) }
    ensures not_broadcast { (msg : Message) (who : Identity) → result ≡ Ok (Verdict.Pass msg) → who_asks msg.body ≡ Some who
        → IsFalse (same_vmac who.vmac broadcast) }
{
    judge(alloc, m, &Place::HubPort { phase }, max)
}
