//! What follows a message at a port.
ghost use Rattle.std.specs.Prelude.{◌≡◌, option_map, IsTrue};
ghost use Rattle.bsc_octets.specs.Forwarding.{has_route};
ghost use Rattle.bsc_accept.specs.declared.step.Step.{Step};
ghost use Rattle.bsc_port.specs.Actions.{action_by, quiet_by};

use crate::guarding::{denied_connect, denied_from};
use crate::output::{Output, output_of};
use bsc_accept::Step;
use bsc_checks::{Check, Verdict};
use bsc_lines::Denial;
use bsc_octets::{Identity, Vmac};
use bsc_policy::Policy;

/// What whoever holds a port does about a message.
#[derive(Debug, Drop)]
pub enum PortAction {
    /// Do this with the link. The hub isn't called.
    Does(Output),
    /// Do nothing: the message fails this check, which is met by silence.
    Discard(Check),
    /// Ask the hub to let this device join, and tell the port `Joined` or `Refused` then; or close the link.
    Connect(Identity),
    /// Give the message to the hub, which forwards it.
    Forward,
    /// Do nothing: the policy denies this message.
    Deny(Denial),
    /// Close the link: the policy doesn't admit the device.
    Reject(Denial),
}

/// What follows a message about which the machine does nothing.
fn quiet_by(verdict: &Verdict) -> PortAction
    ensures { result ≡ quiet_by verdict.now }
{
    match verdict {
        Verdict::Silent(check) => PortAction::Discard(*check),
        Verdict::Pass(_) | Verdict::Carry(_) | Verdict::Nak(_, _) => PortAction::Does(
            Output::Nothing,
        ),
    }
}

/// What follows a message, by its verdict and the step of the machine.
pub(crate) fn action_by(
    policy: Option<&Policy>,
    from: Option<Vmac>,
    m: &[u8],
    verdict: &Verdict,
    step: Step,
) -> PortAction
    requires { step ≡ Step.Up → IsTrue (has_route m.now) }
    ensures { result ≡ action_by (option_map (λ p. p.now) policy.entry) from m.now verdict.now step }
{
    match step {
        Step::Ask(who) => match denied_connect(policy, &who) {
            Some(denial) => PortAction::Reject(denial),
            None => PortAction::Connect(who),
        },
        Step::Up => match denied_from(policy, from, m) {
            Some(denial) => PortAction::Deny(denial),
            None => PortAction::Forward,
        },
        Step::Nothing => quiet_by(verdict),
        Step::Put(_) | Step::PutClose(_, _) | Step::Close(_) => PortAction::Does(output_of(step)),
    }
}
