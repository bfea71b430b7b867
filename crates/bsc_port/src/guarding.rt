//! What a policy denies at a port.
ghost use Rattle.std.specs.Prelude.{◌≡◌, option_map, Some, IsTrue};
ghost use Rattle.bsc_octets.specs.Forwarding.{has_route};
ghost use Rattle.bsc_port.specs.Guarding.{denied_connect, denied_message, denied_pair};

use bsc_lines::Denial;
use bsc_octets::{Identity, Vmac, destination};
use bsc_policy::{Decision, Policy};

/// What a policy denies of what would go from one address to another.
pub fn denied_pair(policy: &Policy, from: Vmac, to: Vmac) -> Option<Denial>
    ensures { result ≡ denied_pair policy.now from (Some to) }
{
    match policy.decides(from, to) {
        Decision::Allowed { .. } => None,
        Decision::Denied { rule } => Some(Denial::OfPair { rule, from, to }),
    }
}

/// What is denied of a device that asks to join: all, where the policy doesn't admit it.
pub fn denied_connect(policy: Option<&Policy>, who: &Identity) -> Option<Denial>
    ensures { result ≡ denied_connect (option_map (λ p. p.now) policy.entry) who.now }
{
    match policy {
        Some(policy) => if policy.admits(who) {
            None
        } else {
            Some(Denial::OfConnect(who.vmac))
        },
        None => None,
    }
}

/// What is denied of a message of the connection that has this address: a unicast that the policy denies to its
/// Destination. Broadcasts are denied, or not, to each connection that gets them.
pub fn denied_message(policy: Option<&Policy>, from: Vmac, m: &[u8]) -> Option<Denial>
    requires { IsTrue (has_route m.now) }
    ensures { result ≡ denied_message (option_map (λ p. p.now) policy.entry) (Some from) m.now }
{
    let Some(policy) = policy else {
        return None;
    };
    let to = destination(m);
    if to == Vmac::BROADCAST {
        None
    } else {
        denied_pair(policy, from, to)
    }
}

/// The same of a connection that may have none.
pub(crate) fn denied_from(policy: Option<&Policy>, from: Option<Vmac>, m: &[u8]) -> Option<Denial>
    requires { IsTrue (has_route m.now) }
    ensures { result ≡ denied_message (option_map (λ p. p.now) policy.entry) from m.now }
{
    match from {
        Some(from) => denied_message(policy, from, m),
        None => None,
    }
}
