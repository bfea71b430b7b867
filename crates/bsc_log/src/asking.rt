//! Who asks to join.
ghost use Rattle.std.specs.Prelude.{◌≡◌, None, IfSome, length};
ghost use Rattle.bsc_octets.specs.Identities.{identity_octets, identity_of};
ghost use Rattle.bsc_frame.specs.Payloads.{IsNode};
ghost use Rattle.bsc_log.specs.Asking.{Asks, AsksPlainly};

use bsc_frame::{Body, read};
use bsc_octets::{Identity, Vmac, function, read_identity};
use std::alloc::Global;

/// So many octets stand before the payload of a message without addresses and options.
const HEAD: usize = 4;

/// So many octets say who connects.
const PAYLOAD: usize = 26;

/// Who connects, where a payload says that of a node.
fn node_in(p: &[u8]) -> Option<Identity>
    ensures found { IfSome result (λ who. IsNode who × (identity_octets who ≡ p.now)) }
    ensures none { result ≡ None → length p.now ≡ 26 → ¬ IsNode (identity_of p.now) }
{
    if p.len() != PAYLOAD {
        return None;
    }
    let who = read_identity(p);
    if who.vmac == Vmac::ZERO {
        return None;
    }
    if who.vmac == Vmac::BROADCAST {
        return None;
    }
    Some(who)
}

/// Who asks to join by these octets, if they are a Connect-Request without addresses and options, as nearly all are.
fn plain_asker(m: &[u8]) -> Option<Identity>
    ensures found { IfSome result (λ who. Asks m.now who) }
    ensures none { result ≡ None → ¬ AsksPlainly m.now }
{
    if m.len() != HEAD + PAYLOAD {
        return None;
    }
    if m[0] != function::CONNECT_REQUEST {
        return None;
    }
    if m[1] != 0 {
        return None;
    }
    node_in(&m[HEAD..])
}

/// Who asks to join by these octets, if they are any Connect-Request.
#[cold]
#[inline(never)]
fn any_asker(alloc: Global, m: &[u8]) -> Option<Identity>
    ensures { IfSome result (λ who. Asks m.now who) }
{
    match read(alloc, m) {
        Ok(message) => match &message.body {
            Body::ConnectRequest(who) => Some(*who),
            _ => None,
        },
        Err(_) => None,
    }
}

/// Who asks to join by these octets, if they are a Connect-Request.
pub(crate) fn asker_in(alloc: Global, m: &[u8]) -> Option<Identity>
    ensures found { IfSome result (λ who. Asks m.now who) }
    // A plain one is always known.
    ensures none { result ≡ None → ¬ AsksPlainly m.now }
{
    match plain_asker(m) {
        Some(who) => Some(who),
        None => any_asker(alloc, m),
    }
}
