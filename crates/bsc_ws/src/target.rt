//! Whom a URI names.
ghost use Rattle.std.specs.Prelude.{IfOk, IfSome, IsTrue};
ghost use Rattle.bsc_ws.specs.Targets.{BeginsWs, Names, NamesAddress};

use bsc_edge::LinkFault;
use http::Uri;
use http::uri::UriError;
use std::alloc::Global;
use std::net::{Ipv4Addr, SocketAddrV4};

/// The port of `ws` where a URI has none.
const PORT: u16 = 80;

/// The address of a host: of `localhost`, and of one that is written in numbers.
fn address_of(host: &str) -> Option<Ipv4Addr>
    ensures { IfSome result (NamesAddress host.now) }
{
    if host == "localhost" {
        return Some(Ipv4Addr::LOCALHOST);
    }
    match host.parse::<Ipv4Addr>() {
        Ok(address) => Some(address),
        Err(_) => None,
    }
}

/// Whether a URI begins with `ws://`.
fn is_ws(uri: &[u8]) -> bool
    ensures { IsTrue result → BeginsWs uri.now }
{
    matches!(uri, [b'w', b's', b':', b'/', b'/', ..])
}

/// The address and port that a URI names, if it is UTF-8, begins with `ws://` and its host is `localhost` or a numeric
/// IPv4 address. A port that isn't one is refused.
pub(crate) fn target_of(alloc: Global, uri: &[u8]) -> Result<SocketAddrV4, LinkFault>
    ensures { IfOk result (Names uri.now) }
{
    if !is_ws(uri) {
        return Err(LinkFault::Failed);
    }
    let parsed = match Uri::from_bytes(alloc, uri) {
        Ok(parsed) => parsed,
        Err(UriError::OutOfMemory) => return Err(LinkFault::NoMemory),
        Err(_) => return Err(LinkFault::Failed),
    };
    let Some(host) = parsed.host() else {
        return Err(LinkFault::Failed);
    };
    let Some(address) = address_of(host) else {
        return Err(LinkFault::Failed);
    };
    let port = match parsed.port_u16() {
        Some(port) => port,
        None => match parsed.authority() {
            Some(authority) if authority.as_str() == host => PORT,
            _ => return Err(LinkFault::Failed),
        },
    };
    Ok(SocketAddrV4::new(address, port))
}
