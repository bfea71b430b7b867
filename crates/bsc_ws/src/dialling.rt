//! The client's handshake.
ghost use Rattle.std.specs.Prelude.{◌≡◌, ℕ, List, IfOk};
ghost use Rattle.bsc_ws.specs.Limits.{HasOurLimits};
ghost use Rattle.bsc_ws.specs.Protocols.{NamesOnly};
ghost use Rattle.http.specs.Request.{head_of};
ghost use Rattle.http_uri.specs.Uri.{Spells};
ghost use Rattle.tungstenite.specs.Heads.{HeardAnswer};
ghost use Rattle.websocket.specs.declared.protocol.config.Role.TheVariants as Role;

use crate::bounds::limits;
use crate::failure::fault_of;
use crate::protocol::{header, value_of};
use crate::stream_link::StreamLink;
use bsc_edge::{Kind, LinkFault, Patience};
use http::uri::UriError;
use http::{Request, Uri};
use std::alloc::Global;
use std::io::{Read, Write};
use tungstenite::MaskKeys;
use tungstenite::handshake::HandshakeError;
use tungstenite::handshake::client::start;

/// The request to what this URI names.
fn request_to(alloc: Global, uri: &str) -> Result<Request<()>, LinkFault>
    ensures { IfOk result (λ r. Spells uri.now (head_of r).uri) }
{
    match Uri::from_str(alloc, uri) {
        Ok(uri) => {
            let mut request = Request::new(alloc, ());
            *request.uri_mut() = uri;
            Ok(request)
        }
        Err(UriError::OutOfMemory) => Err(LinkFault::NoMemory),
        Err(_) => Err(LinkFault::Failed),
    }
}

/// The request to what this URI names that offers the sub-protocol of this kind.
fn offer(alloc: Global, uri: &str, kind: Kind) -> Result<Request<()>, LinkFault>
    ensures named { IfOk result (λ r. NamesOnly (head_of r).headers kind) }
    ensures uri { IfOk result (λ r. Spells uri.now (head_of r).uri) }
{
    let mut request = request_to(alloc, uri)?;
    match request.headers_mut().insert(header(), value_of(kind)) {
        Ok(_) => Ok(request),
        Err(_) => Err(LinkFault::NoMemory),
    }
}

/// The sixteen octets that a client's handshake is known by.
fn nonce_of<K: MaskKeys>(keys: &mut K) -> [u8; 16] {
    let mut nonce = [0u8; 16];
    for i in 0..4usize {
        nonce[4 * i..4 * i + 4].copy_from_slice(&keys.next_key());
    }
    nonce
}

/// The link of this kind over a stream, by a request to what this URI names that offers its sub-protocol alone.
fn shake<T: Read + Write + Drop, W: Patience + Drop, K: MaskKeys + Drop>(
    alloc: Global,
    nonce: [u8; 16],
    request: Request<()>,
    stream: T,
    wait: W,
    keys: K,
    _uri: &str,
    kind: Kind,
) -> Result<StreamLink<T, W, K>, LinkFault>
    requires named { NamesOnly (head_of request).headers kind }
    requires uri { Spells _uri.now (head_of request).uri }
    ensures answered { IfOk result (λ _. (key : List ℕ) × HeardAnswer key) }
    ensures kind { IfOk result (λ l. l.kind ≡ kind) }
    ensures role { IfOk result (λ l. l.socket.conn.role ≡ Role.Client) }
    ensures limits { IfOk result (λ l. HasOurLimits l.socket.conn.config.max_message_size l.socket.conn.config.max_frame_size
        l.socket.conn.config.accept_unmasked_frames) }
    ensures wait { IfOk result (λ l. l.wait ≡ wait) }
    ensures faults { IfOk result (λ l. l.faults ≡ 0) }
    ensures quiets { IfOk result (λ l. l.quiets ≡ 0) }
{
    match start(alloc, nonce, keys, request, stream, Some(limits())) {
        Ok(rounds) => match rounds.handshake() {
            Ok((socket, _response)) => Ok(StreamLink::over(socket, wait, kind)),
            Err(HandshakeError::Failure(error)) => Err(fault_of(error)),
            Err(HandshakeError::Interrupted(_)) => Err(LinkFault::Failed),
        },
        Err(error) => Err(fault_of(error)),
    }
}

/// The link to the peer at the other end of this stream, whose reads wait. It offers the sub-protocol of its kind, and
/// refuses an answer without it. Fails where the stream would block once.
pub fn dial<T: Read + Write + Drop, W: Patience + Drop, K: MaskKeys + Drop>(
    alloc: Global,
    stream: T,
    wait: W,
    keys: K,
    uri: &str,
    kind: Kind,
) -> Result<StreamLink<T, W, K>, LinkFault>
    // The peer answered: a head came that accepts a request with some key (RFC 6455, section 4.1).
    ensures answered { IfOk result (λ _. (key : List ℕ) × HeardAnswer key) }
    ensures kind { IfOk result (λ l. l.kind ≡ kind) }
    ensures role { IfOk result (λ l. l.socket.conn.role ≡ Role.Client) }
    ensures limits { IfOk result (λ l. HasOurLimits l.socket.conn.config.max_message_size l.socket.conn.config.max_frame_size
        l.socket.conn.config.accept_unmasked_frames) }
    ensures wait { IfOk result (λ l. l.wait ≡ wait) }
    ensures faults { IfOk result (λ l. l.faults ≡ 0) }
    ensures quiets { IfOk result (λ l. l.quiets ≡ 0) }
{
    let mut keys = keys;
    let nonce = nonce_of(&mut keys);
    let request = offer(alloc, uri, kind)?;
    shake(alloc, nonce, request, stream, wait, keys, uri, kind)
}
