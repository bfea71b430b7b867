//! The sub-protocols, and who takes them.
ghost use Rattle.std.specs.Prelude.{◌≡◌, codes, IsTrue, IsOk, IfOk, IfErr};
ghost use Rattle.bsc_ws.specs.Protocols.{protocol, Offers, AsksFor, NamesOnly};
ghost use Rattle.http.specs.Response.{head_of};
ghost use Rattle.http_header.specs.FieldValue.{plain_value};

use crate::kinds::OfKind;
use bsc_edge::Kind;
use http::{HeaderName, HeaderValue, Request, Response, StatusCode};
use std::alloc::Global;
use std::marker::PhantomData;
use tungstenite::Callback;
use tungstenite::handshake::server::ErrorResponse;

/// The sub-protocol of links of this kind.
pub(crate) fn protocol_of(kind: Kind) -> &'static str
    ensures { result.now ≡ protocol kind }
{
    match kind {
        Kind::Hub => "hub.bsc.bacnet.org",
        Kind::Direct => "dc.bsc.bacnet.org",
    }
}

/// The same as a header's value.
pub(crate) fn value_of(kind: Kind) -> HeaderValue
    ensures { result ≡ plain_value (protocol kind) }
{
    match kind {
        Kind::Hub => HeaderValue::from_static("hub.bsc.bacnet.org"),
        Kind::Direct => HeaderValue::from_static("dc.bsc.bacnet.org"),
    }
}

/// The header's name.
pub(crate) fn header() -> HeaderName
    ensures { result ≡ codes "sec-websocket-protocol" }
{
    HeaderName::from_static("sec-websocket-protocol")
}

/// Whether one of the parts between commas, without the blanks around it, is this name.
fn offers(text: &str, name: &str) -> bool
    ensures { IsTrue result → Offers text.now name.now }
{
    let mut left = text;
    for _ in 0..=text.len() {
        match left.split_once(',') {
            Some((first, rest)) => {
                if first.trim_ascii() == name {
                    return true;
                }
                left = rest;
            }
            None => return left.trim_ascii() == name,
        }
    }
    false
}

/// Whether the value of a header offers this name.
fn value_offers(value: &HeaderValue, name: &str) -> bool
    ensures { IsTrue result → Offers value.now.bytes name.now }
{
    match value.to_str() {
        Ok(text) => offers(text, name),
        Err(_) => false,
    }
}

/// Whether a request offers the sub-protocol of this kind.
fn asks_for(request: &Request<()>, kind: Kind) -> bool
    ensures { IsTrue result → AsksFor request.now kind }
{
    let name = protocol_of(kind);
    for value in request.headers().get_all("sec-websocket-protocol") {
        if value_offers(value, name) {
            return true;
        }
    }
    false
}

/// What is answered to a request where links of this kind are taken: an answer that names their sub-protocol where the request
/// offers that, and else a refusal with 400.
fn answered(
    alloc: Global,
    kind: Kind,
    request: &Request<()>,
    response: Response<()>,
) -> Result<Response<()>, ErrorResponse>
    ensures taken { IsOk result → AsksFor request.now kind }
    ensures named { IfOk result (λ r. NamesOnly (head_of r).headers kind) }
    ensures refused { IfErr result (λ r. (head_of r).status ≡ 400) }
{
    let mut response = response;
    if asks_for(request, kind) {
        if let Ok(_) = response.headers_mut().insert(header(), value_of(kind)) {
            return Ok(response);
        }
    }
    let mut refused = Response::new(alloc, None);
    *refused.status_mut() = StatusCode::BAD_REQUEST;
    Err(refused)
}

/// Takes a request that offers the sub-protocol of the kind of links `P`, and names that in its answer; refuses others with 400.
#[derive(Drop)]
pub struct Takes<P> {
    pub alloc: Global,
    pub of: PhantomData<P>,
}

impl<P: OfKind> Callback for Takes<P> {
    fn on_request(
        self,
        request: &Request<()>,
        response: Response<()>,
    ) -> Result<Response<()>, ErrorResponse>
        ensures taken { IsOk result → AsksFor request.now P.kind }
        ensures named { IfOk result (λ r. NamesOnly (head_of r).headers P.kind) }
        ensures refused { IfErr result (λ r. (head_of r).status ≡ 400) }
    {
        answered(self.alloc, P::kind(), request, response)
    }
}
