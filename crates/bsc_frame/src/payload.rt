//! The payload of each function, from octets and back.
ghost use Rattle.std.specs.Prelude.{◌≡◌, ◌≤◌, ◌++◌, OnOk};
ghost use Rattle.bsc_frame.specs.Payloads.{payload_of};
ghost use Rattle.bsc_frame.specs.Walk.{BodyAnswers};

use crate::advert::{put_advert, read_advert};
use crate::answer::{put_answer, read_answer};
use crate::bare::read_bare;
use crate::body::Body;
use crate::connect::{put_identity, read_accept, read_request};
use crate::fault::FrameFault;
use crate::npdu::read_npdu;
use crate::proprietary::{put_proprietary, read_proprietary};
use crate::uris::read_uris;
use bsc_octets::{NoMemory, function};
use std::alloc::Global;

/// The body of this function that a payload says. Memory is taken only where nothing is wrong with the payload.
pub(crate) fn read_body(alloc: Global, function: u8, p: &[u8]) -> Result<Body, FrameFault>
    requires { function ≤ 0x0C }
    ensures { BodyAnswers function p.now result }
{
    match function {
        function::BVLC_RESULT => read_answer(alloc, p),
        function::ENCAPSULATED_NPDU => read_npdu(alloc, p),
        function::ADDRESS_RESOLUTION => read_bare(p, Body::AddressResolution),
        function::ADDRESS_RESOLUTION_ACK => read_uris(alloc, p),
        function::ADVERTISEMENT => read_advert(p),
        function::ADVERTISEMENT_SOLICITATION => read_bare(p, Body::AdvertisementSolicitation),
        function::CONNECT_REQUEST => read_request(p),
        function::CONNECT_ACCEPT => read_accept(p),
        function::DISCONNECT_REQUEST => read_bare(p, Body::DisconnectRequest),
        function::DISCONNECT_ACK => read_bare(p, Body::DisconnectAck),
        function::HEARTBEAT_REQUEST => read_bare(p, Body::HeartbeatRequest),
        function::HEARTBEAT_ACK => read_bare(p, Body::HeartbeatAck),
        _ => read_proprietary(alloc, p),
    }
}

/// Puts the payload of a body at the end.
pub(crate) fn put_body(out: &mut Vec<u8>, body: &Body) -> Result<(), NoMemory>
    ensures { OnOk result (out.new.items ≡ out.old.items ++ payload_of body.now) }
{
    match body {
        Body::BvlcResult(answer) => put_answer(out, answer),
        Body::Npdu(octets) | Body::AddressResolutionAck(octets) => {
            out.extend_from_slice(octets.as_slice())?;
            Ok(())
        }
        Body::Advertisement(advert) => put_advert(out, advert),
        Body::ConnectRequest(who) | Body::ConnectAccept(who) => put_identity(out, who),
        Body::Proprietary {
            vendor,
            function,
            content,
        } => put_proprietary(out, *vendor, *function, content),
        Body::AddressResolution
        | Body::AdvertisementSolicitation
        | Body::DisconnectRequest
        | Body::DisconnectAck
        | Body::HeartbeatRequest
        | Body::HeartbeatAck => Ok(()),
    }
}
