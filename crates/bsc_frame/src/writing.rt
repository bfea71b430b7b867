//! From a message to octets.
ghost use Rattle.std.specs.Prelude.{◌≡◌, ◌*◌, ◌<◌, ◌++◌, IfOk, OnOk};
ghost use Rattle.std.specs.List.{AllByRecursion};
ghost use Rattle.bsc_octets.specs.Envelopes.{address_octets};
ghost use Rattle.bsc_options.specs.Spelling.{HasShape, bit, spelling_of};
ghost use Rattle.bsc_frame.specs.Payloads.{function_of};
ghost use Rattle.bsc_frame.specs.Spelling.{HasSpelling, Spells, flags_of};

use crate::body::Body;
use crate::message::Message;
use crate::number::put_number;
use crate::payload::put_body;
use bsc_octets::{NoMemory, Octets, Vmac, function};
use bsc_options::{Options, write_options};
use std::alloc::Global;

/// The function of a body.
fn function_of(body: &Body) -> u8
    ensures { result ≡ function_of body.now }
{
    match body {
        Body::BvlcResult(_) => function::BVLC_RESULT,
        Body::Npdu(_) => function::ENCAPSULATED_NPDU,
        Body::AddressResolution => function::ADDRESS_RESOLUTION,
        Body::AddressResolutionAck(_) => function::ADDRESS_RESOLUTION_ACK,
        Body::Advertisement(_) => function::ADVERTISEMENT,
        Body::AdvertisementSolicitation => function::ADVERTISEMENT_SOLICITATION,
        Body::ConnectRequest(_) => function::CONNECT_REQUEST,
        Body::ConnectAccept(_) => function::CONNECT_ACCEPT,
        Body::DisconnectRequest => function::DISCONNECT_REQUEST,
        Body::DisconnectAck => function::DISCONNECT_ACK,
        Body::HeartbeatRequest => function::HEARTBEAT_REQUEST,
        Body::HeartbeatAck => function::HEARTBEAT_ACK,
        Body::Proprietary { .. } => function::PROPRIETARY_MESSAGE,
    }
}

/// A control flag, where it is set.
fn flag(set: bool, value: u8) -> u8
    ensures { result ≡ value * bit set }
{
    if set { value } else { 0 }
}

/// The control flags of a message.
fn flags_of(message: &Message) -> u8
    ensures { result ≡ flags_of message.now }
{
    let origin = flag(message.origin.is_some(), 8);
    let dest = flag(message.dest.is_some(), 4);
    let dest_options = flag(!message.dest_options.is_empty(), 2);
    let data_options = flag(!message.data_options.is_empty(), 1);
    origin + dest + dest_options + data_options
}

/// Puts an address at the end, where there is one.
fn put_address(out: &mut Vec<u8>, address: &Option<Vmac>) -> Result<(), NoMemory>
    ensures { OnOk result (out.new.items ≡ out.old.items ++ address_octets address.now) }
{
    if let Some(vmac) = address {
        out.extend_from_slice(&vmac.0)?;
    }
    Ok(())
}

/// Puts a list of options at the end, where there are some.
fn put_list(out: &mut Vec<u8>, alloc: Global, list: &Options) -> Result<(), NoMemory>
    requires { AllByRecursion HasShape list.now }
    ensures { OnOk result (out.new.items ≡ out.old.items ++ spelling_of list.now) }
{
    if !list.is_empty() {
        let octets = write_options(alloc, list)?;
        out.extend_from_slice(octets.as_slice())?;
    }
    Ok(())
}

/// The octets of a message that has a spelling. It has no other.
pub fn write(alloc: Global, message: &Message) -> Result<Octets, NoMemory>
    requires { HasSpelling message.now }
    ensures { IfOk result (λ o. Spells message.now o) }
{
    let mut out = Vec::new(alloc);
    out.push(function_of(&message.body))?;
    out.push(flags_of(message))?;
    put_number(&mut out, message.id)?;
    put_address(&mut out, &message.origin)?;
    put_address(&mut out, &message.dest)?;
    put_list(&mut out, alloc, &message.dest_options)?;
    put_list(&mut out, alloc, &message.data_options)?;
    put_body(&mut out, &message.body)?;
    Ok(Octets::from_vec(out))
}
