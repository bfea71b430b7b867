//! The messages that a node puts of itself.
ghost use Rattle.std.specs.Prelude.{◌≡◌, IfOk};
ghost use Rattle.bsc_frame.specs.Payloads.{HasPayload};
ghost use Rattle.bsc_octets.specs.Forwarding.{function_in};
ghost use Rattle.bsc_octets.specs.Functions.{is_response};
ghost use Rattle.bsc_node.specs.Messages.{message_octets, nak};

use bsc_frame::{Answer, Body, Message, write};
use bsc_octets::{NoMemory, Octets, Vmac, function, results};
use bsc_options::Options;
use std::alloc::Global;

/// The octets of a message with this Message ID and this Destination, where there is one.
pub(crate) fn message_octets(
    alloc: Global,
    id: u16,
    dest: Option<Vmac>,
    body: Body,
) -> Result<Octets, NoMemory>
    requires { HasPayload body }
    ensures { IfOk result (λ o. o ≡ message_octets id dest body) }
{
    let message = Message {
        id,
        origin: None,
        dest,
        dest_options: Options::new(alloc),
        data_options: Options::new(alloc),
        body,
    };
    write(alloc, &message)
}

/// A NAK of a function, with this error code.
pub(crate) fn nak(alloc: Global, function: u8, code: u16) -> Body
    ensures { result ≡ nak function code }
{
    Body::BvlcResult(Answer::Nak {
        function,
        marker: 0,
        class: results::COMMUNICATION,
        code,
        details: Octets::from_vec(Vec::new(alloc)),
    })
}

/// Whether these octets are a response, which has the Message ID of what it answers.
pub(crate) fn is_response(octets: &[u8]) -> bool
    ensures { result ≡ is_response (function_in octets.now) }
{
    let function = match octets.first() {
        Some(function) => *function,
        None => 0x00,
    };
    function::is_response(function)
}
