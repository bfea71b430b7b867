//! Messages that come to machines, as plain data, and what machines do.
use crate::peers::{hub, node};
use arrayvec::ArrayVec;
use bsc_accept::Closing;
use bsc_checks::{Check, Envelope, Message, Verdict};
use bsc_frame::{Answer, Body};
use bsc_octets::Octets;
use bsc_options::Options;
use std::alloc::Global;

/// A message that came, by what became of it.
#[derive(Clone, Copy)]
pub enum Came {
    /// These passed, with this Message ID.
    Request(u16),
    Accept(u16),
    Solicitation(u16),
    Heartbeat(u16),
    HeartbeatAck(u16),
    Disconnect(u16),
    DisconnectAck(u16),
    /// A NAK passed: the function that it answers, and its Message ID.
    Nak(u8, u16),
    /// It was refused with a NAK that has this Message ID.
    Refused(u16),
    Silence,
    Carried,
}

/// What a machine does. Of octets that are put, the function and the Message ID.
#[derive(Clone, Copy, Debug, PartialEq, Eq)]
pub enum Does {
    /// It asks about the node of the worked scripts.
    Asks,
    Puts(u8, u16),
    PutsAndCloses(u8, u16, Closing),
    /// It is connected with the hub of the worked scripts.
    Connects,
    IsRefused(u16),
    HandsUp,
    Closes(Closing),
    Nothing,
}

/// How many octets a message has that a machine puts.
fn length_of(function: u8) -> usize {
    match function {
        0x00 => 11,
        0x06 | 0x07 => 30,
        _ => 4,
    }
}

/// The function and the Message ID of octets that are put.
pub fn put(octets: &ArrayVec<u8, 32>) -> (u8, u16) {
    match octets.as_slice() {
        [function, 0, high, low, ..] if octets.len() == length_of(*function) => {
            (*function, u16::from_be_bytes([*high, *low]))
        }
        _ => (0xFF, 0),
    }
}

fn passed(alloc: Global, id: u16, body: Body) -> Verdict {
    Verdict::Pass(Message {
        id,
        origin: None,
        dest: None,
        dest_options: Options::new(alloc),
        data_options: Options::new(alloc),
        body,
    })
}

fn nak(alloc: Global, function: u8) -> Body {
    Body::BvlcResult(Answer::Nak {
        function,
        marker: 0,
        class: 7,
        code: 151,
        details: Octets::from_vec(Vec::new(alloc)),
    })
}

fn refused(id: u16) -> Verdict {
    let [high, low] = id.to_be_bytes();
    let mut octets = ArrayVec::new();
    for octet in [
        0x00, 0x00, high, low, 0x0A, 0x01, 0x00, 0x00, 0x07, 0x00, 0x96,
    ] {
        let _ = octets.try_push(octet);
    }
    Verdict::Nak(Check::C10c, octets)
}

fn envelope() -> Envelope {
    Envelope {
        function: 0x01,
        flags: 0x04,
        id: 3,
        origin: None,
        dest: None,
        rest_at: 4,
    }
}

/// The verdict on a message.
pub fn verdict(alloc: Global, came: Came) -> Verdict {
    match came {
        Came::Request(id) => passed(alloc, id, Body::ConnectRequest(node())),
        Came::Accept(id) => passed(alloc, id, Body::ConnectAccept(hub())),
        Came::Solicitation(id) => passed(alloc, id, Body::AdvertisementSolicitation),
        Came::Heartbeat(id) => passed(alloc, id, Body::HeartbeatRequest),
        Came::HeartbeatAck(id) => passed(alloc, id, Body::HeartbeatAck),
        Came::Disconnect(id) => passed(alloc, id, Body::DisconnectRequest),
        Came::DisconnectAck(id) => passed(alloc, id, Body::DisconnectAck),
        Came::Nak(function, id) => passed(alloc, id, nak(alloc, function)),
        Came::Refused(id) => refused(id),
        Came::Silence => Verdict::Silent(Check::C1),
        Came::Carried => Verdict::Carry(envelope()),
    }
}
