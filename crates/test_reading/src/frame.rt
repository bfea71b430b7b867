//! Whole messages that are read and written again, and one that is made and written.
ghost use Rattle.std.specs.Prelude.{◌≡◌};
ghost use Rattle.std.specs.Result.{MatchResult};
ghost use Rattle.bsc_frame.specs.Spelling.{HasSpelling};

mod rows;

use bsc_frame::{Body, FrameFault, Message, read, write};
use bsc_octets::{NoMemory, Octets, Vmac};
use bsc_options::Options;
use bsc_text::read_octets;
use rows::WHOLE;
use std::alloc::Global;
use std::test::*;

/// A message by way of its octets: what was written is read back.
fn read_again(alloc: Global, message: &Message) -> Result<Message, FrameFault>
    requires { HasSpelling message.now }
    ensures { MatchResult result (λ again. again ≡ message.now) (λ fault. fault ≡ FrameFault.NoMemory) }
{
    let octets = write(alloc, message)?;
    read(alloc, octets.as_slice())
}

/// Whether octets are a message, for which they are written again once it was read back from what was written for it.
fn is_whole(alloc: Global, m: &[u8]) -> Result<bool, FrameFault> {
    let message = read(alloc, m)?;
    let again = read_again(alloc, &message)?;
    let octets = write(alloc, &again)?;
    Ok(octets.as_slice() == m)
}

#[test]
fn whole_messages(rt: HostRuntime) {
    for row in WHOLE.iter() {
        // Digits, a bar, and the fields.
        let (digits, _fields) = row.split_once(" | ").unwrap_or(("", ""));
        let is_right = match read_octets(rt.alloc(), digits.as_bytes()) {
            Ok(octets) => is_whole(rt.alloc(), octets.as_slice()) == Ok(true),
            Err(_) => false,
        };
        assert!(rt; is_right, "{row}");
    }
}

/// A Heartbeat-ACK to a node, for the request with this ID: a message that is made here has a spelling.
fn heartbeat_ack(alloc: Global, id: u16, to: Vmac) -> Result<Octets, NoMemory> {
    let message = Message {
        id,
        origin: None,
        dest: Some(to),
        dest_options: Options::new(alloc),
        data_options: Options::new(alloc),
        body: Body::HeartbeatAck,
    };
    write(alloc, &message)
}

#[test]
fn writes(rt: HostRuntime) -> Result<(), Fail> {
    let wanted = [0x0B, 0x04, 0x12, 0x34, 0x02, 0x00, 0x00, 0x00, 0x00, 0x0A];
    let octets = heartbeat_ack(rt.alloc(), 0x1234, Vmac([0x02, 0, 0, 0, 0, 0x0A]))?;
    assert_eq!(rt; octets.as_slice(), wanted.as_slice());
    Ok(())
}
