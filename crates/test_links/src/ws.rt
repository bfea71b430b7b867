//! Links over streams in memory.
mod handshakes;

use bsc_edge::{Incoming, Kind, Link, LinkFault, MemPatience};
use bsc_ws::{StreamLink, limits};
use std::alloc::{AllocError, Global};
use std::cell::Cell;
use std::io::{self, ErrorKind, Read, Write};
use std::test::Fail;
use tungstenite::{MaskKeys, Role, WebSocket};

/// A peer as a stream in memory. It gives some octets, then nothing once where there are later ones, then these, and its
/// end. Of what is written it takes the octets that it wants, and more behind them where it says so. It tells how many it
/// still wants: none any more where it was given just them.
#[derive(Drop)]
struct Peer<'a> {
    gives: &'a [u8],
    later: &'a [u8],
    wants: &'a [u8],
    takes_more: bool,
    wanting: &'a Cell<usize>,
}

/// A peer that gives these octets, cut by a time-out at this place, and wants just those.
fn peer_of<'a>(gives: &'a [u8], cut: usize, wants: &'a [u8], wanting: &'a Cell<usize>) -> Peer<'a> {
    wanting.set(wants.len());
    let (gives, later) = gives.split_at(cut.min(gives.len()));
    Peer {
        gives,
        later,
        wants,
        takes_more: false,
        wanting,
    }
}

impl Read for Peer<'_> {
    fn read(&mut self, buf: &mut [u8]) -> io::Result<usize> {
        if self.gives.is_empty() && !self.later.is_empty() {
            self.gives = self.later;
            self.later = &[];
            return Err(io::Error::from(ErrorKind::WouldBlock));
        }
        self.gives.read(buf)
    }
}

impl Write for Peer<'_> {
    fn write(&mut self, buf: &[u8]) -> io::Result<usize> {
        let n = self.wants.len().min(buf.len());
        let (wanted, left) = self.wants.split_at(n);
        let (taken, more) = buf.split_at(n);
        if taken != wanted || !(more.is_empty() || self.takes_more) {
            self.wanting.set(usize::MAX);
            return Err(io::Error::from(ErrorKind::WouldBlock));
        }
        self.wants = left;
        self.wanting.set(left.len());
        Ok(buf.len())
    }

    fn flush(&mut self) -> io::Result<()> {
        Ok(())
    }
}

/// Keys that are all the same: of a handshake they are zeros, of a link they tell masked octets from plain ones.
#[derive(Drop)]
struct Keys([u8; 4]);

impl MaskKeys for Keys {
    fn next_key(&mut self) -> [u8; 4] {
        self.0
    }
}

/// A link in this role to a peer.
fn link_of(
    alloc: Global,
    peer: Peer<'_>,
    role: Role,
) -> StreamLink<Peer<'_>, MemPatience<'static>, Keys> {
    let keys = Keys([1, 2, 3, 4]);
    let socket = WebSocket::from_raw_socket(alloc, peer, keys, role, Some(limits()));
    StreamLink::over(socket, MemPatience::new(alloc, &[]), Kind::Hub)
}

/// What a link answers in eight receives, or until it has closed or failed: the octets of messages, T for a text, C for Closed,
/// F for a fault, and nothing for a Quiet.
fn told<L: Link>(alloc: Global, link: &mut L) -> Result<Vec<u8>, AllocError> {
    let mut told = Vec::new(alloc);
    for _ in 0..8 {
        match link.receive(alloc, 20) {
            Ok(Incoming::Message(m)) => told.extend_from_slice(m.as_slice())?,
            Ok(Incoming::Text) => told.push(b'T')?,
            Ok(Incoming::Quiet) => {}
            Ok(Incoming::Closed) => {
                told.push(b'C')?;
                return Ok(told);
            }
            Err(_) => {
                told.push(b'F')?;
                return Ok(told);
            }
        }
    }
    Ok(told)
}

/// In which role the octets of a peer are read, these, the answers but for Quiets, and what is written.
struct Row {
    role: Role,
    gives: &'static [u8],
    answers: &'static [u8],
    writes: &'static [u8],
}

const ROWS: [Row; 12] = [
    // The masked frame that the standard has for an example (RFC 6455, 5.7), as a text, and whole and cut short as a message.
    Row {
        role: Role::Server,
        gives: b"\x81\x85\x37\xFA\x21\x3D\x7F\x9F\x4D\x51\x58\x82\x85\x37\xFA\x21\x3D\x7F\x9F\x4D\x51\x58",
        answers: b"THelloF",
        writes: b"",
    },
    Row {
        role: Role::Server,
        gives: b"\x82\x85\x37\xFA\x21\x3D\x7F\x9F\x4D\x51",
        answers: b"F",
        writes: b"",
    },
    // Fragments with a ping between them, a pong, and a close with and without a code.
    Row {
        role: Role::Server,
        gives: b"\x02\x81\0\0\0\0a\x89\x81\0\0\0\0p\x80\x81\0\0\0\0b\x8A\x80\0\0\0\0\x88\x80\0\0\0\0",
        answers: b"abC",
        writes: b"\x8A\x01p\x88\0",
    },
    Row {
        role: Role::Server,
        gives: b"\x88\x82\0\0\0\0\x03\xE8",
        answers: b"C",
        writes: b"\x88\x02\x03\xE8",
    },
    // No mask, a reserved bit, a reserved operation, and a fragment of nothing.
    Row {
        role: Role::Server,
        gives: b"\x82\x01m",
        answers: b"F",
        writes: b"",
    },
    Row {
        role: Role::Server,
        gives: b"\xC2\x81\0\0\0\0m",
        answers: b"F",
        writes: b"",
    },
    Row {
        role: Role::Server,
        gives: b"\x83\x81\0\0\0\0m",
        answers: b"F",
        writes: b"",
    },
    Row {
        role: Role::Server,
        gives: b"\x80\x81\0\0\0\0m",
        answers: b"F",
        writes: b"",
    },
    // One octet more than the greatest frame.
    Row {
        role: Role::Server,
        gives: b"\x82\xFF\0\0\0\0\0\x02\0\x01\0\0\0\0",
        answers: b"F",
        writes: b"",
    },
    // The end without a close.
    Row {
        role: Role::Server,
        gives: b"\x8A\x80\0\0\0\0",
        answers: b"F",
        writes: b"",
    },
    // Of a server, without a mask and with one.
    Row {
        role: Role::Client,
        gives: b"\x82\x01m",
        answers: b"mF",
        writes: b"",
    },
    Row {
        role: Role::Client,
        gives: b"\x82\x81\0\0\0\0m",
        answers: b"F",
        writes: b"",
    },
];

/// Frames of clients and of servers, with the answers and the replies, wherever a time-out cuts them.
#[test]
fn frames(rt: HostRuntime) -> Result<(), Fail> {
    let alloc = rt.alloc();
    for (at, row) in ROWS.iter().enumerate() {
        for cut in 0..row.gives.len() {
            let wanting = Cell::new(0);
            let peer = peer_of(row.gives, cut, row.writes, &wanting);
            let mut link = link_of(alloc, peer, row.role);
            let answers = told(alloc, &mut link)?;
            assert!(rt;
                answers.as_slice() == row.answers && wanting.get() == 0,
                "in row {at}, cut at {cut}"
            );
        }
    }
    Ok(())
}

/// A masked message of 300 octets, cut by a time-out behind each of its octets: the cut is Quiet, and then the message comes as it
/// is. Where its stream ends at the cut, that is a fault.
#[test]
fn a_long_frame_is_cut(rt: HostRuntime) -> Result<(), Fail> {
    let alloc = rt.alloc();
    let mut message = Vec::new(alloc);
    let mut frame = Vec::from_slice(alloc, b"\x82\xFE\x01\x2C\x37\xFA\x21\x3D")?;
    for n in 0..75u8 {
        message.extend_from_slice(&[n, 1, 2, 3])?;
        frame.extend_from_slice(&[n ^ 0x37, 1 ^ 0xFA, 2 ^ 0x21, 3 ^ 0x3D])?;
    }
    for cut in 0..frame.len() {
        let wanting = Cell::new(0);
        let peer = peer_of(frame.as_slice(), cut, &[], &wanting);
        let mut link = link_of(alloc, peer, Role::Server);
        assert!(rt;
            matches!(link.receive(alloc, 20), Ok(Incoming::Quiet)),
            "cut at {cut}"
        );
        let Ok(Incoming::Message(m)) = link.receive(alloc, 20) else {
            panic!(rt; "cut at {cut}");
        };
        assert!(rt; m.as_slice() == message.as_slice(), "cut at {cut}");
        let (front, _) = frame.as_slice().split_at(cut);
        let mut link = link_of(alloc, peer_of(front, cut, &[], &wanting), Role::Server);
        assert!(rt;
            matches!(link.receive(alloc, 20), Err(LinkFault::Failed)),
            "cut at {cut}"
        );
    }
    Ok(())
}

/// What a put and a closing write in each role: a client masks it, and a server doesn't.
const PUTS: [(Role, &[u8]); 2] = [
    (Role::Server, b"\x82\x03abc\x88\x06\x03\xF0idle"),
    (
        Role::Client,
        b"\x82\x83\x01\x02\x03\x04```\x88\x86\x01\x02\x03\x04\x02\xF2j`mg",
    ),
];

/// A put and a closing write just this, and a put behind them is a fault.
#[test]
fn puts_and_closings(rt: HostRuntime) -> Result<(), Fail> {
    let alloc = rt.alloc();
    for (role, writes) in PUTS {
        let wanting = Cell::new(0);
        let mut link = link_of(alloc, peer_of(&[], 0, writes, &wanting), role);
        assert_eq!(rt; link.put(alloc, b"abc"), Ok(()));
        assert_eq!(rt; link.close(alloc, 1008, "idle"), Ok(()));
        assert_eq!(rt; wanting.get(), 0);
        assert_eq!(rt; link.put(alloc, b"abc"), Err(LinkFault::Failed));
    }
    Ok(())
}

/// A put that the peer doesn't take is a fault. A peer that sends pings and takes no replies is read no further once the
/// replies that wait are as many as they may be.
#[test]
fn what_waits_is_bounded(rt: HostRuntime) -> Result<(), Fail> {
    let alloc = rt.alloc();
    let mut ping = [0; 131];
    ping[0] = 0x89;
    ping[1] = 0xFD;
    let mut pings = Vec::new(alloc);
    for _ in 0..2_200 {
        pings.extend_from_slice(&ping)?;
    }
    let wanting = Cell::new(0);
    let peer = peer_of(pings.as_slice(), 0, &[], &wanting);
    let mut link = link_of(alloc, peer, Role::Server);
    assert_eq!(rt; link.put(alloc, b"abc"), Err(LinkFault::Failed));
    // The replies to 2,200 pings are 279,400 octets. Were all read, the stream's end would be a fault.
    for _ in 0..2_300u32 {
        assert!(rt; matches!(link.receive(alloc, 20), Ok(Incoming::Quiet)));
    }
    Ok(())
}
