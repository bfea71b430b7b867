//! Handshakes over streams in memory.
use super::{Keys, peer_of, told};
use bsc_edge::{Kind, MemPatience};
use bsc_ws::{accept, dial};
use std::cell::Cell;
use std::test::Fail;

/// A client's request, without its offer and its end.
const REQUEST: &str = concat!(
    "GET / HTTP/1.1\r\nHost: h\r\nConnection: Upgrade\r\nUpgrade: websocket\r\n",
    "Sec-WebSocket-Version: 13\r\nSec-WebSocket-Key: dGhlIHNhbXBsZSBub25jZQ==\r\n",
);

/// The fields of a request, so many octets of another field, the kind of links that the server takes, and the status that is
/// answered.
struct Offer {
    kind: Kind,
    fields: &'static str,
    padding: u64,
    status: &'static [u8],
}

const OFFERS: [Offer; 7] = [
    Offer {
        kind: Kind::Hub,
        fields: "Sec-WebSocket-Protocol: dc.bsc.bacnet.org, hub.bsc.bacnet.org\r\n",
        padding: 16_000,
        status: b"HTTP/1.1 101",
    },
    Offer {
        kind: Kind::Hub,
        fields: "Sec-WebSocket-Protocol: x\r\nSec-WebSocket-Protocol: hub.bsc.bacnet.org\r\n",
        padding: 1,
        status: b"HTTP/1.1 101",
    },
    Offer {
        kind: Kind::Hub,
        fields: "Sec-WebSocket-Protocol: dc.bsc.bacnet.org, HUB.bsc.bacnet.org\r\n",
        padding: 1,
        status: b"HTTP/1.1 400",
    },
    Offer {
        kind: Kind::Hub,
        fields: "",
        padding: 1,
        status: b"HTTP/1.1 400",
    },
    // A node takes what a hub refuses, and refuses what a hub takes.
    Offer {
        kind: Kind::Direct,
        fields: "Sec-WebSocket-Protocol: dc.bsc.bacnet.org\r\n",
        padding: 1,
        status: b"HTTP/1.1 101",
    },
    Offer {
        kind: Kind::Direct,
        fields: "Sec-WebSocket-Protocol: hub.bsc.bacnet.org\r\n",
        padding: 1,
        status: b"HTTP/1.1 400",
    },
    // A head that is too long isn't answered.
    Offer {
        kind: Kind::Hub,
        fields: "Sec-WebSocket-Protocol: hub.bsc.bacnet.org\r\n",
        padding: 16_384,
        status: b"",
    },
];

/// Offers of sub-protocols to a server, and what it answers: it takes those that it answers by 101.
#[test]
fn offers(rt: HostRuntime) -> Result<(), Fail> {
    let alloc = rt.alloc();
    for (at, offer) in OFFERS.iter().enumerate() {
        let mut head = Vec::from_slice(alloc, REQUEST.as_bytes())?;
        head.extend_from_slice(offer.fields.as_bytes())?;
        head.extend_from_slice(b"X: ")?;
        for _ in 0..offer.padding {
            head.push(b'x')?;
        }
        head.extend_from_slice(b"\r\n\r\n")?;
        let wanting = Cell::new(0);
        let mut peer = peer_of(head.as_slice(), head.len(), offer.status, &wanting);
        peer.takes_more = !offer.status.is_empty();
        let wait = MemPatience::new(alloc, &[]);
        let is_taken = accept(alloc, peer, wait, Keys([0; 4]), offer.kind).is_ok();
        assert!(rt;
            is_taken == offer.status.ends_with(b"101") && wanting.get() == 0,
            "in row {at}"
        );
    }
    Ok(())
}

/// A server's answer to zeros, without its sub-protocol and its end.
const ANSWER: &str = concat!(
    "HTTP/1.1 101 Switching Protocols\r\nConnection: Upgrade\r\nUpgrade: websocket\r\n",
    "Sec-WebSocket-Accept: ICX+Yqv66kxgM0FcWaLWlFLwTAI=\r\n",
);

/// The fields of answers, and whether a client that offers direct connections takes them.
const ANSWERS: [(&str, bool); 3] = [
    ("Sec-WebSocket-Protocol: dc.bsc.bacnet.org\r\n", true),
    ("Sec-WebSocket-Protocol: hub.bsc.bacnet.org\r\n", false),
    ("", false),
];

/// Which answers of servers a client takes; it then reads the message right behind one.
#[test]
fn answers(rt: HostRuntime) -> Result<(), Fail> {
    let alloc = rt.alloc();
    for (fields, wanted) in ANSWERS.iter() {
        let mut answer = Vec::from_slice(alloc, ANSWER.as_bytes())?;
        answer.extend_from_slice(fields.as_bytes())?;
        answer.extend_from_slice(b"\r\n\x82\x01m")?;
        let wanting = Cell::new(0);
        let mut peer = peer_of(
            answer.as_slice(),
            answer.len(),
            b"GET / HTTP/1.1\r\n",
            &wanting,
        );
        peer.takes_more = true;
        let wait = MemPatience::new(alloc, &[]);
        let uri = "ws://localhost/";
        let is_taken = match dial(alloc, peer, wait, Keys([0; 4]), uri, Kind::Direct) {
            Ok(link) => {
                let mut link = link;
                told(alloc, &mut link)?.as_slice() == b"mF".as_slice()
            }
            Err(_) => false,
        };
        assert_eq!(rt; is_taken, *wanted, "{fields}");
    }
    Ok(())
}
