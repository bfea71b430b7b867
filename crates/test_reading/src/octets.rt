//! What a hub passes on, addresses at random, and octets that are owned.
use bsc_octets::*;
use std::alloc::Global;
use std::test::*;

const SENDER: Vmac = Vmac([0x02, 0x00, 0x00, 0x00, 0x00, 0x0A]);

/// A Who-Is to a receiver.
const UNICAST: [u8; 18] = [
    0x01, 0x04, 0x00, 0x02, 0x02, 0x00, 0x00, 0x00, 0x00, 0x0B, 0x01, 0x20, 0xFF, 0xFF, 0x00, 0xFF,
    0x10, 0x08,
];

/// A Who-Is to all.
const BROADCAST: [u8; 18] = [
    0x01, 0x04, 0x00, 0x02, 0xFF, 0xFF, 0xFF, 0xFF, 0xFF, 0xFF, 0x01, 0x20, 0xFF, 0xFF, 0x00, 0xFF,
    0x10, 0x08,
];

/// The same from the sender, as the hub passes them on.
const UNICAST_OUT: [u8; 18] = [
    0x01, 0x08, 0x00, 0x02, 0x02, 0x00, 0x00, 0x00, 0x00, 0x0A, 0x01, 0x20, 0xFF, 0xFF, 0x00, 0xFF,
    0x10, 0x08,
];

const BROADCAST_OUT: [u8; 24] = [
    0x01, 0x0C, 0x00, 0x02, 0x02, 0x00, 0x00, 0x00, 0x00, 0x0A, 0xFF, 0xFF, 0xFF, 0xFF, 0xFF, 0xFF,
    0x01, 0x20, 0xFF, 0xFF, 0x00, 0xFF, 0x10, 0x08,
];

/// Messages that the hub passes on, and as what.
const PASSED_ON: [(&[u8], &[u8]); 2] = [(&UNICAST, &UNICAST_OUT), (&BROADCAST, &BROADCAST_OUT)];

/// What a hub does with the octets that came from `from`: a caller of both functions.
fn passed_on(alloc: Global, m: &[u8], from: Vmac) -> Result<Option<Octets>, NoMemory> {
    let Ok(envelope) = read_envelope(m) else {
        return Ok(None);
    };
    if envelope.origin.is_some() || envelope.dest.is_none() {
        return Ok(None);
    }
    Ok(Some(forwarded(alloc, m, from)?))
}

#[test]
fn passes_on(rt: HostRuntime) {
    for (m, wanted) in &PASSED_ON {
        let is_right = match passed_on(rt.alloc(), m, SENDER) {
            Ok(Some(octets)) => octets.as_slice() == *wanted,
            _ => false,
        };
        assert!(rt; is_right, "{m:?}");
    }
    assert!(rt; matches!(passed_on(rt.alloc(), &UNICAST_OUT, SENDER), Ok(None)));
}

#[test]
fn random_addresses(rt: HostRuntime) {
    assert_eq!(rt; random48(0), Vmac([0x02, 0, 0, 0, 0, 0]));
    assert_eq!(rt;
        random48(0x1122_3344_5566_7788),
        Vmac([0x32, 0x44, 0x55, 0x66, 0x77, 0x88])
    );
    assert_eq!(rt;
        random48(u64::MAX),
        Vmac([0xF2, 0xFF, 0xFF, 0xFF, 0xFF, 0xFF])
    );
}

#[test]
fn owns_octets(rt: HostRuntime) -> Result<(), Fail> {
    let octets = Octets::from_vec(Vec::from_slice(rt.alloc(), &UNICAST)?);
    let copy = octets.copy(rt.alloc())?;
    assert!(rt; copy.len() == 18 && !copy.is_empty());
    assert_eq!(rt; copy.into_vec().as_slice(), UNICAST.as_slice());
    Ok(())
}
