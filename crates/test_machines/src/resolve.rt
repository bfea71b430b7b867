//! A question that is answered, and the greatest number of VMACs.
use bsc_octets::{Octets, Vmac};
use bsc_resolve::{AskRefusal, ROOM, Resolve};
use std::test::*;

/// Asks for a VMAC, and hands in the answer. Whether the answer counted.
fn ask_and_answer(resolve: &mut Resolve, now: u64, id: u16, v: Vmac, uris: Octets) -> bool {
    match resolve.ask(now, id, v) {
        Ok(()) => resolve.answered(id, v, uris),
        Err(_) => false,
    }
}

/// What is learnt of a VMAC stays through another question for it. There is memory for the greatest number of VMACs.
#[test]
fn a_course_of_questions(rt: HostRuntime) -> Result<(), Fail> {
    let alloc = rt.alloc();
    let v = Vmac([2, 0, 0, 0, 0, 0]);
    let mut resolve = Resolve::make(alloc, 10_000)?;
    let uris = Octets::from_vec(Vec::from_slice(alloc, b"ws://a".as_slice())?);
    assert!(rt; ask_and_answer(&mut resolve, 100, 7, v, uris));
    for k in 0..ROOM as u16 {
        let [high, low] = k.to_be_bytes();
        assert!(rt; resolve.ask(200, k, Vmac([2, 0, 0, 0, high, low])) == Ok(()));
    }
    assert!(rt;
        resolve.ask(200, 7, Vmac::BROADCAST) == Err(AskRefusal::Full { held: ROOM as u32 })
    );
    match resolve.uris(v) {
        Some(uris) => assert!(rt; uris.as_slice() == b"ws://a".as_slice()),
        None => assert!(rt; false, "it is learnt"),
    }
    Ok(())
}
