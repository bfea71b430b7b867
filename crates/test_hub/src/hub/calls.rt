//! Each call once that `threads` doesn't make, by two callers of a hub that is made for two.
ghost use Rattle.bsc_hub.specs.Passing.{IsCaller, IsOwnAs};
ghost use Rattle.bsc_hub.specs.Testing.{vmac_at};

use super::{address, enter, new_hub, who};
use bsc_desk::{AllReply, OneReply, prepare};
use bsc_history::{AlreadyStopped, End, Look, Refusal, Told};
use bsc_hub::{ConnectRefusal, Hub, NumbersSpent, Pass, unicast_is_there};
use bsc_ring::Take;
use std::alloc::Global;
use std::sync::Wait;
use std::test::Fail;

/// The last octet of the address of the second caller.
const SECOND: u8 = 2;

/// Sends a unicast to the second caller, which takes the pass in.
fn tell<R: Wait>(
    rt: &R,
    alloc: Global,
    hub: &Hub,
    pass: Pass,
    conn: u64,
    from: u8,
    other: &mut Pass,
) -> Option<(u64, OneReply)>
    requires pass { IsCaller hub.now pass × IsOwnAs pass conn (vmac_at from) }
    requires other { IsCaller hub.now other.old }
    ensures { IsCaller hub.now other.new }
{
    let message = [1, 4, 0, 2, 2, 0, 0, 0, 0, SECOND];
    let Ok(frame) = prepare(alloc, &message, address(from)) else {
        return None;
    };
    match unicast_is_there(hub, rt, pass, conn, frame, other) {
        Ok(told) => Some((told.at, told.said)),
        Err(_) => None,
    }
}

/// The second broadcasts, the first sends it a unicast, and it stops the hub, twice. Then nobody joins.
#[test]
fn two_callers_and_no_more(rt: HostRuntime) -> Result<(), Fail> {
    let alloc = rt.alloc();
    let (hub, mut first) = new_hub(alloc, 8, 1 << 40, 2)?;
    let Ok(mut second) = hub.split(&rt, &mut first) else {
        panic!(rt; "there is a second number");
    };
    assert!(rt; matches!(hub.split(&rt, &mut first), Err(NumbersSpent { drawn: 2 })));
    let Some((conn, mut outlet)) = enter(&rt, alloc, &hub, &mut first, 1) else {
        panic!(rt; "the first joins");
    };
    let Some((other, mut others)) = enter(&rt, alloc, &hub, &mut second, SECOND) else {
        panic!(rt; "the second joins");
    };
    let message = [1, 4, 0, 1, 255, 255, 255, 255, 255, 255];
    let frame = prepare(alloc, &message, address(SECOND))?;
    let Ok(
        Told {
            at: 2,
            said: AllReply::Sent { to, .. },
        },
    ) = hub.forward_all(&rt, alloc, &mut second, other, &frame)
    else {
        panic!(rt; "the second broadcasts");
    };
    let Take::Frame(to_all) = outlet.take() else {
        panic!(rt; "the first gets the broadcast");
    };
    assert!(rt; to.len() == 1 && to_all.len() == 16);
    let look = Look {
        conn: other,
        taken: 0,
    };
    let told = tell(&rt, alloc, &hub, first, conn, 1, &mut second);
    assert!(rt; told == Some((3, OneReply::Appended(look))));
    let Ok(stopped) = hub.stop(&rt, &mut second) else {
        panic!(rt; "the second stops the hub");
    };
    assert!(rt; stopped.at == 4 && stopped.said.joined == 2 && stopped.said.appended == 2);
    assert!(rt; matches!(hub.stop(&rt, &mut second), Err(AlreadyStopped { at: 4 })));
    let Take::Frame(to_second) = others.take() else {
        panic!(rt; "the second gets the unicast");
    };
    assert!(rt; to_second.len() == 10 && matches!(others.take(), Take::Closed(End::Stopped)));
    assert!(rt;
        matches!(
            hub.connect(&rt, alloc, &mut second, who(3)),
            Err(ConnectRefusal::Refused {
                at: 5,
                refusal: Refusal::Stopped,
            },)
        )
    );
    Ok(())
}
