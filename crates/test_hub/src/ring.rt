//! A ring of two slots step by step, and the two ends in two threads.
ghost use Rattle.std.specs.Prelude.{◌≡◌, ◌<◌, ◌^◌, ◌++◌, [], ◌∷◌, length, true, IfOk, None};
ghost use Rattle.bsc_ring.specs.Ends.{ending_of, given, inlet_mark, known_pushed, knows_all, outlet_mark, pushed};

use bsc_history::End;
use bsc_octets::{NoMemory, Octets};
use bsc_ring::{Inlet, Outlet, Remains, Take, make, unite};
use std::alloc::Global;
use std::sync::Wait;
use std::test::Fail;
use std::thread;
use std::thread::Threads;

/// The frame that says a number.
fn frame(alloc: Global, n: u32) -> Result<Octets, NoMemory> {
    Ok(Octets::from_vec(Vec::from_slice(alloc, &n.to_be_bytes())?))
}

fn says(octets: &Octets, n: u32) -> bool {
    octets.as_slice() == n.to_be_bytes().as_slice()
}

fn gives(take: Take, n: u32) -> bool {
    match take {
        Take::Frame(octets) => says(&octets, n),
        _ => false,
    }
}

#[test]
fn two_slots(rt: HostRuntime) -> Result<(), Fail> {
    let one = frame(rt.alloc(), 1)?;
    let two = frame(rt.alloc(), 2)?;
    let three = frame(rt.alloc(), 3)?;
    let Ok((mut inlet, mut outlet)) = make(rt.alloc(), 2) else {
        panic!(rt; "no memory");
    };
    assert!(rt; matches!(outlet.take(), Take::Empty));
    assert!(rt; matches!(inlet.push(one), Ok(0)));
    assert!(rt; matches!(inlet.push(two), Ok(0)));
    let Err((three, 0)) = inlet.push(three) else {
        panic!(rt; "the ring was full");
    };
    assert!(rt; says(&three, 3));
    inlet.meet(&mut outlet);
    assert!(rt; gives(outlet.take(), 1));
    assert!(rt; matches!(inlet.push(three), Ok(1)));
    inlet.finish(End::Full);
    assert!(rt; gives(outlet.take(), 2));
    assert!(rt; gives(outlet.take(), 3));
    assert!(rt; matches!(outlet.take(), Take::Closed(End::Full)));
    assert!(rt; matches!(outlet.take(), Take::Closed(End::Full)));
    assert!(rt; outlet.taken() == 3 && outlet.empties() == 1);
    let remains = unite(inlet, outlet);
    assert!(rt; remains.taken == 3 && remains.left == 0);
    Ok(())
}

/// Tries again with the frame that comes back.
fn push_waiting(rt: &impl Wait, inlet: &mut Inlet, frame: Octets)
    requires { (ending_of inlet.old ≡ None) × (length (pushed inlet.old) < 2 ^ 62) }
    ensures { (inlet_mark inlet.new ≡ inlet_mark inlet.old) × (ending_of inlet.new ≡ None)
        × (pushed inlet.new ≡ pushed inlet.old ++ frame ∷ []) }
{
    let mut frame = frame;
    for _ in rt.forever() {
        match inlet.push(frame) {
            Ok(_) => return,
            Err((back, _)) => frame = back,
        }
        thread::yield_now();
    }
    unreachable!()
}

/// Pushes so many numbered frames. It finishes also where memory runs out, since the other end waits.
fn push_all(rt: &impl Wait, alloc: Global, inlet: Inlet, count: u32) -> Result<Inlet, NoMemory>
    requires { (ending_of inlet ≡ None) × (pushed inlet ≡ []) }
    ensures { IfOk result (λ i. (inlet_mark i ≡ inlet_mark inlet) × (length (pushed i) ≡ count)) }
{
    let mut inlet = inlet;
    for n in 0..count {
        match frame(alloc, n) {
            Ok(frame) => push_waiting(rt, &mut inlet, frame),
            Err(NoMemory) => {
                inlet.finish(End::Stopped);
                return Err(NoMemory);
            }
        }
    }
    inlet.finish(End::Stopped);
    Ok(inlet)
}

/// Takes until the end. The answer is whether the frames came in the order of their numbers.
fn take_all(rt: &impl Wait, outlet: Outlet) -> (Outlet, bool)
    ensures { (outlet_mark result.0 ≡ outlet_mark outlet) × (knows_all result.0 ≡ true)
        × (given result.0 ≡ known_pushed result.0) }
{
    let mut outlet = outlet;
    let mut in_order = true;
    for _ in rt.forever() {
        let next = (outlet.taken() % (1 << 32)) as u32;
        match outlet.take() {
            Take::Closed(_) => return (outlet, in_order),
            Take::Empty => thread::yield_now(),
            Take::Frame(octets) => in_order = says(&octets, next) && in_order,
        }
    }
    unreachable!()
}

/// One thread pushes and finishes, the other takes until then. All that was pushed was taken.
fn across<R: Threads + Wait + Sync>(
    rt: &R,
    alloc: Global,
    count: u32,
) -> Result<(bool, Remains), NoMemory>
    ensures { IfOk result (λ r. (r.1.taken ≡ count) × (r.1.left ≡ 0)) }
{
    let (inlet, outlet) = make(alloc, 4)?;
    let (inlet, (outlet, in_order)) = thread::join(
        rt,
        move || -> Result<Inlet, NoMemory>
            requires { (ending_of inlet ≡ None) × (pushed inlet ≡ []) }
            ensures { IfOk result (λ i. (inlet_mark i ≡ inlet_mark inlet)
                × (length (pushed i) ≡ count)) }
        { push_all(rt, alloc, inlet, count) },
        move || -> (Outlet, bool)
            ensures { (outlet_mark result.0 ≡ outlet_mark outlet) × (knows_all result.0 ≡ true)
                × (given result.0 ≡ known_pushed result.0) }
        { take_all(rt, outlet) },
    );
    Ok((in_order, unite(inlet?, outlet)))
}

#[test]
fn all_come_in_order(rt: HostRuntime) -> Result<(), Fail> {
    let (in_order, remains) = across(&rt, rt.alloc(), 10_000)?;
    assert!(rt; in_order && remains.taken == 10_000 && remains.left == 0);
    Ok(())
}
