//! What happened, for contracts alone: it has no octets, and may go to another thread.
ghost use Rattle.std.specs.Prelude.{◌≡◌, [], ◌∷◌};

use bsc_past::Past;
use std::mem::size_of;
use std::thread::join;

#[derive(Drop)]
struct Beside {
    number: u64,
    past: Past<u64>,
}

/// This number, twice.
fn twice(number: u64) -> Past<u64>
    ensures { result.items ≡ number ∷ number ∷ [] }
{
    let mut past = Past::new();
    past.add(&number);
    past.add_all(&[number]);
    past
}

#[test]
fn a_past_has_no_octets(rt: HostRuntime) {
    assert_eq!(rt; size_of::<Past<u64>>(), 0);
    assert_eq!(rt; size_of::<Beside>(), 8);
    let beside = Beside {
        number: 7,
        past: twice(7),
    };
    assert_eq!(rt; beside.number, 7);
}

#[test]
fn a_past_goes_to_another_thread(rt: HostRuntime) {
    let past = twice(7);
    let (again, n) = join(&rt, move || past.again(), || 5_u64);
    drop(again);
    assert_eq!(rt; n, 5);
}
