//! What a worker takes from its receiver's outlet.
ghost use Rattle.std.specs.Prelude.{◌≡◌, ◌-◌, length};
ghost use Rattle.bsc_ring.specs.Ends.{given, outlet_mark};
ghost use Rattle.bsc_load.specs.Inner.{EmptiedOnce, IsCounted};

use bsc_ring::{Outlet, Take};
use std::sync::Wait;

/// How many octets of NPDU a frame has that a hub passed on, which has a head of ten octets.
fn npdu_len(frame: &[u8]) -> u64
    ensures { result ≡ length frame.now - 10 }
{
    (frame.len() as u64).saturating_sub(10)
}

/// Takes until the outlet is empty or closed, and answers how many octets of NPDU it has given by then.
pub(crate) fn take_all<R: Wait>(rt: &R, outlet: &mut Outlet, octets: u64) -> u64
    requires { IsCounted outlet.old octets }
    ensures counted { IsCounted outlet.new result }
    ensures mark { outlet_mark outlet.new ≡ outlet_mark outlet.old }
    ensures emptied { EmptiedOnce outlet.old outlet.new }
{
    let mut octets = octets;
    for _ in rt.forever() {
        match outlet.take() {
            Take::Frame(frame) => octets = octets.saturating_add(npdu_len(frame.as_slice())),
            Take::Empty => return octets,
            Take::Closed(_) => return octets,
        }
    }
    unreachable!()
}
