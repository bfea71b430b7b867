//! What can be said where one thread has both ends of a ring.
ghost use Rattle.std.specs.Prelude.{◌≡◌, ◌+◌, length};
ghost use Rattle.bsc_ring.specs.Ends.{Fit, Met, SameInlet, SameOutlet, given, inlet_mark, outlet_mark, pushed};

use crate::ends::{Inlet, Outlet};
use crate::remains::Remains;
use crate::steps::tell_each_other;

impl Inlet {
    /// Tells each end what the other knows: each later take finds what was pushed until now, and each later
    /// push loads no less than was taken until now.
    pub fn meet(&mut self, outlet: &mut Outlet)
        requires { inlet_mark self.old ≡ outlet_mark outlet.old }
        ensures fit { Fit self.old outlet.old }
        ensures met { Met self.new outlet.new }
        ensures same { SameInlet self.old self.new × SameOutlet outlet.old outlet.new }
    {
        tell_each_other(&self.table, &mut self.seat, &mut outlet.seat);
    }
}

/// Ends a ring, and counts what was taken and what is left.
pub fn unite(inlet: Inlet, outlet: Outlet) -> Remains
    requires { inlet_mark inlet ≡ outlet_mark outlet }
    ensures fit { Fit inlet outlet }
    ensures taken { result.taken ≡ length (given outlet) }
    ensures left { result.taken + result.left ≡ length (pushed inlet) }
{
    let mut inlet = inlet;
    let mut outlet = outlet;
    inlet.meet(&mut outlet);
    let taken = outlet.taken();
    Remains {
        taken,
        left: inlet.sent - taken,
    }
}
