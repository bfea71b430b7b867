//! What is done at one row: its outbox is pushed to or finished, or meets its outlet.
#![tactic(auto)]

ghost use Rattle.std.specs.Prelude.{◌≡◌, ◌≢◌, ◌<◌, ◌^◌, false, nat_lt, length, Some, None};
ghost use Rattle.bsc_history.specs.declared.ending.End.TheVariants.{Left};
ghost use Rattle.bsc_ring.specs.Ends.{Fit, Met, SameOutlet, inlet_mark, outlet_mark, pushed};
ghost use Rattle.bsc_desk.specs.Changes.{Finishes, IsSameRow};
ghost use Rattle.bsc_desk.specs.Fates.{Fares, is_long_for};
ghost use Rattle.bsc_desk.specs.Live.{is_open};

use crate::fate::Fate;
use crate::row::Row;
use bsc_history::{End, Look};
use bsc_octets::Octets;
use bsc_ring::Outlet;

impl Row {
    /// Whether the connection is live.
    pub(crate) fn is_open(&self) -> bool
        ensures { result ≡ is_open self.now }
    {
        self.ending.is_none()
    }

    /// Whether so many octets are more than the connection takes in one message.
    pub(crate) fn is_short_of(&self, len: usize) -> bool
        ensures { result ≡ nat_lt self.now.connection.who.max_bvlc len }
    {
        (self.connection.who.max_bvlc as usize) < len
    }

    /// Finishes the outbox with an End, where it has none yet.
    pub(crate) fn finish(&mut self, ending: End)
        requires named { ending ≢ Left }
        ensures { Finishes ending self.old self.new }
    {
        if self.ending.is_none() {
            self.inlet.finish(ending);
            self.ending = Some(ending);
        }
    }

    /// Pushes a frame into the outbox of a live connection. Where this push finds the outbox full, the frame is
    /// dropped, and the connection ends so, where an End is given.
    pub(crate) fn offer(&mut self, frame: Octets, full: Option<End>) -> Fate
        requires open { self.old.ending ≡ None }
        requires few { length (pushed self.old.inlet) < 2 ^ 63 }
        requires fits { is_long_for frame self.old ≡ false }
        requires named { full ≢ Some Left }
        ensures { Fares full frame self.old result self.new }
    {
        let conn = self.connection.number;
        match self.inlet.push(frame) {
            Ok(taken) => Fate::Entered(Look { conn, taken }),
            Err((_, taken)) => {
                if let Some(ending) = full {
                    self.finish(ending);
                }
                Fate::FoundFull(Look { conn, taken })
            }
        }
    }

    /// Lets the inlet and its outlet learn of each other.
    pub(crate) fn meet(&mut self, outlet: &mut Outlet)
        requires { inlet_mark self.old.inlet ≡ outlet_mark outlet.old }
        ensures fit { Fit self.old.inlet outlet.old }
        ensures met { Met self.new.inlet outlet.new }
        ensures same { IsSameRow self.old self.new }
        ensures outlet { SameOutlet outlet.old outlet.new }
    {
        self.inlet.meet(outlet);
    }
}
