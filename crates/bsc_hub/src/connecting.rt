//! Connects.
ghost use Rattle.std.specs.Prelude.{◌≡◌, ◌≢◌, [], Some, Err, IfErr, IfOk, IsFalse};
ghost use Rattle.bsc_octets.specs.Addresses.{broadcast, same_vmac, zero_vmac};
ghost use Rattle.bsc_history.specs.Marks.{mark_of};
ghost use Rattle.bsc_ring.specs.Ends.{IsNewInlet, IsNewOutlet, capacity_of, inlet_mark, outlet_mark};
ghost use Rattle.bsc_turn.specs.Passes.{number_of, seen};
ghost use Rattle.bsc_desk.specs.Entries.{connect_due};
ghost use Rattle.bsc_hub.specs.declared.joined.ConnectRefusal.TheVariants.{NoMemory as NoMemoryRefusal};
ghost use Rattle.bsc_hub.specs.Calls.{SaysLimit, connect_made, connect_told};
ghost use Rattle.bsc_hub.specs.Passing.{IsCaller, IsOwnAs, Passed, about_of, found_history};

use crate::commits::{commit_joined, commit_refused};
use crate::hub::Hub;
use crate::joined::{ConnectRefusal, Joined};
use bsc_desk::NoRow;
use bsc_octets::{Identity, NoMemory};
use bsc_ring::{Inlet, Outlet, make};
use bsc_turn::Pass;
use std::alloc::Global;
use std::marker::Brand;
use std::snapshot::Snapshot;
use std::sync::Wait;

impl Hub {
    /// Joins a caller under `who`, or says why not. The first of these holds: there is no memory for an outbox;
    /// worn; the hub has stopped; the VMAC is the hub's own, or is held by a live connection of another device; as
    /// many connections haven't left as the hub has rows; else it joins, in place of the live connection of its
    /// device. The outbox is made before the turn is entered.
    pub fn connect<R: Wait>(
        &self,
        rt: &R,
        alloc: Global,
        pass: &mut Pass,
        who: Identity,
    ) -> Result<Joined, ConnectRefusal>
        requires caller { IsCaller self.now pass.old }
        requires not_zero { IsFalse (same_vmac who.vmac zero_vmac) }
        requires not_broadcast { IsFalse (same_vmac who.vmac broadcast) }
        ensures pass { Passed self.now pass.old [] (connect_made (number_of pass.old) who result) pass.new }

        // What is told is what the definition of replies asks for, after the history that the call found.
        ensures due { result ≢ Err NoMemoryRefusal → connect_told result
            ≡ connect_due (about_of self.now) (found_history (connect_made (number_of pass.old) who result) pass.new) who }
        ensures limit { IfErr result (λ no. SaysLimit no (about_of self.now).limits.calls) }
        ensures memory { result ≡ Err NoMemoryRefusal → pass.new ≡ pass.old }

        // The connection is the caller's own, and its outlet is new and has the mark that the history keeps.
        ensures owns { IfOk result (λ j. IsOwnAs pass.new j.conn who.vmac) }
        ensures outlet { IfOk result (λ j. IsNewOutlet j.outlet) }
        ensures mark { IfOk result (λ j. mark_of (seen pass.new) j.conn ≡ Some (outlet_mark j.outlet)) }
    {
        match make(alloc, self.about.limits.outbox) {
            Err(NoMemory) => Err(ConnectRefusal::NoMemory),
            Ok((inlet, outlet)) => self.connect_with(rt, pass, who, inlet, outlet),
        }
    }

    /// The same with the two ends of a new ring.
    fn connect_with<R: Wait>(
        &self,
        rt: &R,
        pass: &mut Pass,
        who: Identity,
        inlet: Inlet,
        outlet: Outlet,
    ) -> Result<Joined, ConnectRefusal>
        requires caller { IsCaller self.now pass.old }
        requires not_zero { IsFalse (same_vmac who.vmac zero_vmac) }
        requires not_broadcast { IsFalse (same_vmac who.vmac broadcast) }
        requires new_inlet { IsNewInlet inlet }
        requires capacity { capacity_of inlet ≡ (about_of self.now).limits.outbox }
        requires new_outlet { IsNewOutlet outlet }
        requires mark { inlet_mark inlet ≡ outlet_mark outlet }
        ensures pass { Passed self.now pass.old [] (connect_made (number_of pass.old) who result) pass.new }
        ensures due { connect_told result
            ≡ connect_due (about_of self.now) (found_history (connect_made (number_of pass.old) who result) pass.new) who }
        ensures limit { IfErr result (λ no. SaysLimit no (about_of self.now).limits.calls) }
        ensures met { result ≢ Err NoMemoryRefusal }
        ensures outlet { IfOk result (λ j. IsNewOutlet j.outlet) }
    {
        let caller = pass.number();
        let note = Snapshot::of(&who);
        let mut guard = self.turn.enter(rt, pass);
        match guard.state().connect(caller, who, inlet) {
            Ok(row) => {
                let at = commit_joined::<Brand>(guard, pass, caller, note, row, &outlet);
                Ok(Joined {
                    at,
                    conn: row.conn,
                    replaced: row.replaced,
                    outlet,
                })
            }
            // The refused inlet is dropped when the turn is free again.
            Err((NoRow::Worn(worn), _inlet)) => {
                guard.back(pass);
                Err(ConnectRefusal::Worn(worn))
            }
            Err((NoRow::Refused(refusal), _inlet)) => {
                let at = commit_refused::<Brand>(guard, pass, caller, note, refusal);
                Err(ConnectRefusal::Refused { at, refusal })
            }
        }
    }
}
