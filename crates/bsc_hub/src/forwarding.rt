//! Forwards of unicasts and of broadcasts.
ghost use Rattle.std.specs.Prelude.{◌≡◌, ◌≤◌, ◌↔◌, [], length, None, IfErr, IfOk, IsErr, IsFalse, IsTrue};
ghost use Rattle.bsc_octets.specs.Forwarding.{is_broadcast};
ghost use Rattle.bsc_history.specs.Ends.{ended};
ghost use Rattle.bsc_history.specs.Marks.{entries};
ghost use Rattle.bsc_history.specs.Replies.{forward_reply, is_stopped};
ghost use Rattle.bsc_turn.specs.Passes.{number_of, seen};
ghost use Rattle.bsc_desk.specs.Entries.{AllSaysLimit, all_looks, all_reply, is_all_worn, lacks_memory, one_looks, one_reply};
ghost use Rattle.bsc_hub.specs.Calls.{all_made, all_told, one_made};
ghost use Rattle.bsc_hub.specs.Passing.{IsCaller, IsOwnAs, Passed, about_of, found_history};

use crate::commits::{commit_all, commit_one};
use crate::hub::Hub;
use bsc_desk::{AllRefusal, AllReply, OneReply, Prepared};
use bsc_history::{Told, Worn};
use bsc_turn::Pass;
use std::alloc::Global;
use std::marker::Brand;
use std::snapshot::Snapshot;
use std::sync::Wait;

impl Hub {
    /// Forwards a unicast of connection `conn`, which this caller joined, which hasn't left and which has the frame's
    /// sender as its VMAC. It joins the outbox of the live connection that holds its Destination, or else the first of
    /// these holds: worn; the hub has stopped; the sender has ended; nobody holds the Destination; the octets are too
    /// long for the holder; the push finds the outbox full, and the holder ends. No memory is taken.
    pub fn forward_one<R: Wait>(
        &self,
        rt: &R,
        pass: &mut Pass,
        conn: u64,
        frame: Prepared,
    ) -> Result<Told<OneReply>, Worn>
        requires caller { IsCaller self.now pass.old }
        requires own { IsOwnAs pass.old conn frame.sender }
        requires unicast { IsFalse (is_broadcast frame.message) }
        ensures pass { Passed self.now pass.old [] (one_made (number_of pass.old) conn frame.message result) pass.new }
        ensures due { IfOk result (λ t. one_reply t.said
            ≡ forward_reply (about_of self.now)
            (found_history (one_made (number_of pass.old) conn frame.message result) pass.new)
            conn frame.message (one_looks t.said)) }
        ensures worn { IsErr result ↔ ((about_of self.now).limits.calls
            ≤ length (found_history (one_made (number_of pass.old) conn frame.message result) pass.new)) }
        ensures limit { IfErr result (λ worn. worn.calls ≡ (about_of self.now).limits.calls) }
    {
        let caller = pass.number();
        let note = Snapshot::of(&frame);
        let mut guard = self.turn.enter(rt, pass);
        match guard.state().forward_one(caller, conn, frame) {
            Err(worn) => {
                guard.back(pass);
                Err(worn)
            }
            Ok(said) => {
                let at = commit_one::<Brand>(guard, pass, caller, conn, note, said);
                Ok(Told { at, said })
            }
        }
    }

    /// Forwards a broadcast of connection `conn`, which this caller joined, which hasn't left and which has the
    /// frame's sender as its VMAC. The first of these holds: worn; the hub has stopped; the sender has ended; memory
    /// runs out for the copies, and then nothing has changed; each live connection but the sender gets it, or is
    /// skipped, as its octets are too long, or misses it, as the push finds its outbox full.
    pub fn forward_all<R: Wait>(
        &self,
        rt: &R,
        alloc: Global,
        pass: &mut Pass,
        conn: u64,
        frame: &Prepared,
    ) -> Result<Told<AllReply>, AllRefusal>
        requires caller { IsCaller self.now pass.old }
        requires own { IsOwnAs pass.old conn frame.now.sender }
        requires broadcast { IsTrue (is_broadcast frame.now.message) }
        ensures pass { Passed self.now pass.old []
            (all_made (number_of pass.old) conn frame.now.message result) pass.new }
        ensures due { IfOk result (λ t. all_reply t.said
            ≡ forward_reply (about_of self.now)
            (found_history (all_made (number_of pass.old) conn frame.now.message result) pass.new)
            conn frame.now.message (all_looks t.said)) }
        ensures worn { IsTrue (is_all_worn (all_told result)) ↔ ((about_of self.now).limits.calls
            ≤ length (found_history (all_made (number_of pass.old) conn frame.now.message result) pass.new)) }

        // Memory is only taken where the broadcast is sent.
        ensures memory { IsTrue (lacks_memory (all_told result)) →
            IsFalse (is_stopped (entries (seen pass.new))) × (ended (entries (seen pass.new)) conn ≡ None) }
        ensures limit { IfErr result (λ no. AllSaysLimit no (about_of self.now).limits.calls) }
    {
        let caller = pass.number();
        let mut guard = self.turn.enter(rt, pass);
        match guard.state().forward_all(alloc, caller, conn, frame) {
            Err(refusal) => {
                guard.back(pass);
                Err(refusal)
            }
            Ok(said) => {
                let at = commit_all::<Brand>(guard, pass, caller, conn, frame, &said);
                Ok(Told { at, said })
            }
        }
    }
}
