//! What the machine of a peer is told, and the step that follows.
ghost use Rattle.std.specs.Prelude.{◌≡◌, ◌≢◌, ◌<◌, List, ℕ, Some, true, false, OnOk};
ghost use Rattle.indexmap.specs.IndexMap.{index_map_len};
ghost use Rattle.bsc_history.specs.Laws.{is_among};
ghost use Rattle.bsc_accept.specs.Standing.{AwaitsAnswer, IsConnected, IsOpen};
ghost use Rattle.bsc_script.specs.States.{State, Peer as PeerOf};
ghost use Rattle.bsc_script.specs.Carrying.{tells};
ghost use Rattle.bsc_script.specs.Emptying.{is_due};
ghost use Rattle.bsc_script.specs.Settled.{IsSettledBut};
ghost use Rattle.bsc_script.specs.Holding.{IsOfSome, StandsAt, KeepsAt, CarriesOut};

use crate::script_hub::ScriptHub;
use bsc_accept::{Event, Step};
use bsc_history::{End, Refusal};
use bsc_octets::NoMemory;
use std::alloc::Global;

impl ScriptHub {
    /// The machine of the peer at a place is told that who asked has joined, and its step is carried out.
    pub(crate) fn tell_joined(
        &mut self,
        alloc: Global,
        at: usize,
        text: &mut Vec<u8>,
    ) -> Result<(), NoMemory>
        requires within { at < index_map_len self.old.peers }
        requires asked { KeepsAt self.old at (λ p. AwaitsAnswer p.machine) }
        requires some { IsOfSome self.old }
        ensures { (s : State) (k : PeerOf) (cs : List ℕ) (c : ℕ) → StandsAt self.old at cs s k → k.conn ≡ Some c →
            (k.held ≡ false → is_due s k c ≡ true → is_among c cs ≡ true) → OnOk result
            (CarriesOut self.new text.old.items text.new.items cs (tells s k Event.Joined)) }
    {
        let (_, peer) = self.peers.pair_mut(at);
        let step = peer.machine.joined();
        self.carry_out(alloc, at, step, text)
    }

    /// The machine of the peer at a place is told that who asked was refused, and its step is carried out.
    pub(crate) fn tell_refused(
        &mut self,
        alloc: Global,
        at: usize,
        refusal: &Refusal,
        text: &mut Vec<u8>,
    ) -> Result<(), NoMemory>
        requires within { at < index_map_len self.old.peers }
        requires asked { KeepsAt self.old at (λ p. AwaitsAnswer p.machine) }
        requires some { IsOfSome self.old }
        ensures { (s : State) (k : PeerOf) (cs : List ℕ) → StandsAt self.old at cs s k → OnOk result
            (CarriesOut self.new text.old.items text.new.items cs (tells s k (Event.Refused refusal.now))) }
    {
        let (_, peer) = self.peers.pair_mut(at);
        let step = peer.machine.refused(refusal);
        self.carry_out(alloc, at, step, text)
    }

    /// The machine of the peer at a place is told how its connection ended, and its step is carried out.
    pub(crate) fn tell_ended(
        &mut self,
        alloc: Global,
        at: usize,
        ending: End,
        text: &mut Vec<u8>,
    ) -> Result<(), NoMemory>
        requires within { at < index_map_len self.old.peers }
        requires connected { KeepsAt self.old at (λ p. IsConnected p.machine) }
        requires ending { ending ≢ End.Left }
        requires some { IsOfSome self.old }
        ensures { (s : State) (k : PeerOf) (cs : List ℕ) (c : ℕ) → StandsAt self.old at cs s k → k.conn ≡ Some c → OnOk result
            (CarriesOut self.new text.old.items text.new.items cs (tells s k (Event.Ended s.clock ending))) }
    {
        let now = self.clock;
        let (_, peer) = self.peers.pair_mut(at);
        let step = peer.machine.ended(now, ending);
        self.carry_out(alloc, at, step, text)
    }
}
