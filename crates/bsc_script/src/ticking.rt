//! The clock.
ghost use Rattle.std.specs.Prelude.{◌≡◌, ◌+◌, ◌<◌, ◌^◌, [], drop, if◌then◌else◌, IfOk};
ghost use Rattle.indexmap.specs.IndexMap.{index_map_len};
ghost use Rattle.bsc_accept.specs.Steps.{closes as is_closing};
ghost use Rattle.bsc_script.specs.States.{State, Peer as PeerOf};
ghost use Rattle.bsc_script.specs.Carrying.{tells};
ghost use Rattle.bsc_script.specs.Running.{ticks};
ghost use Rattle.bsc_script.specs.Holding.{ScriptHolds, HoldsSome, IsAt, CarriesOut, RunsTo};

use crate::script_hub::ScriptHub;
use bsc_accept::{Event, Step};
use bsc_octets::NoMemory;
use bsc_player::LineFault;
use bsc_text::LATEST;
use std::alloc::Global;

/// The place of the next name after a step of the one at a place: the same, where this one was closed.
fn next_place(step: &Step, at: usize) -> usize
    requires { at < 2 ^ 63 }
    ensures { result ≡ (if is_closing step.now then at else at + 1) }
{
    match step {
        Step::Close(_) | Step::PutClose(_, _) => at,
        Step::Ask(_) | Step::Put(_) | Step::Up | Step::Nothing => at + 1,
    }
}

impl ScriptHub {
    /// The machine of the peer at a place is told the time. The place of the next one is answered: the same,
    /// where this one was closed.
    fn tick_one(&mut self, alloc: Global, at: usize, text: &mut Vec<u8>) -> Result<usize, NoMemory>
        requires within { at < index_map_len self.old.peers }
        requires small { at < 2 ^ 63 }
        requires some { HoldsSome self.old }
        ensures { (s : State) (k : PeerOf) → ScriptHolds self.old s → IsAt at k s → IfOk result (λ next.
            CarriesOut self.new text.old.items text.new.items [] (tells s k (Event.Tick s.clock))
            × (drop next (tells s k (Event.Tick s.clock)).state.peers ≡ drop (at + 1) s.peers)) }
    {
        let now = self.clock;
        let (_, peer) = self.peers.pair_mut(at);
        let step = peer.machine.tick(now);
        let next = next_place(&step, at);
        self.carry_out(alloc, at, step, text)?;
        Ok(next)
    }

    /// Sets the clock, and tells the machines of all open names, in the order of opening.
    pub(crate) fn tick(
        &mut self,
        alloc: Global,
        ms: u64,
        text: &mut Vec<u8>,
    ) -> Result<(), LineFault>
        requires some { HoldsSome self.old }
        ensures { (s : State) → ScriptHolds self.old s →
            RunsTo result self.new text.old.items text.new.items (ticks s ms) }
    {
        if ms < self.clock || LATEST < ms {
            return Err(LineFault::Refused);
        }
        self.clock = ms;
        let mut at = 0;
        while at < self.peers.len() {
            at = self.tick_one(alloc, at, text)?;
        }
        Ok(())
    }
}
