//! Messages of peers.
ghost use Rattle.std.specs.Prelude.{◌≡◌, ◌<◌, ◌++◌, IfOk, OnOk};
ghost use Rattle.indexmap.specs.IndexMap.{index_map_len};
ghost use Rattle.bsc_script.specs.States.{State, Peer as PeerOf};
ghost use Rattle.bsc_script.specs.Written.{text_of};
ghost use Rattle.bsc_script.specs.Receiving.{silence, acts, receives};
ghost use Rattle.bsc_script.specs.Touching.{dues};
ghost use Rattle.bsc_script.specs.Holding.{ScriptHolds, HoldsSome, IsAt, CarriesOut, AwaitsStep};

use crate::due::Due;
use crate::script_hub::ScriptHub;
use crate::texts::put_silent;
use bsc_accept::Step;
use bsc_checks::{Place, Verdict, judge};
use bsc_octets::NoMemory;
use std::alloc::Global;

/// The line of a message that is met with silence; there is none for another verdict.
fn put_silence(text: &mut Vec<u8>, name: &[u8], verdict: &Verdict) -> Result<(), NoMemory>
    ensures { OnOk result (text.new.items ≡ text.old.items ++ text_of (silence name.now verdict.now)) }
{
    match verdict {
        Verdict::Silent(check) => put_silent(text, name, *check),
        Verdict::Pass(_) | Verdict::Carry(_) | Verdict::Nak(_, _) => Ok(()),
    }
}

impl ScriptHub {
    /// A message of the peer at a place comes in. It is judged at the hub port, in the phase of its machine, the
    /// machine is told, and its step is carried out. What is answered says whose outboxes have changed.
    pub(crate) fn receive(
        &mut self,
        alloc: Global,
        at: usize,
        message: &[u8],
        text: &mut Vec<u8>,
    ) -> Result<Due, NoMemory>
        requires within { at < index_map_len self.old.peers }
        requires some { HoldsSome self.old }
        ensures { (s : State) (k : PeerOf) → ScriptHolds self.old s → IsAt at k s → IfOk result (λ due.
            CarriesOut self.new text.old.items text.new.items (dues due) (receives s k message.now)) }
    {
        let place = Place::HubPort {
            phase: self.peer_at(at).machine.phase(),
        };
        let verdict = judge(alloc, message, &place, self.about.hub.max_bvlc)?;
        put_silence(text, self.name_at(at), &verdict)?;
        let now = self.clock;
        let (_, peer) = self.peers.pair_mut(at);
        let step = peer.machine.message(now, &verdict);
        self.act(alloc, at, message, step, text)
    }

    /// Carries out the step that a message led to.
    fn act(
        &mut self,
        alloc: Global,
        at: usize,
        message: &[u8],
        step: Step,
        text: &mut Vec<u8>,
    ) -> Result<Due, NoMemory>
        requires within { at < index_map_len self.old.peers }
        requires some { (s : State) × (k : PeerOf) × AwaitsStep self.old at message.now s k step }
        ensures { (s : State) (k : PeerOf) → AwaitsStep self.old at message.now s k step → IfOk result (λ due.
            CarriesOut self.new text.old.items text.new.items (dues due) (acts s k message.now step)) }
    {
        match step {
            Step::Ask(who) => self.connect(alloc, at, &who, text),
            Step::Up => self.forward(alloc, at, message, text),
            step => {
                self.carry_out(alloc, at, step, text)?;
                Ok(Due::Nobody)
            }
        }
    }
}
