//! What a line does.
ghost use Rattle.std.specs.Prelude.{◌≡◌, ◌<◌, ℕ, List, Some, None, IfOk, IfErr};
ghost use Rattle.std.specs.Option.{option_map};
ghost use Rattle.indexmap.specs.IndexMap.{index_map_len};
ghost use Rattle.bsc_script.specs.States.{State, Peer as PeerOf, peer_of};
ghost use Rattle.bsc_script.specs.Carrying.{ends};
ghost use Rattle.bsc_script.specs.Receiving.{receives};
ghost use Rattle.bsc_script.specs.Running.{gets_text, holds, line_outcome, run_line};
ghost use Rattle.bsc_script.specs.Holding.{ScriptStands, ScriptHolds, HoldsSome, IsAt, ActsTo, RunsTo};

use crate::due::Due;
use crate::line::Line;
use crate::script_hub::ScriptHub;
use bsc_accept::Closing;
use bsc_octets::Octets;
use bsc_player::LineFault;
use std::alloc::Global;

impl ScriptHub {
    /// The place of a name, where it is open.
    fn place_where_open(&self, name: &Octets) -> Result<usize, LineFault>
        ensures found { (s : State) → ScriptStands self.now s → IfOk result (λ at.
            (k : PeerOf) × IsAt at k s × (peer_of s name.now ≡ Some k)) }
        ensures none { (s : State) → ScriptStands self.now s → IfErr result (λ fault.
            (fault ≡ LineFault.Refused) × (peer_of s name.now ≡ None)) }
        ensures within { IfOk result (λ at. at < index_map_len self.now.peers) }
    {
        match self.place_of(name.as_slice()) {
            Some(at) => Ok(at),
            None => Err(LineFault::Refused),
        }
    }

    /// A message of a peer comes in, where its name is open.
    fn hear(
        &mut self,
        alloc: Global,
        name: &Octets,
        message: &[u8],
        text: &mut Vec<u8>,
    ) -> Result<Due, LineFault>
        requires some { HoldsSome self.old }
        ensures { (s : State) → ScriptHolds self.old s → ActsTo result self.new text.old.items text.new.items
            (option_map (λ k. receives s k message.now) (peer_of s name.now)) }
    {
        let at = self.place_where_open(name)?;
        Ok(self.receive(alloc, at, message, text)?)
    }

    /// A text message of a peer comes in, where its name is open: its WebSocket is closed.
    fn hear_text(&mut self, name: &Octets, text: &mut Vec<u8>) -> Result<Due, LineFault>
        requires some { HoldsSome self.old }
        ensures { (s : State) → ScriptHolds self.old s → ActsTo result self.new text.old.items text.new.items
            (option_map (gets_text s) (peer_of s name.now)) }
    {
        let at = self.place_where_open(name)?;
        self.close(at, Closing::NOT_BINARY, text)?;
        Ok(Due::Nobody)
    }

    /// A peer closes its WebSocket, where its name is open.
    fn drop_name(&mut self, name: &Octets, text: &mut Vec<u8>) -> Result<Due, LineFault>
        requires some { HoldsSome self.old }
        ensures { (s : State) → ScriptHolds self.old s → ActsTo result self.new text.old.items text.new.items
            (option_map (ends s) (peer_of s name.now)) }
    {
        let at = self.place_where_open(name)?;
        self.end(at, text)?;
        Ok(Due::Nobody)
    }

    /// A peer is held or freed, where its name is open.
    fn hold_name(&mut self, name: &Octets, held: bool) -> Result<Due, LineFault>
        requires some { HoldsSome self.old }
        ensures { (s : State) (b : List ℕ) → ScriptHolds self.old s → ActsTo result self.new b b
            (option_map (λ k. holds s k held) (peer_of s name.now)) }
    {
        let at = self.place_where_open(name)?;
        Ok(self.hold(at, held))
    }

    /// Carries out a line, before the outboxes are emptied.
    fn act_on(&mut self, alloc: Global, line: Line, text: &mut Vec<u8>) -> Result<Due, LineFault>
        requires some { HoldsSome self.old }
        ensures { (s : State) → ScriptHolds self.old s →
            ActsTo result self.new text.old.items text.new.items (line_outcome s line) }
    {
        match line {
            Line::Nothing => Ok(Due::Nobody),
            Line::Hub(_) => Err(LineFault::Refused),
            Line::Open { name } => {
                self.open(name)?;
                Ok(Due::Nobody)
            }
            Line::In { name, message } => self.hear(alloc, &name, message.as_slice(), text),
            Line::Text { name } => self.hear_text(&name, text),
            Line::Drop { name } => self.drop_name(&name, text),
            Line::Hold { name } => self.hold_name(&name, true),
            Line::Free { name } => self.hold_name(&name, false),
            Line::At { ms } => {
                self.tick(alloc, ms, text)?;
                Ok(Due::Nobody)
            }
            Line::Stop => Ok(self.stop(alloc, text)?),
            Line::Counts => {
                self.count(text)?;
                Ok(Due::Nobody)
            }
        }
    }

    /// Carries out a line, puts what is written for it at the end of a text, and then empties the outboxes that
    /// it changed. After a fault the hub isn't used again. Memory may run out.
    pub fn run_line(
        &mut self,
        alloc: Global,
        line: Line,
        text: &mut Vec<u8>,
    ) -> Result<(), LineFault>
        requires some { HoldsSome self.old }
        ensures { (s : State) → ScriptHolds self.old s →
            RunsTo result self.new text.old.items text.new.items (run_line s line) }
    {
        let due = self.act_on(alloc, line, text)?;
        self.empty(alloc, &due, text)?;
        Ok(())
    }
}
