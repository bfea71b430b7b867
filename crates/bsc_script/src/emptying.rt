//! Emptying outboxes.
ghost use Rattle.std.specs.Prelude.{◌≡◌, ◌<◌, ◌&&◌, not, List, ℕ, OnOk, IfOk, [], ◌∷◌};
ghost use Rattle.indexmap.specs.IndexMap.{index_map_len};
ghost use Rattle.bsc_script.specs.States.{State, Peer as PeerOf};
ghost use Rattle.bsc_script.specs.Carrying.{ScriptOutcome};
ghost use Rattle.bsc_history.specs.declared.entry.Entry.{Entry};
ghost use Rattle.bsc_accept.specs.Standing.{phase_of};
ghost use Rattle.bsc_hub_core.specs.Standing.{CoreStands, HasOutbox};
ghost use Rattle.bsc_script.specs.Emptying.{empties, emptied, emptied_on, is_connected, is_emptied};
ghost use Rattle.bsc_script.specs.Settled.{SettledBut};
ghost use Rattle.bsc_script.specs.Touching.{dues};
ghost use Rattle.bsc_script.specs.Between.{IsJoinedAt, IsOpenPeer, IsWritten, TakesOne, WritesAll};
ghost use Rattle.bsc_script.specs.Holding.{ScriptStands, CarriesOut, IsToEmpty};

use crate::due::Due;
use crate::peer::Peer;
use crate::script_hub::ScriptHub;
use crate::texts::put_out;
use bsc_checks::Phase;
use bsc_history::End;
use bsc_hub_core::{HubCore, Took};
use bsc_octets::NoMemory;
use std::alloc::Global;

/// Writes the next frame of the outbox of a connection under a name. Where there is none, it says how the connection has
/// ended, if it has.
fn write_next(
    core: &mut HubCore,
    conn: u64,
    alloc: Global,
    name: &[u8],
    text: &mut Vec<u8>,
) -> Result<Option<Option<End>>, NoMemory>
    requires some { (H : List Entry) × CoreStands core.old H × HasOutbox core.old conn }
    ensures { (H : List Entry) → CoreStands core.old H → IfOk result (λ took. TakesOne H conn took core.old core.new name.now text.old.items text.new.items) }
{
    match core.take(conn) {
        Took::Frame(frame, _) => {
            put_out(text, alloc, name, frame.as_slice())?;
            Ok(None)
        }
        Took::Empty => Ok(Some(None)),
        Took::Closed(ending) => Ok(Some(Some(ending))),
    }
}

/// Writes what waits in the outbox of a connection under a name, and says how the connection has ended, if it has.
fn write_frames(
    core: &mut HubCore,
    conn: u64,
    alloc: Global,
    name: &[u8],
    text: &mut Vec<u8>,
) -> Result<Option<End>, NoMemory>
    requires some { (H : List Entry) × CoreStands core.old H × HasOutbox core.old conn }
    ensures { (H : List Entry) → CoreStands core.old H → IfOk result (λ ending. WritesAll H conn ending core.old core.new name.now text.old.items text.new.items) }
{
    for _taken in 0..u64::MAX {
        if let Some(ending) = write_next(core, conn, alloc, name, text)? {
            return Ok(ending);
        }
    }
    unreachable!()
}

impl Peer {
    /// Whether its outbox is to be emptied, where something is due or isn't: its phase is Connected, and it isn't held.
    fn is_to_empty(&self, due: bool) -> bool
        ensures { result ≡ (is_connected (phase_of self.now.machine) && not self.now.held && due) }
    {
        due && !self.held && matches!(self.machine.phase(), Phase::Connected)
    }
}

impl ScriptHub {
    /// Writes what waits for the peer at a place, and says how its connection has ended, if it has.
    fn write_at(
        &mut self,
        alloc: Global,
        at: usize,
        text: &mut Vec<u8>,
    ) -> Result<Option<End>, NoMemory>
        requires within { at < index_map_len self.old.peers }
        requires some { (s : State) × (k : PeerOf) × (c : ℕ) × IsJoinedAt self.old at c s k }
        ensures { (s : State) (k : PeerOf) (c : ℕ) → IsJoinedAt self.old at c s k → IfOk result (λ ending.
            IsWritten self.new at c s k ending text.old.items text.new.items) }
    {
        match self.peers.get_index(at) {
            Some((name, peer)) => match peer.joined {
                Some(conn) => write_frames(&mut self.core, conn, alloc, name.as_slice(), text),
                None => Ok(None),
            },
            None => unreachable!(),
        }
    }

    /// Whether the outbox of the peer at a place is to be emptied, which has joined as a connection.
    fn is_to_empty(&self, at: usize, conn: u64) -> bool
        requires within { at < index_map_len self.now.peers }
        requires some { (s : State) × (k : PeerOf) × IsJoinedAt self.now at conn s k × IsOpenPeer s k }
        ensures { (s : State) (k : PeerOf) → IsJoinedAt self.now at conn s k → IsOpenPeer s k → result ≡ is_emptied s k conn }
    {
        let due = self.core.has_due(conn);
        self.peer_at(at).is_to_empty(due)
    }

    /// Empties the outbox of the peer at a place. Where its connection has ended its machine is told.
    fn empty_at(&mut self, alloc: Global, at: usize, text: &mut Vec<u8>) -> Result<(), NoMemory>
        requires within { at < index_map_len self.old.peers }
        requires some { (s : State) × (k : PeerOf) × (c : ℕ) × (ds : List ℕ) × IsToEmpty self.old at c ds s k }
        ensures { (s : State) (k : PeerOf) (c : ℕ) (ds : List ℕ) → IsToEmpty self.old at c ds s k → OnOk result
            (CarriesOut self.new text.old.items text.new.items ds (empties s k c)) }
    {
        match self.write_at(alloc, at, text)? {
            None => Ok(()),
            Some(ending) => self.tell_ended(alloc, at, ending, text),
        }
    }

    /// Empties the outbox of a connection, where it is to be.
    fn empty_one(&mut self, alloc: Global, conn: u64, text: &mut Vec<u8>) -> Result<(), NoMemory>
        requires some { (s : State) × (ds : List ℕ) × ScriptStands self.old s × SettledBut (conn ∷ ds) s }
        ensures { (s : State) (ds : List ℕ) → ScriptStands self.old s → SettledBut (conn ∷ ds) s → OnOk result
            (CarriesOut self.new text.old.items text.new.items ds (emptied_on s conn)) }
    {
        match self.place_on(conn) {
            Some(at) => if self.is_to_empty(at, conn) {
                self.empty_at(alloc, at, text)
            } else {
                Ok(())
            },
            None => Ok(()),
        }
    }

    /// Empties the outboxes of these connections, where they are to be.
    fn empty_each(
        &mut self,
        alloc: Global,
        conns: &[u64],
        text: &mut Vec<u8>,
    ) -> Result<(), NoMemory>
        requires some { (s : State) × ScriptStands self.old s × SettledBut conns.now s }
        ensures { (base : List ℕ) (o : ScriptOutcome) → CarriesOut self.old base text.old.items conns.now o → OnOk result
            (CarriesOut self.new base text.new.items [] (emptied o)) }
    {
        for conn in conns.iter() {
            self.empty_one(alloc, *conn, text)?;
        }
        Ok(())
    }

    /// Empties the outboxes that a line changed, in the order of joining.
    pub(crate) fn empty(
        &mut self,
        alloc: Global,
        due: &Due,
        text: &mut Vec<u8>,
    ) -> Result<(), NoMemory>
        requires some { (s : State) × ScriptStands self.old s × SettledBut (dues due.now) s }
        ensures { (base : List ℕ) (o : ScriptOutcome) → CarriesOut self.old base text.old.items (dues due.now) o → OnOk result
            (CarriesOut self.new base text.new.items [] (emptied o)) }
    {
        match due {
            Due::Nobody => self.empty_each(alloc, &[], text),
            Due::One(conn) => self.empty_each(alloc, &[*conn], text),
            Due::Each(conns) => self.empty_each(alloc, conns.as_slice(), text),
        }
    }
}
