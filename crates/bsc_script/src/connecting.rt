//! Connects.
ghost use Rattle.std.specs.Prelude.{◌≡◌, ◌<◌, List, ℕ, [], None, OnOk, IfOk, IsFalse};
ghost use Rattle.indexmap.specs.IndexMap.{index_map_len};
ghost use Rattle.bsc_octets.specs.Addresses.{same_vmac, zero_vmac, broadcast};
ghost use Rattle.bsc_script.specs.States.{State, Peer as PeerOf};
ghost use Rattle.bsc_accept.specs.Standing.{AwaitsAnswer};
ghost use Rattle.bsc_script.specs.Receiving.{wears, connects};
ghost use Rattle.bsc_script.specs.Touching.{dues};
ghost use Rattle.bsc_script.specs.Holding.{IsOfSome, StandsAt, KeepsAt, CarriesOut};
ghost use Rattle.bsc_script.specs.Between.{Seats};

use crate::due::Due;
use crate::replies::{put_joined, put_refusal};
use crate::script_hub::ScriptHub;
use crate::texts::put_line;
use bsc_accept::Closing;
use bsc_hub_core::Connected;
use bsc_octets::{Identity, NoMemory};
use bsc_text::copy_of;
use std::alloc::Global;

impl ScriptHub {
    /// A call of the peer at a place was worn: that is said, and its WebSocket is closed.
    pub(crate) fn wear(&mut self, at: usize, text: &mut Vec<u8>) -> Result<(), NoMemory>
        requires within { at < index_map_len self.old.peers }
        requires some { IsOfSome self.old }
        ensures { (s : State) (k : PeerOf) (cs : List ℕ) → StandsAt self.old at cs s k → OnOk result
            (CarriesOut self.new text.old.items text.new.items cs (wears s k)) }
    {
        put_line(text, self.name_at(at), "worn")?;
        self.close(at, Closing::HUB_WORN, text)
    }

    /// The peer at a place has joined as a connection, and its name stands with that.
    fn seat(&mut self, alloc: Global, at: usize, conn: u64) -> Result<(), NoMemory>
        requires within { at < index_map_len self.old.peers }
        ensures { OnOk result (Seats self.old self.new at conn) }
    {
        let (key, peer) = self.peers.pair_mut(at);
        let name = copy_of(alloc, key.as_slice())?;
        peer.joined = Some(conn);
        match self.names.insert(conn, name) {
            Ok(_) => Ok(()),
            Err(_) => Err(NoMemory),
        }
    }

    /// The peer at a place asks to be accepted.
    pub(crate) fn connect(
        &mut self,
        alloc: Global,
        at: usize,
        who: &Identity,
        text: &mut Vec<u8>,
    ) -> Result<Due, NoMemory>
        requires within { at < index_map_len self.old.peers }
        requires not_zero { IsFalse (same_vmac who.now.vmac zero_vmac) }
        requires not_broadcast { IsFalse (same_vmac who.now.vmac broadcast) }
        requires asked { KeepsAt self.old at (λ p. AwaitsAnswer p.machine) }
        requires some { (s : State) × (k : PeerOf) × StandsAt self.old at [] s k × (k.conn ≡ None) }
        ensures { (s : State) (k : PeerOf) → StandsAt self.old at [] s k → k.conn ≡ None → IfOk result (λ due.
            CarriesOut self.new text.old.items text.new.items (dues due) (connects s k who.now)) }
    {
        match self.core.connect(alloc, 0, *who)? {
            Connected::Joined(row) => {
                put_joined(text, self.name_at(at), row)?;
                self.seat(alloc, at, row.conn)?;
                let due = Due::by_join(row.replaced);
                self.tell_joined(alloc, at, text)?;
                Ok(due)
            }
            Connected::Worn => {
                self.wear(at, text)?;
                Ok(Due::Nobody)
            }
            Connected::Refused(refusal) => {
                put_refusal(text, self.name_at(at), refusal)?;
                self.tell_refused(alloc, at, &refusal, text)?;
                Ok(Due::Nobody)
            }
        }
    }
}
