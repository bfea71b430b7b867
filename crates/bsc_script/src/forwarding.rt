//! Unicasts and broadcasts.
ghost use Rattle.std.specs.Prelude.{◌<◌, [], IfOk, IsTrue, IsFalse};
ghost use Rattle.indexmap.specs.IndexMap.{index_map_len};
ghost use Rattle.bsc_octets.specs.Forwarding.{has_route, is_broadcast};
ghost use Rattle.bsc_script.specs.States.{State, Peer as PeerOf};
ghost use Rattle.bsc_script.specs.Receiving.{forwards, forwards_if};
ghost use Rattle.bsc_script.specs.Settled.{IsSettledBut};
ghost use Rattle.bsc_script.specs.Touching.{dues};
ghost use Rattle.bsc_script.specs.Holding.{StandsAt, CarriesOut};

use crate::due::Due;
use crate::replies::{put_all, put_reply};
use crate::script_hub::ScriptHub;
use bsc_hub_core::Forwarded;
use bsc_octets::NoMemory;
use std::alloc::Global;

impl ScriptHub {
    /// Carries on a message of the peer at a place, where it has joined.
    pub(crate) fn forward(
        &mut self,
        alloc: Global,
        at: usize,
        message: &[u8],
        text: &mut Vec<u8>,
    ) -> Result<Due, NoMemory>
        requires within { at < index_map_len self.old.peers }
        requires route { IsTrue (has_route message.now) }
        requires some { (s : State) × (k : PeerOf) × StandsAt self.old at [] s k × IsSettledBut [] s.about s.history k }
        ensures { (s : State) (k : PeerOf) → StandsAt self.old at [] s k → IsSettledBut [] s.about s.history k → IfOk result (λ due.
            CarriesOut self.new text.old.items text.new.items (dues due) (forwards_if s k k.conn message.now)) }
    {
        let Some(conn) = self.peer_at(at).joined else {
            return Ok(Due::Nobody);
        };
        match self.core.forward(alloc, 0, conn, 0, message)? {
            Forwarded::One(reply) => {
                put_reply(text, self.name_at(at), reply)?;
                Ok(Due::by_one(reply))
            }
            Forwarded::All(reply) => {
                put_all(text, self.name_at(at), &reply)?;
                Ok(Due::by_all(reply))
            }
            Forwarded::Worn => {
                self.wear(at, text)?;
                Ok(Due::Nobody)
            }
        }
    }
}
