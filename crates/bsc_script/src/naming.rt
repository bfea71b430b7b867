//! The open names of a script.
ghost use Rattle.std.specs.Prelude.{◌≡◌, ◌<◌, ◌&&◌, not, List, [], IfOk, IfSome, position, nat_lt, length, slice_get, Some};
ghost use Rattle.indexmap.specs.IndexMap.{index_map_len};
ghost use Rattle.bsc_script.specs.Hubs.{IsHub};
ghost use Rattle.bsc_script.specs.States.{State, Peer as PeerOf, new_hub, is_named, has_joined_as, is_open};
ghost use Rattle.bsc_script.specs.Running.{opens, most_names};
ghost use Rattle.bsc_script.specs.Holding.{ScriptStands, ScriptHolds, IsIndexed, KeepsAt, RunsTo};

use crate::bounds::{CONNECT_WAIT_MS, DISCONNECT_WAIT_MS, HEARTBEAT_MS, MOST_NAMES};
use crate::peer::Peer;
use crate::script_hub::ScriptHub;
use bsc_accept::{Accepting, Times};
use bsc_history::About;
use bsc_hub_core::HubCore;
use bsc_octets::{NoMemory, Octets};
use bsc_player::LineFault;
use indexmap::IndexMap;
use std::alloc::Global;
use std::collections::BTreeMap;

/// How long the hub of a script waits for a peer.
const DEFAULT_TIMES: Times = Times {
    connect_wait: CONNECT_WAIT_MS,
    disconnect_wait: DISCONNECT_WAIT_MS,
    heartbeat: HEARTBEAT_MS,
};

impl ScriptHub {
    /// A new hub at the time 0, with no open names. Memory may run out.
    pub fn make(alloc: Global, about: About) -> Result<ScriptHub, NoMemory>
        requires { IsHub about }
        ensures { IfOk result (λ t. ScriptHolds t (new_hub about)) }
    {
        let core = HubCore::make(
            alloc,
            About {
                hub: about.hub,
                limits: about.limits,
            },
        )?;
        Ok(ScriptHub {
            about,
            clock: 0,
            core,
            peers: IndexMap::new(alloc),
            names: BTreeMap::new(alloc),
        })
    }

    /// The place of a name among the open ones.
    pub(crate) fn place_of(&self, name: &[u8]) -> Option<usize>
        ensures place { (ks : List PeerOf) → IsIndexed self.now ks → result ≡ position (is_named name.now) ks }
        ensures within { IfSome result (λ at. at < index_map_len self.now.peers) }
    {
        self.peers.get_index_of(name)
    }

    /// The place of the name that has joined as a connection.
    pub(crate) fn place_on(&self, conn: u64) -> Option<usize>
        ensures place { (ks : List PeerOf) → IsIndexed self.now ks → result ≡ position (has_joined_as conn) ks }
        ensures within { IfSome result (λ at. at < index_map_len self.now.peers) }
    {
        match self.names.get(&conn) {
            Some(name) => self.peers.get_index_of(name.as_slice()),
            None => None,
        }
    }

    /// The name at a place.
    pub(crate) fn name_at(&self, at: usize) -> &[u8]
        requires { at < index_map_len self.now.peers }
        ensures { (ks : List PeerOf) (k : PeerOf) → IsIndexed self.now ks → slice_get ks at ≡ Some k → result.now ≡ k.name }
    {
        match self.peers.get_index(at) {
            Some((name, _)) => name.as_slice(),
            None => unreachable!(),
        }
    }

    /// The peer at a place.
    pub(crate) fn peer_at(&self, at: usize) -> &Peer
        requires { at < index_map_len self.now.peers }
        ensures { KeepsAt self.now at (λ p. result.now ≡ p) }
    {
        match self.peers.get_index(at) {
            Some((_, peer)) => peer,
            None => unreachable!(),
        }
    }

    /// Whether a name may open: it isn't open, and fewer are than may be.
    fn may_open(&self, name: &[u8]) -> bool
        ensures { (s : State) → ScriptStands self.now s →
            result ≡ (not (is_open s name.now) && nat_lt (length s.peers) most_names) }
    {
        self.place_of(name).is_none() && self.peers.len() < MOST_NAMES
    }

    /// Opens a name, and starts a machine for it.
    pub(crate) fn open(&mut self, name: Octets) -> Result<(), LineFault>
        ensures { (s : State) → ScriptHolds self.old s → RunsTo result self.new [] [] (opens s name) }
    {
        if !self.may_open(name.as_slice()) {
            return Err(LineFault::Refused);
        }
        let peer = Peer {
            machine: Accepting::start(self.about.hub, DEFAULT_TIMES, self.clock),
            held: false,
            joined: None,
        };
        let Ok(_) = self.peers.insert(name.into_vec(), peer) else {
            return Err(LineFault::NoMemory);
        };
        Ok(())
    }
}
