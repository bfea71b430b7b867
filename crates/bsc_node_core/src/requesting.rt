//! What follows where the user of the node wants something.
ghost use Rattle.std.specs.Prelude.{◌≡◌, ℕ, ◌<◌, ◌++◌, List, None, Some, IfOk, OnErr, OnOk, length, min, slice_get};
ghost use Rattle.std.specs.Option.{option_map};
ghost use Rattle.bsc_frame.specs.declared.body.Body.{Body};
ghost use Rattle.bsc_resolve.specs.Standing.{IsUnchanged, ResolveStands};
ghost use Rattle.bsc_node.specs.declared.action.Action.{Action};
ghost use Rattle.bsc_node.specs.Logs.{Log};
ghost use Rattle.bsc_node.specs.Ways.{established, free_slot, learnt, resolve_calls, uris_to_dial, way};
ghost use Rattle.bsc_node.specs.Requesting.{directs, puts_own, resolves, sends, solicits, takes_it};
ghost use Rattle.bsc_node_core.specs.Rules.{way_by, way_of};
ghost use Rattle.bsc_node_core.specs.Standing.{Base, FollowsAlways, Stands};
ghost use Rattle.bsc_node_core.specs.Resolving.{BothStand};

use crate::acting::tell;
use crate::actions::Actions;
use crate::event_context::EventContext;
use crate::messages::message_octets;
use crate::state::State;
use crate::uris::uri_to_dial;
use crate::way::Way;
use bsc_connector::{HubUse, Side};
use bsc_direct::{Route, route};
use bsc_frame::Body;
use bsc_node::{Action, LinkName, Note};
use bsc_octets::{Identity, NoMemory, Octets, Vmac};
use bsc_resolve::{AskRefusal, Resolve};
use std::alloc::Global;

/// The way by a route, where this hub is in use.
fn way_by(v: Vmac, used: HubUse, by: Route) -> Option<Way>
    ensures { option_map way_of result ≡ way_by v used by }
{
    match by {
        Route::Direct(k) => Some(Way {
            link: LinkName::Direct(k),
            dest: None,
        }),
        Route::Hub => match used {
            HubUse::NoHub => None,
            HubUse::Primary => Some(Way {
                link: LinkName::Hub(Side::Primary),
                dest: Some(v),
            }),
            HubUse::Failover => Some(Way {
                link: LinkName::Hub(Side::Failover),
                dest: Some(v),
            }),
        },
        Route::NoPath => None,
    }
}

/// Whether a peer takes an NPDU and a message of these lengths.
fn takes_it(peer: &Option<Identity>, npdu: usize, message: usize) -> bool
    ensures { (n o : List ℕ) → length n ≡ npdu → length o ≡ message → result ≡ takes_it n o peer.now }
{
    match peer {
        Some(who) => npdu <= usize::from(who.max_npdu) && message <= usize::from(who.max_bvlc),
        None => false,
    }
}

impl State {
    /// The way of a message to a VMAC, where there is a path.
    pub(crate) fn way(&self, v: Vmac) -> Option<Way>
        ensures { (b : Base) (out : List Action) (L : Log) → Stands b out self.now L → option_map way_of result ≡ way v L }
    {
        let used = self.connector.hub_use();
        way_by(v, used, route(&self.direct, used, v))
    }

    /// An NPDU goes by the path, unless it is too long for the other end.
    pub(crate) fn send(
        &mut self,
        out: &mut Actions,
        alloc: Global,
        v: Vmac,
        npdu: &Octets,
    ) -> Result<(), NoMemory>
        requires { 0 < length npdu.now }
        ensures { OnOk result (FollowsAlways (λ a. sends v npdu.now) out.old self.old out.new self.new) }
    {
        match self.way(v) {
            None => tell(out, Note::NoPath(v)),
            Some(way) => self.send_by(out, alloc, v, way, npdu),
        }
    }

    /// An NPDU goes this way, unless it is too long for the other end.
    fn send_by(
        &mut self,
        out: &mut Actions,
        alloc: Global,
        v: Vmac,
        by: Way,
        npdu: &Octets,
    ) -> Result<(), NoMemory>
        requires { 0 < length npdu.now }
        ensures { OnOk result ((b : Base) (L : Log) → Stands b out.old self.old L → way v L ≡ Some (way_of by)
            → Stands b out.new self.new (L ++ sends v npdu.now L)) }
    {
        let body = Body::Npdu(npdu.copy(alloc)?);
        let octets = message_octets(alloc, self.next, by.dest, body)?;
        let peer = self.links.get(by.link).peer;
        if takes_it(&peer, npdu.len(), octets.len()) {
            self.put(out, by.link, octets)
        } else {
            tell(out, Note::TooLong(v))
        }
    }

    /// A solicitation of an Advertisement goes by the path.
    pub(crate) fn solicit(
        &mut self,
        out: &mut Actions,
        alloc: Global,
        v: Vmac,
    ) -> Result<(), NoMemory>
        ensures { OnOk result (FollowsAlways (λ a. solicits v) out.old self.old out.new self.new) }
    {
        match self.way(v) {
            None => tell(out, Note::NoPath(v)),
            Some(way) => self.solicit_by(out, alloc, way),
        }
    }

    /// A solicitation of an Advertisement goes this way.
    fn solicit_by(&mut self, out: &mut Actions, alloc: Global, by: Way) -> Result<(), NoMemory>
        ensures { OnOk result (FollowsAlways (λ a. puts_own (way_of by) Body.AdvertisementSolicitation) out.old self.old out.new self.new) }
    {
        let body = Body::AdvertisementSolicitation;
        let octets = message_octets(alloc, self.next, by.dest, body)?;
        self.put(out, by.link, octets)
    }
}

/// Puts the question of a way, unless there is no room for it or one is under way.
fn ask(
    state: &mut State,
    out: &mut Actions,
    resolve: &mut Resolve,
    at: &EventContext,
    v: Vmac,
    by: Way,
) -> Result<(), NoMemory>
    ensures goes { OnOk result ((b : Base) (L : Log) → b.now ≡ at.now.time → way v L ≡ Some (way_of by)
        → BothStand b out.old state.old resolve.old L → BothStand b out.new state.new resolve.new (L ++ resolves b.made v L)) }
    ensures err { OnErr result (IsUnchanged resolve.old resolve.new) }
{
    let octets = message_octets(at.alloc, state.next, by.dest, Body::AddressResolution)?;
    out.push(Action::Put(by.link, octets))?;
    match resolve.ask(at.time, state.next, v) {
        Ok(()) => {
            state.count();
            Ok(())
        }
        Err(AskRefusal::Full { .. }) => {
            out.take_back();
            tell(out, Note::AsksFull)
        }
        Err(AskRefusal::Pending { .. }) => {
            out.take_back();
            tell(out, Note::AskPending(v))
        }
        Err(AskRefusal::NoMemory) => Err(NoMemory),
    }
}

/// A question for a VMAC's URIs goes by the path, unless there is no room for it or one is under way.
pub(crate) fn resolve_vmac(
    state: &mut State,
    out: &mut Actions,
    resolve: &mut Resolve,
    at: &EventContext,
    v: Vmac,
) -> Result<(), NoMemory>
    ensures goes { OnOk result ((b : Base) (L : Log) → b.now ≡ at.now.time
        → BothStand b out.old state.old resolve.old L → BothStand b out.new state.new resolve.new (L ++ resolves b.made v L)) }
    ensures err { OnErr result (IsUnchanged resolve.old resolve.new) }
{
    match state.way(v) {
        None => tell(out, Note::NoPath(v)),
        Some(way) => ask(state, out, resolve, at, v, way),
    }
}

/// The URI of this number, among those learnt of a VMAC that can be dialled; the greatest number stands for all past it.
pub(crate) fn learnt_uri(
    alloc: Global,
    resolve: &Resolve,
    v: Vmac,
    number: u64,
) -> Result<Option<Octets>, NoMemory>
    ensures { IfOk result (λ uri. (wait : ℕ) (L : Log) (n : ℕ) → min n 18446744073709551615 ≡ number → ResolveStands resolve.now wait (resolve_calls L)
        → uri ≡ slice_get (uris_to_dial v L) n) }
{
    match resolve.uris(v) {
        None => Ok(None),
        Some(text) => match uri_to_dial(text.as_slice(), number) {
            None => Ok(None),
            Some(uri) => Ok(Some(Octets::from_vec(Vec::from_slice(alloc, uri)?))),
        },
    }
}

/// A slot is claimed for a VMAC, and the first URI is dialled that can be, where there is one.
fn dial_first(
    state: &mut State,
    out: &mut Actions,
    resolve: &Resolve,
    at: &EventContext,
    v: Vmac,
) -> Result<(), NoMemory>
    ensures { OnOk result ((b : Base) (L : Log) (text : List ℕ) (free : ℕ) → b.made.limits ≡ at.now.limits.now → b.now ≡ at.now.time
        → established v L ≡ None → learnt v L ≡ Some text → free_slot L ≡ Some free
        → BothStand b out.old state.old resolve.now L → BothStand b out.new state.new resolve.now (L ++ directs v L)) }
{
    match learnt_uri(at.alloc, resolve, v, 0)? {
        None => tell(out, Note::NoDirect(v)),
        Some(uri) => match state.direct.claim(Some(v)) {
            Ok(k) => {
                state.direct_touched = true;
                state.links.claim(k);
                state.dial(out, at.limits.times, at.time, LinkName::Direct(k), uri)
            }
            Err(_) => tell(out, Note::SlotsFull),
        },
    }
}

/// A direct connection to a VMAC is wanted: nothing is done where one is established; else URIs have to be learnt, then
/// a slot free, then one of the URIs such that it can be dialled.
pub(crate) fn connect_to(
    state: &mut State,
    out: &mut Actions,
    resolve: &Resolve,
    at: &EventContext,
    v: Vmac,
) -> Result<(), NoMemory>
    ensures { OnOk result ((b : Base) (L : Log) → b.made.limits ≡ at.now.limits.now → b.now ≡ at.now.time
        → BothStand b out.old state.old resolve.now L → BothStand b out.new state.new resolve.now (L ++ directs v L)) }
{
    match state.direct.established(v) {
        Some(_) => Ok(()),
        None => match resolve.uris(v) {
            None => tell(out, Note::NoUris(v)),
            Some(_) => match state.direct.free() {
                None => tell(out, Note::SlotsFull),
                Some(_) => dial_first(state, out, resolve, at, v),
            },
        },
    }
}
