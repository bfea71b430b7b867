//! What follows where a dial failed.
ghost use Rattle.std.specs.Prelude.{◌≡◌, ◌<◌, ◌∷◌, ◌++◌, [], List, true, IfOk, OnOk};
ghost use Rattle.bsc_node.specs.declared.action.Action.{Action};
ghost use Rattle.bsc_node.specs.declared.link_name.LinkName.{LinkName};
ghost use Rattle.bsc_node.specs.declared.note.Note.{Note};
ghost use Rattle.bsc_node.specs.Logs.{Log, in_order, nothing, tells, where_found};
ghost use Rattle.bsc_node.specs.Ways.{next_uri, wanted};
ghost use Rattle.bsc_node.specs.Ending.{ends};
ghost use Rattle.bsc_node.specs.Events.{dial_fails, tries_next};
ghost use Rattle.bsc_node_core.specs.Tables.{is_name};
ghost use Rattle.bsc_node_core.specs.Standing.{Base, Stands};
ghost use Rattle.bsc_node_core.specs.Resolving.{BothStand};
ghost use Rattle.bsc_node_core.specs.Resting.{IsAtRest};

use crate::acting::tell;
use crate::actions::Actions;
use crate::event_context::EventContext;
use crate::requesting::learnt_uri;
use crate::state::State;
use bsc_direct::SLOTS;
use bsc_node::{LinkName, Note};
use bsc_octets::{NoMemory, Octets, Vmac};
use bsc_resolve::Resolve;
use std::alloc::Global;

/// The next URI of a slot: of those learnt by now of the VMAC that it was dialled for.
fn next_uri(
    state: &State,
    resolve: &Resolve,
    alloc: Global,
    k: u32,
    whom: Option<Vmac>,
) -> Result<Option<Octets>, NoMemory>
    ensures { IfOk result (λ uri. (b : Base) (out : List Action) (L : Log) → k < SLOTS → wanted k L ≡ whom
        → BothStand b out state.now resolve.now L → uri ≡ next_uri k L) }
{
    match whom {
        None => Ok(None),
        Some(v) => {
            let tries = state.links.get(LinkName::Direct(k)).tries;
            learnt_uri(alloc, resolve, v, tries)
        }
    }
}

/// Tells that no direct connection came about, where one was wanted.
fn tell_none(out: &mut Actions, k: u32, whom: Option<Vmac>) -> Result<(), NoMemory>
    ensures { OnOk result ((b : Base) (s : State) (L : Log) → wanted k L ≡ whom → Stands b out.old s L
        → Stands b out.new s (L ++ where_found (wanted k) (λ v. tells (Note.NoDirect v)) nothing L)) }
{
    match whom {
        Some(v) => tell(out, Note::NoDirect(v)),
        None => Ok(()),
    }
}

/// No URI of a slot is left: the slot is released, and that no direct connection came about is told.
fn give_up(
    state: &mut State,
    out: &mut Actions,
    at: &EventContext,
    k: u32,
    whom: Option<Vmac>,
) -> Result<(), NoMemory>
    ensures { OnOk result ((b : Base) (L : Log) → IsAtRest at.now b → wanted k L ≡ whom → Stands b out.old state.old L
        → Stands b out.new state.new (L ++ in_order (where_found (wanted k) (λ v. tells (Note.NoDirect v)) nothing ∷ ends b.made (LinkName.Direct k) ∷ []) L)) }
{
    tell_none(out, k, whom)?;
    state.end(out, at, LinkName::Direct(k))
}

/// A slot whose dial failed dials the next URI, or is released.
fn try_next(
    state: &mut State,
    out: &mut Actions,
    resolve: &Resolve,
    at: &EventContext,
    k: u32,
) -> Result<(), NoMemory>
    ensures { OnOk result ((b : Base) (L : Log) → IsAtRest at.now b → k < SLOTS
        → BothStand b out.old state.old resolve.now L → BothStand b out.new state.new resolve.now (L ++ tries_next b.made k L)) }
{
    let whom = state.direct.wanted(k);
    match next_uri(state, resolve, at.alloc, k, whom)? {
        Some(uri) => state.dial(out, at.limits.times, at.time, LinkName::Direct(k), uri),
        None => give_up(state, out, at, k, whom),
    }
}

/// A dial failed: a hub connection has failed, a slot goes on with the next URI.
pub(crate) fn fail_dial(
    state: &mut State,
    out: &mut Actions,
    resolve: &Resolve,
    at: &EventContext,
    name: LinkName,
) -> Result<(), NoMemory>
    ensures { OnOk result ((b : Base) (L : Log) → IsAtRest at.now b → is_name name ≡ true
        → BothStand b out.old state.old resolve.now L → BothStand b out.new state.new resolve.now (L ++ dial_fails b.made name L)) }
{
    match name {
        LinkName::Hub(_) => state.end(out, at, name),
        LinkName::Direct(k) => try_next(state, out, resolve, at, k),
    }
}
