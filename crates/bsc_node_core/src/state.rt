//! What a node keeps, beside its settings and its address resolution.
ghost use Rattle.std.specs.Prelude.{◌≡◌, true, IfOk};
ghost use Rattle.bsc_node_core.specs.Spares.{Agrees, KeepsSame};

use crate::links::Links;
use crate::touched::Touched;
use bsc_connector::{Connector, Side};
use bsc_direct::Direct;
use bsc_octets::{Identity, NoMemory};
use std::alloc::Global;

/// What a node keeps, beside its settings and its address resolution.
#[derive(Drop)]
pub(crate) struct State {
    /// Who the node is, with its newest VMAC.
    pub(crate) own: Identity,
    /// The Message ID of its next message.
    pub(crate) next: u16,
    /// Whether it is to end.
    pub(crate) finishing: bool,
    /// How often it renewed its VMAC since a hub accepted it, up to `RENEWALS`.
    pub(crate) renewals: u8,
    /// The side of the newest message of a hub.
    pub(crate) newest_hub: Option<Side>,
    /// Whether the failover was dropped since its link began.
    pub(crate) dropped: bool,
    pub(crate) connector: Connector,
    pub(crate) links: Links,
    pub(crate) direct: Direct,
    /// Whether `direct` was touched since an event began.
    pub(crate) direct_touched: bool,
}

impl State {
    /// The same in memory of its own.
    pub(crate) fn copy(&self, alloc: Global) -> Result<State, NoMemory>
        ensures { IfOk result (λ s. KeepsSame self.now s) }
    {
        Ok(State {
            own: self.own,
            next: self.next,
            finishing: self.finishing,
            renewals: self.renewals,
            newest_hub: self.newest_hub,
            dropped: self.dropped,
            connector: self.connector,
            links: self.links.copy(alloc)?,
            direct: self.direct.copy(alloc)?,
            direct_touched: self.direct_touched,
        })
    }

    /// Becomes the same as a state of which all that wasn't touched is the same already. No memory is taken.
    pub(crate) fn catch_up(&mut self, state: &State)
        ensures { Agrees self.old state.now → KeepsSame state.now self.new }
    {
        self.own = state.own;
        self.next = state.next;
        self.finishing = state.finishing;
        self.renewals = state.renewals;
        self.newest_hub = state.newest_hub;
        self.dropped = state.dropped;
        self.connector = state.connector;
        self.links.catch_up(&state.links);
        if state.direct_touched {
            self.direct.copy_from(&state.direct);
        }
    }

    /// Of the links and slots nothing was touched.
    pub(crate) fn touch_nothing(&mut self)
        ensures { KeepsSame self.old self.new }
    {
        self.links.touched = Touched::Nothing;
        self.direct_touched = false;
    }

    /// It isn't known which links and slots were touched.
    pub(crate) fn touch_all(&mut self)
        ensures same { KeepsSame self.old self.new }
        ensures links { self.new.links.touched ≡ Touched.Many }
        ensures slots { self.new.direct_touched ≡ true }
    {
        self.links.touched = Touched::Many;
        self.direct_touched = true;
    }
}
