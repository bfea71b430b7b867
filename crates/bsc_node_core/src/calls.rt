//! The calls of a node.
ghost use Rattle.std.specs.Prelude.{◌≡◌, ◌<◌, ◌^◌, ◌++◌, [], IfOk, IfSome, OnOk, OnErr};
ghost use Rattle.std.specs.Str.{IsUtf8};
ghost use Rattle.bsc_resolve.specs.Standing.{IsUnchanged as IsUnchangedResolve};
ghost use Rattle.bsc_node.specs.Logs.{Log};
ghost use Rattle.bsc_node.specs.Events.{follows};
ghost use Rattle.bsc_node_core.specs.Events.{HasOctets, MayFollow};
ghost use Rattle.bsc_node_core.specs.Standing.{Base};
ghost use Rattle.bsc_node_core.specs.Resolving.{BothStand};
ghost use Rattle.bsc_node_core.specs.Resting.{IsAtRestFor};
ghost use Rattle.bsc_node_core.specs.Node.{NodeAnswers, IsUnchanged, NodeStands};

use crate::actions::Actions;
use crate::event_context::EventContext;
use crate::failing::fail_dial;
use crate::following::{hear, pass_time};
use crate::links::Links;
use crate::node::Node;
use crate::requesting::{connect_to, resolve_vmac};
use crate::state::State;
use bsc_accept::Closing;
use bsc_connector::{Connector, ConnectorEvent};
use bsc_direct::Direct;
use bsc_node::{NodeEvent, NodeLimits};
use bsc_octets::{Identity, NoMemory};
use bsc_resolve::Resolve;
use std::alloc::Global;

impl Node {
    /// A node to which nothing came yet. What it keeps of its links and slots takes memory here, twice over, and later
    /// no more.
    pub fn make(alloc: Global, own: Identity, limits: NodeLimits) -> Result<Node, NoMemory>
        requires { IfSome limits.uris IsUtf8 }
        ensures { IfOk result (λ node. NodeStands node (record { own = own; limits = limits }) []) }
    {
        let connector = Connector::make(
            limits.failover.is_some(),
            limits.least_wait,
            limits.greatest_wait,
        );
        let resolve = Resolve::make(alloc, limits.times.connect_wait)?;
        let state = State {
            own,
            next: 1,
            finishing: false,
            renewals: 0,
            newest_hub: None,
            dropped: false,
            connector,
            links: Links::make(alloc)?,
            direct: Direct::make(alloc)?,
            direct_touched: false,
        };
        let spare = state.copy(alloc)?;
        Ok(Node {
            limits,
            state,
            spare,
            resolve,
        })
    }

    /// What follows from an event, once it came.
    fn follow(
        &mut self,
        out: &mut Actions,
        alloc: Global,
        now: u64,
        event: &NodeEvent,
    ) -> Result<(), NoMemory>
        requires time { now < 2 ^ 62 }
        requires octets { HasOctets event.now }
        ensures limits { self.new.limits ≡ self.old.limits }
        ensures spare { self.new.spare ≡ self.old.spare }
        ensures goes { OnOk result ((b : Base) (L : Log) → IsAtRestFor self.old.limits now b → MayFollow event.now L
            → BothStand b out.old self.old.state self.old.resolve L → BothStand b out.new self.new.state self.new.resolve (L ++ follows b.made event.now L)) }
        ensures err { OnErr result (IsUnchangedResolve self.old.resolve self.new.resolve) }
    {
        let at = EventContext {
            alloc,
            limits: &self.limits,
            time: now,
        };
        let state = &mut self.state;
        let resolve = &mut self.resolve;
        match event {
            NodeEvent::Start => { state.tell_connector(out, &at, ConnectorEvent::Start) }
            NodeEvent::Opened(name) => state.open(out, &at, *name),
            NodeEvent::DialFailed(name) => { fail_dial(state, out, resolve, &at, *name) }
            NodeEvent::Arrived => state.arrive(out, &at),
            NodeEvent::Came(name, octets) => { hear(state, out, resolve, &at, *name, octets) }
            NodeEvent::CameText(name) => { state.close_link(out, &at, *name, Closing::NOT_BINARY) }
            NodeEvent::Lost(name) => state.end(out, &at, *name),
            NodeEvent::Tick => pass_time(state, out, resolve, &at),
            NodeEvent::Send { dest, npdu } => state.send(out, alloc, *dest, npdu),
            NodeEvent::Resolve(v) => resolve_vmac(state, out, resolve, &at, *v),
            NodeEvent::DirectTo(v) => connect_to(state, out, resolve, &at, *v),
            NodeEvent::Solicit(v) => state.solicit(out, alloc, *v),
            NodeEvent::Finish => state.finish(out, &at),
            NodeEvent::Random(_) => state.renew(out, &at),
            NodeEvent::NoRandom => state.keep_vmac(out, &at),
        }
    }

    /// Something comes to the node, at this time in milliseconds: what it does.
    ///
    /// Memory is taken for what is done alone. After `NoMemory` the node is as it was, and the same event may be given
    /// again.
    pub fn event(&mut self, alloc: Global, now: u64, event: &NodeEvent) -> Result<Actions, NoMemory>
        requires time { now < 2 ^ 62 }
        requires octets { HasOctets event.now }
        ensures ok { IfOk result (λ actions. NodeAnswers self.old self.new (record { now = now; event = event.now }) actions) }
        ensures err { OnErr result (IsUnchanged self.old self.new) }
    {
        self.spare.catch_up(&self.state);
        self.state.touch_nothing();
        let mut out = Actions::new(alloc);
        self.state.record_event(event);
        match self.follow(&mut out, alloc, now, event) {
            Ok(()) => Ok(out),
            Err(NoMemory) => {
                self.spare.touch_all();
                self.state.catch_up(&self.spare);
                Err(NoMemory)
            }
        }
    }
}
