//! The connector and its calls.
ghost use Rattle.std.specs.Prelude.{◌≡◌, ◌<◌, ◌^◌, List, []};
ghost use Rattle.bsc_connector.specs.declared.waits.Waits.{Waits};
ghost use Rattle.bsc_connector.specs.declared.event.HubEvent.{HubEvent};
ghost use Rattle.bsc_connector.specs.Sides.{hub_use, is_under_way, is_up};
ghost use Rattle.bsc_connector.specs.Kept.{says_under_way, says_up};
ghost use Rattle.bsc_connector.specs.Left.{LeavesConnector};
ghost use Rattle.bsc_connector.specs.Standing.{ConnectorStands, ConnectorAnswers, MayCome, attempt_at};

use crate::event::ConnectorEvent;
use crate::hub_use::HubUse;
use crate::side::Side;
use crate::side_state::{Attempt, SideState};
use crate::sides::{dropped, failover_after, primary_after, step_of};
use crate::step::ConnectorStep;
use crate::waits::Waits;

/// The hub connector of a node: which hub it uses, and when it dials one.
///
/// It begins with `Start`. `Failed` may come of a side that is under way, from its dial to its `Connected`, its
/// `Failed`, or until the failover is dropped; and `Lost` of a side that is connected.
#[derive(Clone, Copy, Debug)]
pub struct Connector {
    pub(crate) waits: Waits,
    pub(crate) primary: SideState,
    pub(crate) failover: SideState,
}

impl Connector {
    /// A connector that was told nothing yet: whether there is a failover, and the least and the greatest wait
    /// between two attempts at a side, in milliseconds.
    pub fn make(failover: bool, least_wait: u32, greatest_wait: u32) -> Connector
        ensures { ConnectorStands result (record { failover = failover; least = least_wait; greatest = greatest_wait }) [] }
    {
        let waits = Waits {
            failover,
            least: least_wait,
            greatest: greatest_wait,
        };
        Connector {
            waits,
            primary: dropped(&waits),
            failover: dropped(&waits),
        }
    }

    /// Tells the connector something.
    pub fn event(&mut self, now: u64, event: ConnectorEvent) -> ConnectorStep
        requires time { now < 2 ^ 62 }
        requires order { MayCome self.old event }
        ensures step { ConnectorAnswers self.old self.new (record { now = now; event = event }) result }
        ensures left { LeavesConnector self.old event result self.new }
    {
        let step = step_of(
            &self.waits,
            now,
            self.primary.attempt,
            self.failover.attempt,
            event,
        );
        self.primary = primary_after(&self.waits, now, self.primary, event);
        self.failover = failover_after(&self.waits, now, self.failover, event);
        step
    }

    /// The hub in use.
    pub fn hub_use(&self) -> HubUse
        ensures { (w : Waits) (E : List HubEvent) → ConnectorStands self.now w E → result ≡ hub_use E }
    {
        if self.primary.attempt == Attempt::Up {
            HubUse::Primary
        } else if self.failover.attempt == Attempt::Up {
            HubUse::Failover
        } else {
            HubUse::NoHub
        }
    }

    /// Whether an attempt at a side is under way.
    pub fn is_under_way(&self, side: Side) -> bool
        ensures told { (w : Waits) (E : List HubEvent) → ConnectorStands self.now w E → result ≡ is_under_way w side E }
        ensures kept { result ≡ says_under_way (attempt_at self.now side) }
    {
        match side {
            Side::Primary => self.primary.attempt == Attempt::UnderWay,
            Side::Failover => self.failover.attempt == Attempt::UnderWay,
        }
    }

    /// Whether the hub of a side is connected.
    pub fn is_up(&self, side: Side) -> bool
        ensures told { (w : Waits) (E : List HubEvent) → ConnectorStands self.now w E → result ≡ is_up side E }
        ensures kept { result ≡ says_up (attempt_at self.now side) }
    {
        match side {
            Side::Primary => self.primary.attempt == Attempt::Up,
            Side::Failover => self.failover.attempt == Attempt::Up,
        }
    }
}
