//! The rules of a connector read a second time: another form than the connector's.
use bsc_connector::{ConnectorEvent, ConnectorStep, HubUse, Side, Waits};

/// What a reader of the rules would note down of a side.
#[derive(Clone, Copy)]
struct Noted {
    connected: bool,
    under_way: bool,
    failures: u32,
    due: Option<u64>,
}

const NOTHING: Noted = Noted {
    connected: false,
    under_way: false,
    failures: 0,
    due: None,
};

/// What a reader of the rules would note down.
#[derive(Clone, Copy)]
pub struct Reading {
    waits: Waits,
    primary: Noted,
    failover: Noted,
}

/// The wait after so many failures in a row.
fn wait(waits: &Waits, failures: u32) -> u64 {
    let mut wait = u64::from(waits.least);
    for _ in 1..failures {
        wait = wait.saturating_mul(2);
    }
    wait.min(u64::from(waits.greatest))
}

fn fail(waits: &Waits, now: u64, side: &mut Noted) {
    side.connected = false;
    side.under_way = false;
    side.failures = side.failures.saturating_add(1);
    side.due = Some(now.saturating_add(wait(waits, side.failures)));
}

fn dial(side: &mut Noted) -> bool {
    side.under_way = true;
    side.due = None;
    true
}

fn is_due(side: &Noted, now: u64) -> bool {
    match side.due {
        Some(due) => now >= due,
        None => false,
    }
}

impl Reading {
    pub fn start(waits: Waits) -> Reading {
        Reading {
            waits,
            primary: NOTHING,
            failover: NOTHING,
        }
    }

    pub fn hub_use(&self) -> HubUse {
        match (self.primary.connected, self.failover.connected) {
            (true, _) => HubUse::Primary,
            (false, true) => HubUse::Failover,
            (false, false) => HubUse::NoHub,
        }
    }

    /// What is done at a time when this is told, where it may be.
    pub fn tell(&mut self, now: u64, event: ConnectorEvent) -> Option<ConnectorStep> {
        if self.may_come(event) {
            Some(self.event(now, event))
        } else {
            None
        }
    }

    /// Whether this may be told.
    fn may_come(&self, event: ConnectorEvent) -> bool {
        match event {
            ConnectorEvent::Connected(Side::Primary) | ConnectorEvent::Failed(Side::Primary) => {
                self.primary.under_way
            }
            ConnectorEvent::Connected(Side::Failover) | ConnectorEvent::Failed(Side::Failover) => {
                self.failover.under_way
            }
            ConnectorEvent::Lost(Side::Primary) => self.primary.connected,
            ConnectorEvent::Lost(Side::Failover) => self.failover.connected,
            ConnectorEvent::Start | ConnectorEvent::Tick => true,
        }
    }

    /// What is done at a time when this is told.
    fn event(&mut self, now: u64, event: ConnectorEvent) -> ConnectorStep {
        let mut step = ConnectorStep {
            dial_primary: false,
            dial_failover: false,
            drop_failover: false,
        };
        match event {
            ConnectorEvent::Start => step.dial_primary = dial(&mut self.primary),
            ConnectorEvent::Connected(Side::Primary) => {
                step.drop_failover = self.failover.connected || self.failover.under_way;
                self.failover = NOTHING;
                self.primary = NOTHING;
                self.primary.connected = true;
            }
            ConnectorEvent::Connected(Side::Failover) => {
                self.failover = NOTHING;
                self.failover.connected = true;
            }
            ConnectorEvent::Failed(Side::Failover) | ConnectorEvent::Lost(Side::Failover) => {
                fail(&self.waits, now, &mut self.failover);
            }
            ConnectorEvent::Failed(Side::Primary) | ConnectorEvent::Lost(Side::Primary) => {
                fail(&self.waits, now, &mut self.primary);
                let idle = !self.failover.connected
                    && !self.failover.under_way
                    && self.failover.due.is_none();
                if self.waits.failover && idle {
                    step.dial_failover = dial(&mut self.failover);
                }
            }
            ConnectorEvent::Tick => {
                if is_due(&self.failover, now) && !self.primary.connected {
                    step.dial_failover = dial(&mut self.failover);
                }
                if is_due(&self.primary, now) {
                    step.dial_primary = dial(&mut self.primary);
                }
            }
        }
        step
    }
}
