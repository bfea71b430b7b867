//! How what is kept of the two sides goes on, and the step that follows from it.
ghost use Rattle.std.specs.Prelude.{◌≡◌, ◌<◌, ◌*◌, ◌^◌, min, if◌then◌else◌};
ghost use Rattle.bsc_connector.specs.Steps.{has_come};
ghost use Rattle.bsc_connector.specs.Kept.{says_due, accepted, dropped, failed, ticked, started, begun, primary_after, failover_after, step_kept};

use crate::event::ConnectorEvent;
use crate::side::Side;
use crate::side_state::{Attempt, SideState};
use crate::step::ConnectorStep;
use crate::waits::Waits;

/// The hub of a side accepted.
fn accepted(waits: &Waits) -> SideState
    ensures { result ≡ accepted waits.now }
{
    SideState {
        attempt: Attempt::Up,
        next_wait: waits.greatest.min(waits.least),
    }
}

/// The failover is idle, and its failures are forgotten.
pub(crate) fn dropped(waits: &Waits) -> SideState
    ensures { result ≡ dropped waits.now }
{
    SideState {
        attempt: Attempt::Idle,
        next_wait: waits.greatest.min(waits.least),
    }
}

/// Twice the wait, up to the greatest.
fn doubled(wait: u32, greatest: u32) -> u32
    ensures { result ≡ min greatest (2 * wait) }
{
    if wait > greatest / 2 {
        greatest
    } else {
        2 * wait
    }
}

/// An attempt at a side failed, or its connection ended.
fn failed(waits: &Waits, now: u64, side: SideState) -> SideState
    requires { now < 2 ^ 62 }
    ensures { result ≡ failed waits.now now side }
{
    SideState {
        attempt: Attempt::Waiting {
            due: now + u64::from(side.next_wait),
        },
        next_wait: doubled(side.next_wait, waits.greatest),
    }
}

/// The next attempt is made once its time has come.
fn ticked(now: u64, side: SideState) -> SideState
    ensures { result ≡ ticked now side }
{
    match side.attempt {
        Attempt::Waiting { due } if due <= now => SideState {
            attempt: Attempt::UnderWay,
            next_wait: side.next_wait,
        },
        _ => side,
    }
}

/// The node starts: a side that isn't up is dialled.
fn started(side: SideState) -> SideState
    ensures { result ≡ started side }
{
    match side.attempt {
        Attempt::Idle | Attempt::Waiting { .. } => SideState {
            attempt: Attempt::UnderWay,
            next_wait: side.next_wait,
        },
        Attempt::UnderWay | Attempt::Up => side,
    }
}

/// An idle side is dialled.
fn begun(side: SideState) -> SideState
    ensures { result ≡ begun side }
{
    match side.attempt {
        Attempt::Idle => SideState {
            attempt: Attempt::UnderWay,
            next_wait: side.next_wait,
        },
        _ => side,
    }
}

/// What is kept of the primary hub, once this is told.
pub(crate) fn primary_after(
    waits: &Waits,
    now: u64,
    side: SideState,
    event: ConnectorEvent,
) -> SideState
    requires { now < 2 ^ 62 }
    ensures { result ≡ primary_after waits.now now side event }
{
    match event {
        ConnectorEvent::Start => started(side),
        ConnectorEvent::Connected(Side::Primary) => accepted(waits),
        ConnectorEvent::Failed(Side::Primary) => failed(waits, now, side),
        ConnectorEvent::Lost(Side::Primary) => failed(waits, now, side),
        ConnectorEvent::Tick => ticked(now, side),
        ConnectorEvent::Connected(Side::Failover) => side,
        ConnectorEvent::Failed(Side::Failover) => side,
        ConnectorEvent::Lost(Side::Failover) => side,
    }
}

/// The failover, where it is given, is dialled in the step in which the primary hub fails.
fn in_trouble(waits: &Waits, side: SideState) -> SideState
    ensures { result ≡ (if waits.now.failover then begun side else side) }
{
    if waits.failover { begun(side) } else { side }
}

/// What is kept of the failover, once this is told.
pub(crate) fn failover_after(
    waits: &Waits,
    now: u64,
    side: SideState,
    event: ConnectorEvent,
) -> SideState
    requires { now < 2 ^ 62 }
    ensures { result ≡ failover_after waits.now now side event }
{
    match event {
        ConnectorEvent::Start => side,
        ConnectorEvent::Connected(Side::Primary) => dropped(waits),
        ConnectorEvent::Failed(Side::Primary) => in_trouble(waits, side),
        ConnectorEvent::Lost(Side::Primary) => in_trouble(waits, side),
        ConnectorEvent::Tick => ticked(now, side),
        ConnectorEvent::Connected(Side::Failover) => accepted(waits),
        ConnectorEvent::Failed(Side::Failover) => failed(waits, now, side),
        ConnectorEvent::Lost(Side::Failover) => failed(waits, now, side),
    }
}

/// Whether the next attempt is due.
fn is_due(now: u64, attempt: Attempt) -> bool
    ensures { result ≡ has_come now (says_due attempt) }
{
    match attempt {
        Attempt::Waiting { due } => due <= now,
        _ => false,
    }
}

/// The step, by what is kept.
pub(crate) fn step_of(
    waits: &Waits,
    now: u64,
    p: Attempt,
    f: Attempt,
    event: ConnectorEvent,
) -> ConnectorStep
    ensures { result ≡ step_kept waits.now now p f event }
{
    let mut step = ConnectorStep {
        dial_primary: false,
        dial_failover: false,
        drop_failover: false,
    };
    match event {
        ConnectorEvent::Start => step.dial_primary = true,
        ConnectorEvent::Connected(Side::Primary) => {
            step.drop_failover = f == Attempt::Up || f == Attempt::UnderWay;
        }
        ConnectorEvent::Failed(Side::Primary) | ConnectorEvent::Lost(Side::Primary) => {
            step.dial_failover = waits.failover && f == Attempt::Idle;
        }
        ConnectorEvent::Tick => {
            step.dial_primary = is_due(now, p);
            step.dial_failover = is_due(now, f) && p != Attempt::Up;
        }
        _ => {}
    }
    step
}
