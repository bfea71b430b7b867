//! Connectors against a second reading of the rules.
ghost use Rattle.std.specs.Prelude.{◌≡◌, ◌<◌, ◌^◌, IsTrue};
ghost use Rattle.bsc_connector.specs.Standing.{MayCome};

mod reading;

use ConnectorEvent::{Connected, Failed, Lost, Start, Tick};
use Side::{Failover, Primary};
use bsc_connector::{Connector, ConnectorEvent, ConnectorStep, Side, Waits};
use reading::Reading;

/// Whether this may be told to a connector.
fn may_come(connector: &Connector, event: ConnectorEvent) -> bool
    ensures { IsTrue result → MayCome connector.now event }
{
    match event {
        Start | Tick => true,
        Connected(side) | Failed(side) => connector.is_under_way(side),
        Lost(side) => connector.is_up(side),
    }
}

/// The step of a connector that is told something, where it may be told that.
fn tell(connector: &mut Connector, now: u64, event: ConnectorEvent) -> Option<ConnectorStep>
    requires { now < 2 ^ 62 }
{
    if may_come(connector, event) {
        Some(connector.event(now, event))
    } else {
        None
    }
}

/// The events of a course, round and round.
const EVENTS: [ConnectorEvent; 7] = [
    Connected(Primary),
    Connected(Failover),
    Failed(Primary),
    Failed(Failover),
    Lost(Primary),
    Lost(Failover),
    Tick,
];

/// What a connector is told at a turn of a course: the start, four events in this order, and a tick behind each and at
/// the end.
fn event_at(order: u32, turn: u32) -> ConnectorEvent {
    let k = match turn {
        0 => return Start,
        1 => order,
        3 => order / 7,
        5 => order / 49,
        7 => order / 343,
        _ => return Tick,
    };
    EVENTS[(k % 7) as usize]
}

/// Every order of four events, with a failover and without, with 70 ms between two turns.
#[test]
fn every_order_of_four_events_gives_the_steps_of_the_second_reading(rt: HostRuntime) {
    for failover in [true, false] {
        for order in 0..2_401 {
            let waits = Waits {
                failover,
                least: 100,
                greatest: 300,
            };
            let mut connector = Connector::make(failover, waits.least, waits.greatest);
            let mut reading = Reading::start(waits);
            for turn in 0..12u32 {
                let now = 70 * u64::from(turn);
                let event = event_at(order, turn);
                let same = tell(&mut connector, now, event) == reading.tell(now, event);
                assert!(rt;
                    same && connector.hub_use() == reading.hub_use(),
                    "order {order}"
                );
            }
        }
    }
}

/// A connector that was started, and whose primary hub fails at once: the failover is dialled, where there is one.
fn start_badly(failover: bool) -> ConnectorStep
    ensures { result.dial_failover ≡ failover }
{
    let mut connector = Connector::make(failover, 2_000, 30_000);
    let _start = connector.event(0, Start);
    connector.event(100, Failed(Primary))
}
