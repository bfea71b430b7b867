//! Laws of the definition, each carried by a function that does nothing.
ghost use Rattle.std.specs.Prelude.{◌≡◌, ℕ, ◌+◌, ◌*◌, ◌≤◌, min, true, false, List, [], ◌∷◌, ◌++◌};
ghost use Rattle.std.specs.List.{list_any, AllByRecursion};
ghost use Rattle.bsc_connector.specs.declared.side.Side.{Side};
ghost use Rattle.bsc_connector.specs.declared.hub_use.HubUse.{HubUse};
ghost use Rattle.bsc_connector.specs.declared.event.ConnectorEvent.{ConnectorEvent};
ghost use Rattle.bsc_connector.specs.declared.event.HubEvent.{HubEvent};
ghost use Rattle.bsc_connector.specs.declared.waits.Waits.{Waits};
ghost use Rattle.bsc_connector.specs.declared.connector.Connector.{Connector};
ghost use Rattle.bsc_connector.specs.Sides.{hub_use, is_up, is_tried, is_under_way, is_start, connects, fails, wait};
ghost use Rattle.bsc_connector.specs.Steps.{dials_primary, dials_failover};
ghost use Rattle.bsc_connector.specs.Standing.{ConnectorStands};

/// While the primary hub is connected, it is the hub in use.
pub fn the_primary_is_used()
    ensures { (E : List HubEvent) → is_up Side.Primary E ≡ true → hub_use E ≡ HubUse.Primary }
{}

/// Once the primary hub accepted, it is connected until it is lost, and no failover is dialled before.
pub fn no_failover_beside_the_primary()
    ensures connected { (E F : List HubEvent) (now : ℕ) → list_any (λ e. fails Side.Primary e.event) F ≡ false
        → let accept : HubEvent = record { now = now; event = ConnectorEvent.Connected Side.Primary } in
        is_up Side.Primary ((E ++ accept ∷ []) ++ F) ≡ true }
    ensures dials { (w : Waits) (E : List HubEvent) (e : HubEvent) → is_up Side.Primary E ≡ true
        → fails Side.Primary e.event ≡ false → dials_failover w E e ≡ false }
{}

/// The wait after a failure is the least; it doubles with each failure in a row, up to the greatest, and never more.
pub fn waits_double()
    ensures first { (w : Waits) → w.least ≤ w.greatest → wait w 1 ≡ w.least }
    ensures doubled { (w : Waits) (n : ℕ) → wait w (n + 1 + 1) ≡ min w.greatest (2 * wait w (n + 1)) }
    ensures greatest { (w : Waits) (n : ℕ) → wait w n ≤ w.greatest }
    ensures least { (w : Waits) (n : ℕ) → w.least ≤ w.greatest → w.least ≤ wait w n }
{}

/// A side that is connected, or to which an attempt is under way, is not dialled. (A node starts once.)
pub fn a_side_that_is_tried_is_not_dialled()
    ensures primary { (c : Connector) (w : Waits) (E : List HubEvent) (e : HubEvent) → ConnectorStands c w E
        → (is_start e.event ≡ true → is_tried w Side.Primary E ≡ false)
        → dials_primary w E e ≡ true
        → (is_up Side.Primary E ≡ false) × (is_under_way w Side.Primary E ≡ false) }
    ensures failover { (c : Connector) (w : Waits) (E : List HubEvent) (e : HubEvent) → ConnectorStands c w E
        → dials_failover w E e ≡ true → (is_up Side.Failover E ≡ false) × (is_under_way w Side.Failover E ≡ false) }
{}

/// Between two dials of the primary hub lies the least wait at least, and so it does between two dials of the failover
/// with no accept of the primary hub between them. (After one the failover is dialled as soon as the primary is lost.)
pub fn dials_keep_apart()
    ensures primary { (w : Waits) (E F : List HubEvent) (d e : HubEvent) → w.least ≤ w.greatest
        → dials_primary w E d ≡ true → AllByRecursion (λ x. d.now ≤ x.now) F
        → is_start e.event ≡ false → dials_primary w ((E ++ d ∷ []) ++ F) e ≡ true → d.now + w.least ≤ e.now }
    ensures failover { (c : Connector) (w : Waits) (E F : List HubEvent) (d e : HubEvent) → ConnectorStands c w E
        → w.least ≤ w.greatest → dials_failover w E d ≡ true → AllByRecursion (λ x. d.now ≤ x.now) F
        → list_any (λ x. connects Side.Primary x.event) F ≡ false
        → dials_failover w ((E ++ d ∷ []) ++ F) e ≡ true → d.now + w.least ≤ e.now }
{}
