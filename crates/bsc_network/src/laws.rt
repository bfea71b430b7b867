//! The numbers of a network, each carried by a function that does nothing.
ghost use Rattle.std.specs.Prelude.{◌≡◌, ◌^◌, ℕ, Bool, false};
ghost use Rattle.bsc_connector.specs.Sides.{wait};
ghost use Rattle.bsc_network.specs.declared.limits.TheConstants.{LINKS, NODES, STEPS};
ghost use Rattle.bsc_network.specs.Settings.{settings};

/// A network has 64 nodes and 4,096 links at most, and 2^63 steps are made in it at most.
pub fn a_network_has_64_nodes()
    ensures nodes { NODES ≡ 64 }
    ensures links { LINKS ≡ 4096 }
    ensures steps { STEPS ≡ 2 ^ 63 }
{}

/// Its nodes wait 2,000 milliseconds after one failure of a hub, and 30,000 at most: so long after five in a row.
pub fn nodes_wait_2_to_30_seconds()
    ensures least { (hubs number : ℕ) (direct : Bool) → let s = settings hubs number direct in
        wait (record { failover = false; least = s.least_wait; greatest = s.greatest_wait }) 1 ≡ 2000 }
    ensures greatest { (hubs number : ℕ) (direct : Bool) → let s = settings hubs number direct in
        wait (record { failover = false; least = s.least_wait; greatest = s.greatest_wait }) 5 ≡ 30000 }
{}
