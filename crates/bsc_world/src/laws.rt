//! What holds of the hub's side of a link, carried by a function that does nothing.
ghost use Rattle.std.specs.Prelude.{ℕ, List};
ghost use Rattle.bsc_port.specs.declared.event.PortEvent.{PortEvent};
ghost use Rattle.bsc_network.specs.Worlds.{Hub, Link};
ghost use Rattle.bsc_world.specs.Ports.{FollowsEvent, FollowsPort};

/// Whatever a hub is and whatever stands on a link to it, the hub's side does what its port does, by the definition of
/// `bsc_port`: a session of a hub that is served is by the same one.
pub fn hub_sides_follow_ports()
    ensures messages { (h : Hub) (link : Link) (now : ℕ) (m : List ℕ) → FollowsPort h link now m }
    ensures events { (h : Hub) (link : Link) (e : PortEvent) → FollowsEvent h link e }
{}
