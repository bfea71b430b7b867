//! How short the longest message of a node may be, carried by a function that does nothing.
ghost use Rattle.std.specs.Prelude.{◌≡◌};
ghost use Rattle.bsc_octets.specs.declared.bounds.TheConstants.{LEAST_BVLC};

/// Each node takes messages of 64 octets.
pub fn each_node_takes_64_octets()
    ensures { LEAST_BVLC ≡ 64 }
{}
