//! A law of how a node waits, carried by a function that does nothing.
ghost use Rattle.std.specs.Prelude.{◌≡◌};
ghost use Rattle.bsc_node_run.specs.Receiving.{link_wait};
ghost use Rattle.bsc_node_run.specs.Turning.{accept_wait};
ghost use Rattle.bsc_node_run.specs.Resting.{longest_rest};

/// In a turn a node waits 0 milliseconds for each link and for the acceptor: it is asked for what is there already.
pub fn waits_for_nothing_in_a_turn()
    ensures links { link_wait ≡ 0 }
    ensures acceptor { accept_wait ≡ 0 }
{}

/// Between two turns it waits 50 milliseconds at most.
pub fn rests_50_ms_at_most()
    ensures { longest_rest ≡ 50 }
{}
