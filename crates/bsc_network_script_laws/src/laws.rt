//! What holds of each script of a network, each carried by a function that does nothing.
ghost use Rattle.std.specs.Prelude.{ℕ, List};
ghost use Rattle.bsc_network_script_laws.specs.Laws.{DeliversItsSends, IsOfItsSteps};

/// The text of a script, up to its first refused line, is what its steps write in the network of its hubs and nodes, one after
/// the other.
pub fn a_script_is_of_its_steps()
    ensures { (o : List ℕ) → IsOfItsSteps o }
{}

/// What the steps of a script deliver was sent: each delivery comes from the Send at its place, and no two are of one Send and to
/// one node.
pub fn a_script_delivers_what_was_sent()
    ensures { (o : List ℕ) → DeliversItsSends o }
{}
