//! What holds of each network of runs, carried by functions that do nothing.
ghost use Rattle.bsc_network_of_runs.specs.Connecting.{ConnectionsAreAsBorn, ConnectionsAreOfNodes};
ghost use Rattle.bsc_node.specs.Logs.{Made};
ghost use Rattle.bsc_network_of_runs.specs.Deliveries.{DirectDeliveriesHaveTheirNodes, DirectDeliveriesWereSent};
ghost use Rattle.bsc_network_of_runs.specs.Deliveries.{HubDeliveriesHaveTheirNodes, RunsDeliverOnlyWhatWasSent};
ghost use Rattle.bsc_network_of_runs.specs.Deliveries.{RunsDeliverWhatWasSent};
ghost use Rattle.bsc_network_of_runs.specs.Deliveries.{HubDeliveriesAreApart, HubDeliveriesWereSent, HubLinksGiveWhatWasSent};
ghost use Rattle.bsc_network_of_runs.specs.Deliveries.{SessionsPutOnce, SessionsPutWhatWasSent};
ghost use Rattle.bsc_network_of_runs.specs.Hubs.{HubRun};
ghost use Rattle.bsc_network_of_runs.specs.Nodes.{NodeRun, PutsWhatWasSent};
ghost use Rattle.bsc_network_of_runs.specs.Reached.{EventsAreReached};
ghost use Rattle.bsc_network_of_runs.specs.Running.{RunsAreOfNodes, RunsHaveLogs, StoppedRunsAreOfNodes};
ghost use Rattle.bsc_network_of_runs.specs.Serving.{ServingGivesSessions};
ghost use Rattle.bsc_network_of_runs.specs.Wires.{WiresAreLinks};
ghost use Rattle.bsc_node_run.specs.Drawing.{Draws};
ghost use Rattle.bsc_network_of_runs.specs.Passing.{PassesOn, PassesOnOnce};

use bsc_edge::Link;
use bsc_node_run::Words;

/// Each Encapsulated-NPDU that a session of a hub puts was given by the link of a session of this hub, whose Forward brought it
/// into the outbox of the session that puts it, under the address under which its sender was connected.
pub fn hubs_pass_on()
    ensures { (h : HubRun) → PassesOn h }
{
    bsc_history::frames_enter_by_forwards();
    bsc_session_laws::npdus_are_taken();
    bsc_session_laws::messages_are_given();
    bsc_session_laws::forwards_are_carried();
}

/// What the link of a session gave is put at most once by each session of the hub.
pub fn hubs_pass_on_once()
    ensures { (h : HubRun) → PassesOnOnce h }
{}

/// Each Encapsulated-NPDU that a node puts on a link is of a Send of that node, and is the only one that it puts for it.
pub fn nodes_put_what_was_sent()
    ensures { (n : NodeRun) → PutsWhatWasSent n }
{
    bsc_node::npdus_are_put_once();
}

/// Each Encapsulated-NPDU that a session of a hub puts is of a Send: a node put the message for it, on the link that leads to the
/// session whose Forward brought it into the outbox.
pub fn sessions_put_what_was_sent()
    ensures { SessionsPutWhatWasSent }
{
    hubs_pass_on();
    nodes_put_what_was_sent();
}

/// No session puts two Encapsulated-NPDUs that are of one Send.
pub fn sessions_put_once()
    ensures { SessionsPutOnce }
{
    hubs_pass_on_once();
}

/// Each Encapsulated-NPDU that a node hears over a link to a hub was put by the session at the other end, and so is of a Send.
pub fn hub_links_give_what_was_sent()
    ensures { HubLinksGiveWhatWasSent }
{
    sessions_put_what_was_sent();
}

/// Each delivery of what came over a link to a hub is of a Send: its node sent this very NPDU, and was connected under the address
/// that is delivered when the hub passed it on; its destination was the address of the receiver's connection, or the broadcast.
pub fn hub_deliveries_were_sent()
    ensures { HubDeliveriesWereSent }
{
    bsc_node::delivers_what_came();
    bsc_node_identity::ways_lead_there();
    bsc_node_identity::stays_a_node();
    connections_are_of_nodes();
    hub_links_give_what_was_sent();
}

/// The connection of a session was joined by the session's caller, and has the identity of the node at the other end of its link.
pub fn connections_are_of_nodes()
    ensures { ConnectionsAreOfNodes }
{
    bsc_session_laws::messages_are_given();
    bsc_session_laws::connects_are_asked();
    bsc_node_identity::connects_name_their_peer();
    bsc_node_identity::stays_a_node();
}

/// No two deliveries of one node that came over hubs are of one Send.
pub fn hub_deliveries_are_apart()
    ensures { HubDeliveriesAreApart }
{
    bsc_history::one_of_device();
    connections_are_of_nodes();
    sessions_put_once();
}

/// Each delivery of what came over a direct link is of a Send: the node at the other end put that very NPDU there for it.
pub fn direct_deliveries_were_sent()
    ensures { DirectDeliveriesWereSent }
{
    bsc_node::delivers_what_came();
    bsc_node_identity::ways_lead_there();
    nodes_put_what_was_sent();
}

/// Each delivery of a node is of a Send, by a hub or over a direct connection, and no two of one node are of the same Send.
pub fn runs_deliver_only_what_was_sent()
    ensures { RunsDeliverOnlyWhatWasSent }
{
    bsc_node::delivers_what_came();
    hub_deliveries_were_sent();
    direct_deliveries_were_sent();
    hub_deliveries_are_apart();
}

/// Each event of a run came behind a log that the run had.
pub fn events_are_reached()
    ensures { (a : Made) → EventsAreReached a }
{}

/// Each delivery over a direct connection has the addresses of the nodes at both ends: the sender's slot was established with the
/// receiver's node, and the receiver's had come up with the sender's node over the same link.
pub fn direct_deliveries_have_their_nodes()
    ensures { DirectDeliveriesHaveTheirNodes }
{
    bsc_node_identity::connects_name_their_peer();
    bsc_node_identity::connects_are_as_begun();
    bsc_node_identity::links_have_one_vmac();
    bsc_node_identity::established_slots_are_there();
    bsc_node_identity::peers_stay();
    bsc_node_identity::npdus_pass_where_up();
    bsc_node_identity::stays_a_node();
    bsc_node_identity::peers_named_themselves();
    bsc_node_identity::slots_have_who_named_itself();
    events_are_reached();
}

/// The connection of a session has the identity that the node at the other end of its link had when that link began.
pub fn connections_are_as_born()
    ensures { ConnectionsAreAsBorn }
{
    bsc_node_identity::connects_name_their_peer();
    bsc_node_identity::connects_are_as_begun();
    bsc_node_identity::stays_a_node();
    bsc_session_laws::messages_are_given();
    bsc_session_laws::connects_are_asked();
}

/// Each delivery over a hub is between the nodes at both ends: the sender was connected with the identity that its node had when
/// its link began, and the receiver with that which its node had when it heard the message.
pub fn hub_deliveries_have_their_nodes()
    ensures { HubDeliveriesHaveTheirNodes }
{
    bsc_node_identity::links_have_one_vmac();
    events_are_reached();
    connections_are_as_born();
}

/// Each delivery of a node is of a Send, by a hub or over a direct connection, with the addresses of the nodes at both ends; and no
/// two of one node are of the same Send.
pub fn runs_deliver_what_was_sent()
    ensures { RunsDeliverWhatWasSent }
{
    runs_deliver_only_what_was_sent();
    hub_deliveries_have_their_nodes();
    direct_deliveries_have_their_nodes();
}

/// A serving call that was made with a new pass gives a session of the hub's run, with its talk and its end.
pub fn serving_gives_sessions()
    ensures { ServingGivesSessions }
{}

/// The log of a run of a node is that of a node to which events came, each of which might come.
pub fn runs_have_logs<L: Link>()
    ensures { RunsHaveLogs L.talk }
{}

/// A run of a node by the text of a script is one of a node of a network, with the log of the run.
pub fn runs_are_of_nodes<L: Link, W: Words>()
    ensures { RunsAreOfNodes L.talk (Draws W.gives W.faults) }
{}

/// So is one that a fault stopped, with the log that it has.
pub fn stopped_runs_are_of_nodes<L: Link>()
    ensures { StoppedRunsAreOfNodes L.talk }
{}

/// Wires whose ends tell what they gave and what was put on them are the links of a network.
pub fn wires_are_links()
    ensures { WiresAreLinks }
{}
