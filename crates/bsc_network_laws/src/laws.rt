//! Laws of whole networks, each carried by a function that does nothing.
ghost use Rattle.bsc_network_laws.specs.Deliveries.{NoneIsDeliveredTwice, NetworksDeliverWhatWasSent};
ghost use Rattle.bsc_network_laws.specs.Carried.{TakenComesDown, PutsWhatWasSent};
ghost use Rattle.bsc_network_laws.specs.Delivering.{DeliveriesAreAll};
ghost use Rattle.bsc_network_laws.specs.Naming.{NamesAreRight};
ghost use Rattle.bsc_network_laws.specs.Connecting.{ConnectionsAreOfDiallers, ConnectionsJoinedByTheirLinks, ConnectionsJoinByLinks, HistoriesAreLegal};
ghost use Rattle.bsc_network_laws.specs.Passing.{OutboxesHaveWhatWasSent, WhatComesDownWasSent};
ghost use Rattle.bsc_network_laws.specs.Peers.{PeersAreThere};
ghost use Rattle.bsc_network_laws.specs.Telling.{FailuresAreAllHeard};

/// The NPDUs on the way down from a hub are those that were taken from the outbox of its link's connection, in order, each
/// once, with its place.
pub fn taken_comes_down()
    ensures { TakenComesDown }
{}

/// Each NPDU that a node put on a way of a link is that of a Send of that very node, at its place.
pub fn puts_what_was_sent()
    ensures { PutsWhatWasSent }
{}

/// Each Connect-Request and Connect-Accept that stands on a way of a link is of the node or the hub that put it there.
pub fn names_are_right()
    ensures { NamesAreRight }
{}

/// A connection that joined a hub has the identity of the node that dialled its link.
pub fn connections_are_of_diallers()
    ensures { ConnectionsAreOfDiallers }
{}

/// Where the hub's side of a link has a connection, that connection joined the hub by the link's call.
pub fn connections_joined_by_their_links()
    ensures { ConnectionsJoinedByTheirLinks }
{}

/// A connection joined a hub by a link that leads to this hub, and the hub's side of that link has it.
pub fn connections_join_by_links()
    ensures { ConnectionsJoinByLinks }
{}

/// The history of each hub is legal.
pub fn histories_are_legal()
    ensures { HistoriesAreLegal }
{}

/// Each NPDU in an outbox is that of a Send of the node that dialled the sender's link, and was passed on, under the sender's
/// address, to whom it was meant for.
pub fn outboxes_have_what_was_sent()
    ensures { OutboxesHaveWhatWasSent }
{}

/// Each NPDU on the way down from a hub was passed on so to the connection that joined by this link.
pub fn what_comes_down_was_sent()
    ensures { WhatComesDownWasSent }
{}

/// The peer with which a slot is established is the node or the hub at the other end of the slot's link.
pub fn peers_are_there()
    ensures { PeersAreThere }
{}

/// However many more dials that failed the nodes of a network are told of, it is the same network: no step leaves one untold.
pub fn failures_are_all_heard()
    ensures { FailuresAreAllHeard }
{}

/// Of each node the deliveries are all that it has delivered by its log, in order, each once, and no more.
pub fn deliveries_are_all()
    ensures { DeliveriesAreAll }
{}

/// No two deliveries are of one Send and to one node.
pub fn none_is_delivered_twice()
    ensures { NoneIsDeliveredTwice }
{}

/// A network delivers what was sent. Each delivery comes from the Send at its
/// place: its node sent that very NPDU, and was connected to a hub under the address that is delivered when the hub passed it
/// on; or its slot was established with the receiver when it sent, and the receiver's slot at the same link had come up with it
/// when that heard the message. No two deliveries are of one Send and to one node.
pub fn networks_deliver_what_was_sent()
    ensures { NetworksDeliverWhatWasSent }
{
    bsc_node_identity::npdus_pass_where_up();
}
