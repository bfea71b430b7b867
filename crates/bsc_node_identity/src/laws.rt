//! Laws of identities in the definition of a node, each carried by a function that does nothing.
ghost use Rattle.std.specs.Prelude.{ℕ, List};
ghost use Rattle.bsc_frame.specs.declared.body.Body.TheVariants.{Npdu, AddressResolutionAck};
ghost use Rattle.bsc_node.specs.Logs.{Made};
ghost use Rattle.bsc_node_identity.specs.Naming.{NamesItself, SlotsComeUpAsNamed, SlotsHaveWhoNamedItself, PeersNamedThemselves};
ghost use Rattle.bsc_node_identity.specs.Naming.{BegunIsNotEstablished, SlotsHaveTheirPeers, ConnectsNameTheirPeer};
ghost use Rattle.bsc_node_identity.specs.Naming.{OthersNameNobody};
ghost use Rattle.bsc_node_identity.specs.Resolving.{LearnsWhatWasAnswered, TellsItsOwnUris, DialsWhatItKnows};
ghost use Rattle.bsc_node_identity.specs.Carried.{IsCarriedOn, IsCarriedPlainly, WaysLeadThere};
ghost use Rattle.bsc_node_identity.specs.There.{ConnectsAreAsBegun, DirectPutsAreThere, EstablishedAreThere, LinksHaveOneVmac};
ghost use Rattle.bsc_node_identity.specs.There.{NpdusPassWhereUp, PeersStay, StaysANode};

/// A node dials its hubs by the URIs that it was made with, and for direct connections URIs that it has learnt.
pub fn dials_what_it_knows()
    ensures { (a : Made) → DialsWhatItKnows a }
{}

/// Each Connect-Request and Connect-Accept that a node puts has its own identity, with the VMAC that it then has.
pub fn names_itself()
    ensures { (a : Made) → NamesItself a }
{}

/// A slot comes up only at a message over its link that passed and names its peer.
pub fn slots_come_up_as_named()
    ensures { (a : Made) → SlotsComeUpAsNamed a }
{}

/// The peer with which a slot is established named itself over the link that the slot still has.
pub fn slots_have_who_named_itself()
    ensures { (a : Made) → SlotsHaveWhoNamedItself a }
{}

/// The peer of a direct connection named itself over this very link.
pub fn peers_named_themselves()
    ensures { (a : Made) → PeersNamedThemselves a }
{}

/// A slot is established with the peer of its link.
pub fn slots_have_their_peers()
    ensures { (a : Made) → SlotsHaveTheirPeers a }
{}

/// An event at which a link of a slot's name is dialled or taken leaves the slot not established.
pub fn begun_is_not_established()
    ensures { (a : Made) → BegunIsNotEstablished a }
{}

/// The URIs that a node has learnt of another are those that an Address-Resolution-ACK from that VMAC said.
pub fn learns_what_was_answered()
    ensures { (a : Made) → LearnsWhatWasAnswered a }
{}

/// An Address-Resolution-ACK that a node puts has its own URIs.
pub fn tells_its_own_uris()
    ensures { (a : Made) → TellsItsOwnUris a }
{}

/// What passes of a Connect-Request or a Connect-Accept names whose it is, and what passes of other octets names nobody.
pub fn connects_name_their_peer()
    ensures named { ConnectsNameTheirPeer }
    ensures others { OthersNameNobody }
{}

/// What passes of an NPDU is that NPDU: as the hub passed it on, with its sender, and as it was put without addresses.
pub fn npdus_are_carried()
    ensures passed_on { (npdu : List ℕ) → IsCarriedOn (Npdu npdu) }
    ensures plain { (npdu : List ℕ) → IsCarriedPlainly (Npdu npdu) }
{}

/// What passes of an Address-Resolution-ACK is that ACK: as the hub passed it on, with its sender, and without addresses.
pub fn uris_are_carried()
    ensures passed_on { (uris : List ℕ) → IsCarriedOn (AddressResolutionAck uris) }
    ensures plain { (uris : List ℕ) → IsCarriedPlainly (AddressResolutionAck uris) }
{}

/// The way of a message leads to its destination: over a hub connection with it, or over a slot that is established with it.
pub fn ways_lead_there()
    ensures { WaysLeadThere }
{}

/// The link of an established slot is there.
pub fn established_slots_are_there()
    ensures { (a : Made) → EstablishedAreThere a }
{}

/// What a node puts on a direct link goes over one that is there.
pub fn direct_puts_are_there()
    ensures { (a : Made) → DirectPutsAreThere a }
{}

/// A link that is there began with the VMAC that the node has.
pub fn links_have_one_vmac()
    ensures { (a : Made) → LinksHaveOneVmac a }
{}

/// Each Connect-Request and Connect-Accept goes over a link that is there, with the identity that the node had when that began.
pub fn connects_are_as_begun()
    ensures { (a : Made) → ConnectsAreAsBegun a }
{}

/// A message over a direct link that is no Connect-Request and no Connect-Accept leaves its peer as it was.
pub fn peers_stay()
    ensures { (a : Made) → PeersStay a }
{}

/// A node that was made with the identity of a node has such, whatever it drew.
pub fn stays_a_node()
    ensures { (a : Made) → StaysANode a }
{}

/// An NPDU passes over a direct link only where its slot came up over it, with the link's peer.
pub fn npdus_pass_where_up()
    ensures { (a : Made) → NpdusPassWhereUp a }
{}
