//! What follows where a message comes for the node, over its hub or a direct connection.
ghost use Rattle.std.specs.Prelude.{◌≡◌, ◌≤◌, ◌++◌, if◌then◌else◌, is_some, true, List, None, Some, IfSome, OnErr, OnOk};
ghost use Rattle.std.specs.Str.{IsUtf8};
ghost use Rattle.std.specs.Option.{option_map};
ghost use Rattle.bsc_octets.specs.declared.identity.Identity.{Identity};
ghost use Rattle.bsc_octets.specs.declared.vmac.Vmac.{Vmac};
ghost use Rattle.bsc_frame.specs.declared.message.Message.{Message};
ghost use Rattle.bsc_frame.specs.Payloads.{IsAdvert};
ghost use Rattle.bsc_resolve.specs.Standing.{IsUnchanged};
ghost use Rattle.bsc_node.specs.Hubs.{hub_status};
ghost use Rattle.bsc_node.specs.Receiving.{advert, advertises, answer_dest, answers_by, delivers, drops_question, is_broadcast_address};
ghost use Rattle.bsc_node.specs.Receiving.{is_for_all, learns, of_sender, sender, takes_answer, takes_nak, takes_up};
ghost use Rattle.bsc_node.specs.declared.action.Action.{Action};
ghost use Rattle.bsc_node.specs.declared.note.Note.{Note};
ghost use Rattle.bsc_node.specs.declared.link_name.LinkName.{LinkName};
ghost use Rattle.bsc_node.specs.Logs.{Log, nothing, tells, with_some};
ghost use Rattle.bsc_node_core.specs.declared.state.State.{State};
ghost use Rattle.bsc_node_core.specs.Tables.{is_name};
ghost use Rattle.bsc_node_core.specs.Standing.{Base, FollowsAlways, Stands};
ghost use Rattle.bsc_node_core.specs.Resolving.{BothStand};

use crate::acting::tell;
use crate::actions::Actions;
use crate::event_context::EventContext;
use crate::messages::{message_octets, nak};
use crate::state::State;
use bsc_connector::HubUse;
use bsc_frame::{Advert, Answer, Body, Message};
use bsc_node::{Action, Delivered, LinkName, NodeLimits, Note};
use bsc_octets::{Identity, NoMemory, Octets, Vmac, function, results};
use bsc_options::Options;
use bsc_resolve::Resolve;
use std::alloc::Global;

/// The Destination of an answer: over the hub the address that the message came from, none over a direct connection.
fn answer_dest(name: LinkName, origin: Option<Vmac>) -> Option<Vmac>
    ensures { (msg : Message) → msg.origin ≡ origin → result ≡ answer_dest name msg }
{
    match name {
        LinkName::Hub(_) => origin,
        LinkName::Direct(_) => None,
    }
}

/// The hub connection status of an Advertisement.
fn hub_status(used: HubUse) -> u8
    ensures status { result ≡ hub_status used }
    ensures few { result ≤ 2 }
{
    match used {
        HubUse::NoHub => 0,
        HubUse::Primary => 1,
        HubUse::Failover => 2,
    }
}

/// Whether direct connections are accepted, as an Advertisement says it: 1 where the node has URIs, else 0.
fn accepts(uris: &Option<Octets>) -> u8
    ensures accepts { result ≡ (if is_some uris.now then 1 else 0) }
    ensures few { result ≤ 1 }
{
    match uris {
        Some(_) => 1,
        None => 0,
    }
}

/// Whether a Destination is the broadcast.
fn is_broadcast(dest: Option<Vmac>) -> bool
    ensures { result ≡ is_broadcast_address dest }
{
    match dest {
        Some(v) => v == Vmac::BROADCAST,
        None => false,
    }
}

/// The VMAC of a peer, where it is known.
fn vmac_of(who: Option<Identity>) -> Option<Vmac>
    ensures { result ≡ option_map (λ (w : Identity). w.vmac) who }
{
    match who {
        Some(who) => Some(who.vmac),
        None => None,
    }
}

impl State {
    /// Who sent a message: its Originating address, or on a direct connection the peer. The hub itself has none.
    fn sender(&self, name: LinkName, origin: Option<Vmac>) -> Option<Vmac>
        ensures { (b : Base) (out : List Action) (L : Log) (msg : Message) → is_name name ≡ true → msg.origin ≡ origin
            → Stands b out self.now L → sender name msg L ≡ result }
    {
        match name {
            LinkName::Hub(_) => origin,
            LinkName::Direct(_) => origin.or(vmac_of(self.links.get(name).peer)),
        }
    }

    /// Answers a question by the node's URIs.
    fn answer_uris(
        &mut self,
        out: &mut Actions,
        alloc: Global,
        uris: &Octets,
        name: LinkName,
        id: u16,
        dest: Option<Vmac>,
    ) -> Result<(), NoMemory>
        requires { IsUtf8 uris.now }
        ensures { OnOk result ((msg : Message) → msg.id ≡ id → answer_dest name msg ≡ dest
            → FollowsAlways (λ a. answers_by name msg (Some uris.now)) out.old self.old out.new self.new) }
    {
        let body = Body::AddressResolutionAck(uris.copy(alloc)?);
        let octets = message_octets(alloc, id, dest, body)?;
        self.put(out, name, octets)
    }

    /// Answers a question by the NAK that the function isn't supported, unless it came for all.
    fn answer_nak(
        &mut self,
        out: &mut Actions,
        alloc: Global,
        name: LinkName,
        id: u16,
        dest: Option<Vmac>,
        for_all: bool,
    ) -> Result<(), NoMemory>
        ensures { OnOk result ((msg : Message) → msg.id ≡ id → answer_dest name msg ≡ dest → is_for_all msg ≡ for_all
            → FollowsAlways (λ a. answers_by name msg None) out.old self.old out.new self.new) }
    {
        if for_all {
            return Ok(());
        }
        let body = nak(alloc, function::ADDRESS_RESOLUTION, results::NOT_SUPPORTED);
        let octets = message_octets(alloc, id, dest, body)?;
        self.put(out, name, octets)
    }

    /// Answers a question for the node's URIs.
    fn answer_question(
        &mut self,
        out: &mut Actions,
        at: &EventContext,
        name: LinkName,
        id: u16,
        dest: Option<Vmac>,
        for_all: bool,
    ) -> Result<(), NoMemory>
        requires { IfSome at.now.limits.now.uris IsUtf8 }
        ensures { OnOk result ((msg : Message) → msg.id ≡ id → answer_dest name msg ≡ dest → is_for_all msg ≡ for_all
            → FollowsAlways (λ a. answers_by name msg at.now.limits.now.uris) out.old self.old out.new self.new) }
    {
        match &at.limits.uris {
            Some(uris) => self.answer_uris(out, at.alloc, uris, name, id, dest),
            None => self.answer_nak(out, at.alloc, name, id, dest, for_all),
        }
    }

    /// What the node advertises.
    fn advert(&self, limits: &NodeLimits) -> Advert
        ensures legal { IsAdvert result }
        ensures told { (b : Base) (out : List Action) (L : Log) → b.made.limits ≡ limits.now → Stands b out self.now L → result ≡ advert b.made L }
    {
        let (max_bvlc, max_npdu) = (self.own.max_bvlc, self.own.max_npdu);
        Advert {
            status: hub_status(self.connector.hub_use()),
            accepts: accepts(&limits.uris),
            max_bvlc,
            max_npdu,
        }
    }

    /// Answers a solicitation by an Advertisement, which has the node's next number.
    fn advertise(
        &mut self,
        out: &mut Actions,
        at: &EventContext,
        name: LinkName,
        dest: Option<Vmac>,
    ) -> Result<(), NoMemory>
        ensures { OnOk result ((b : Base) (L : Log) (msg : Message) → b.made.limits ≡ at.now.limits.now → answer_dest name msg ≡ dest
            → Stands b out.old self.old L → Stands b out.new self.new (L ++ advertises b.made name msg L)) }
    {
        let body = Body::Advertisement(self.advert(at.limits));
        let octets = message_octets(at.alloc, self.next, dest, body)?;
        self.put(out, name, octets)
    }
}

/// Learns the URIs of who sent them, where they answer a question that is under way, and tells them.
fn learn(
    out: &mut Actions,
    resolve: &mut Resolve,
    alloc: Global,
    id: u16,
    from: Vmac,
    uris: Octets,
) -> Result<(), NoMemory>
    ensures goes { OnOk result ((b : Base) (s : State) (L : Log) (msg : Message) → msg.id ≡ id
        → BothStand b out.old s resolve.old L → BothStand b out.new s resolve.new (L ++ learns b.made msg uris from L)) }
    ensures err { OnErr result (IsUnchanged resolve.old resolve.new) }
{
    if resolve.awaits(id, from) {
        tell(out, Note::Uris(from, uris.copy(alloc)?))?;
        let _ = resolve.answered(id, from, uris);
        Ok(())
    } else {
        Ok(())
    }
}

/// Drops the question of a VMAC that a NAK of this function answers.
fn drop_question_of(resolve: &mut Resolve, v: Vmac, id: u16, function: u8)
    ensures { (b : Base) (out : List Action) (s : State) (L : Log) → BothStand b out s resolve.old L
        → BothStand b out s resolve.new (L ++ drops_question b.made function id v L) }
{
    if function == function::ADDRESS_RESOLUTION {
        let _ = resolve.refused(id, v);
    }
}

/// Drops the question that a NAK of this function answers, where it is known who sent it.
fn drop_question(resolve: &mut Resolve, from: Option<Vmac>, id: u16, function: u8)
    ensures { (b : Base) (out : List Action) (s : State) (L : Log) → BothStand b out s resolve.old L
        → BothStand b out s resolve.new (L ++ with_some from (drops_question b.made function id) nothing L) }
{
    match from {
        Some(v) => drop_question_of(resolve, v, id, function),
        None => {}
    }
}

/// Tells a NAK of a function, and drops the question that it answers.
fn take_nak(
    out: &mut Actions,
    resolve: &mut Resolve,
    from: Option<Vmac>,
    id: u16,
    function: u8,
    code: u16,
) -> Result<(), NoMemory>
    ensures goes { OnOk result ((b : Base) (s : State) (L : Log) (name : LinkName) (msg : Message) → msg.id ≡ id → sender name msg L ≡ from
        → BothStand b out.old s resolve.old L → BothStand b out.new s resolve.new (L ++ takes_nak b.made name msg function code L)) }
    ensures err { OnErr result (IsUnchanged resolve.old resolve.new) }
{
    tell(
        out,
        Note::Nak {
            from,
            function,
            code,
        },
    )?;
    drop_question(resolve, from, id, function);
    Ok(())
}

/// Delivers an NPDU, where it is known who sent it.
fn deliver(
    out: &mut Actions,
    from: Option<Vmac>,
    broadcast: bool,
    data_options: Options,
    npdu: Octets,
) -> Result<(), NoMemory>
    ensures { OnOk result ((b : Base) (s : State) (L : Log) (name : LinkName) (msg : Message) → sender name msg L ≡ from
        → is_for_all msg ≡ broadcast → msg.data_options ≡ data_options
        → Stands b out.old s L → Stands b out.new s (L ++ of_sender name msg (delivers msg npdu) L)) }
{
    match from {
        Some(v) => out.push(Action::Deliver(Delivered {
            from: v,
            broadcast,
            data_options,
            npdu,
        })),
        None => Ok(()),
    }
}

/// Tells an Advertisement, where it is known who sent it.
fn tell_advert(out: &mut Actions, from: Option<Vmac>, told: Advert) -> Result<(), NoMemory>
    ensures { OnOk result ((b : Base) (s : State) (L : Log) (name : LinkName) (msg : Message) → sender name msg L ≡ from
        → Stands b out.old s L → Stands b out.new s (L ++ of_sender name msg (λ v. tells (Note.Advert v told)) L)) }
{
    match from {
        Some(v) => tell(out, Note::Advert(v, told)),
        None => Ok(()),
    }
}

/// Learns the URIs of who sent them, where that is known and they answer a question that is under way.
fn learn_from(
    out: &mut Actions,
    resolve: &mut Resolve,
    alloc: Global,
    from: Option<Vmac>,
    id: u16,
    uris: Octets,
) -> Result<(), NoMemory>
    ensures goes { OnOk result ((b : Base) (s : State) (L : Log) (name : LinkName) (msg : Message) → msg.id ≡ id → sender name msg L ≡ from
        → BothStand b out.old s resolve.old L → BothStand b out.new s resolve.new (L ++ of_sender name msg (learns b.made msg uris) L)) }
    ensures err { OnErr result (IsUnchanged resolve.old resolve.new) }
{
    match from {
        Some(v) => learn(out, resolve, alloc, id, v, uris),
        None => Ok(()),
    }
}

/// Takes the answer to a request: a NAK is told, an ACK does nothing.
fn take_answer(
    out: &mut Actions,
    resolve: &mut Resolve,
    from: Option<Vmac>,
    id: u16,
    answer: &Answer,
) -> Result<(), NoMemory>
    ensures goes { OnOk result ((b : Base) (s : State) (L : Log) (name : LinkName) (msg : Message) → msg.id ≡ id → sender name msg L ≡ from
        → BothStand b out.old s resolve.old L → BothStand b out.new s resolve.new (L ++ takes_answer b.made name msg answer.now L)) }
    ensures err { OnErr result (IsUnchanged resolve.old resolve.new) }
{
    match answer {
        Answer::Ack { .. } => Ok(()),
        Answer::Nak { function, code, .. } => take_nak(out, resolve, from, id, *function, *code),
    }
}

/// What follows where a message comes for the node.
pub(crate) fn handle_message(
    state: &mut State,
    out: &mut Actions,
    resolve: &mut Resolve,
    at: &EventContext,
    name: LinkName,
    message: Message,
) -> Result<(), NoMemory>
    requires { IfSome at.now.limits.now.uris IsUtf8 }
    ensures goes { OnOk result ((b : Base) (L : Log) → b.made.limits ≡ at.now.limits.now → is_name name ≡ true
        → BothStand b out.old state.old resolve.old L → BothStand b out.new state.new resolve.new (L ++ takes_up b.made name message L)) }
    ensures err { OnErr result (IsUnchanged resolve.old resolve.new) }
{
    let Message {
        id,
        origin,
        dest,
        dest_options: _options,
        data_options,
        body,
    } = message;
    let from = state.sender(name, origin);
    let for_all = is_broadcast(dest);
    let dest = answer_dest(name, origin);
    match body {
        Body::BvlcResult(answer) => take_answer(out, resolve, from, id, &answer),
        Body::Npdu(npdu) => deliver(out, from, for_all, data_options, npdu),
        Body::AddressResolution => { state.answer_question(out, at, name, id, dest, for_all) }
        Body::AddressResolutionAck(uris) => learn_from(out, resolve, at.alloc, from, id, uris),
        Body::Advertisement(told) => tell_advert(out, from, told),
        Body::AdvertisementSolicitation => state.advertise(out, at, name, dest),
        Body::ConnectRequest(_)
        | Body::ConnectAccept(_)
        | Body::DisconnectRequest
        | Body::DisconnectAck
        | Body::HeartbeatRequest
        | Body::HeartbeatAck
        | Body::Proprietary { .. } => Ok(()),
    }
}
