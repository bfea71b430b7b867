//! Carrying out what a node does.
ghost use Rattle.std.specs.Prelude.{◌≡◌, ◌≢◌, ◌≤◌, Err, List, ℕ, OnErr, OnOk, Option, Some};
ghost use Rattle.bsc_outside.specs.Faults.{PutsPrefix};
ghost use Rattle.bsc_node.specs.declared.action.Action.TheVariants.{Dial};
ghost use Rattle.bsc_node_run.specs.Halts.{CountsWrites, RisesOnWriteFault};
ghost use Rattle.bsc_node_run.specs.declared.halt.Halt.{Halt as HaltType};
ghost use Rattle.bsc_node_run.specs.Lines.{delivered_line, note_line};
ghost use Rattle.bsc_node_run.specs.declared.news.Change.TheVariants.{Lost};
ghost use Rattle.bsc_node_run.specs.Performing.{Carries, Closes, Dials, Does, IsClosed, Puts, Refuses, Takes, Tells};
ghost use Rattle.bsc_node_run.specs.Performing.{Writes, is_end, kind_of};
ghost use Rattle.bsc_node_run.specs.Stopping.{Breaks, ClosesPart, DoesPart, IsOut, PutsPart, RefusesPart, WritesPart};
ghost use Rattle.bsc_node_run.specs.Worlds.{Becomes, Dialling, Same, Undergoes, dialling, ends, link_in, with_news, with_over, world_of};
ghost use Rattle.std.specs.Io.KnownBytes.{Appends};

use crate::halt::Halt;
use crate::link_set::LinkSet;
use crate::news::Change;
use crate::texts::{delivered_line, note_line};
use bsc_accept::Closing;
use bsc_edge::{Dialer, Kind, Link, LinkFault};
use bsc_node::{Action, Delivered, LinkName, Note};
use bsc_octets::NoMemory;
use bsc_outside::{Failed, Sink};
use std::alloc::Global;

/// What a link of this name is for.
fn kind_of(name: LinkName) -> Kind
    ensures { result ≡ kind_of name }
{
    match name {
        LinkName::Hub(_) => Kind::Hub,
        LinkName::Direct(_) => Kind::Direct,
    }
}

/// Dials a URI: that the link opened, or that it didn't, is new of it.
fn dial<L: Link + Drop, D: Dialer<L>>(
    alloc: Global,
    set: &mut LinkSet<L>,
    dialer: &mut D,
    name: LinkName,
    uri: &[u8],
) -> Result<(), NoMemory>
    ensures dials { OnOk result ((h : Option (List ℕ)) →
        Dials name uri.now (world_of set.old (dialling D.calls D.left D.came D.faults dialer.old) h)
        (world_of set.new (dialling D.calls D.left D.came D.faults dialer.new) h)) }
    ensures part { OnErr result ((h : Option (List ℕ)) →
        DoesPart L.talk (Dial name uri.now) (world_of set.old (dialling D.calls D.left D.came D.faults dialer.old) h)
        (world_of set.new (dialling D.calls D.left D.came D.faults dialer.new) h)) }
{
    match dialer.dial(alloc, uri, kind_of(name)) {
        Ok(link) => {
            let _ = set.replace(name, Some(link));
            set.note(name, Change::Opened)
        }
        Err(LinkFault::Failed) => set.note(name, Change::DialFailed),
        Err(LinkFault::NoMemory) => Err(NoMemory),
    }
}

/// The link that arrived gets a name.
fn take<L: Link + Drop>(set: &mut LinkSet<L>, name: LinkName)
    ensures { Undergoes (Takes name set.old.arrived) set.old set.new }
{
    match set.take_arrived() {
        Some(link) => {
            let _ = set.replace(name, Some(link));
        }
        None => (),
    }
}

/// Closes a link, whatever that answers.
fn close_link<L: Link + Drop>(
    alloc: Global,
    set: &mut LinkSet<L>,
    link: L,
    closing: Closing,
) -> Result<(), NoMemory>
    ensures closes { OnOk result (Undergoes (λ w v. (m : L) × IsClosed L.talk closing link m × Same v (with_over m w)) set.old set.new) }
    ensures part { OnErr result (Undergoes (λ w v. (m : L) × IsClosed L.talk closing link m × Same v w) set.old set.new) }
{
    let mut link = link;
    let _ = link.close(alloc, closing.code, closing.reason.text());
    set.end(link)
}

/// Closes the link that arrived.
fn refuse<L: Link + Drop>(
    alloc: Global,
    set: &mut LinkSet<L>,
    closing: Closing,
) -> Result<(), NoMemory>
    ensures refuses { OnOk result (Undergoes (Refuses L.talk closing set.old.arrived) set.old set.new) }
    ensures part { OnErr result (Undergoes (RefusesPart L.talk closing set.old.arrived) set.old set.new) }
{
    match set.take_arrived() {
        Some(link) => close_link(alloc, set, link, closing),
        None => Ok(()),
    }
}

/// The link of a name is lost.
fn lose<L: Link + Drop>(set: &mut LinkSet<L>, name: LinkName) -> Result<(), NoMemory>
    ensures lost { OnOk result ((l : L) → link_in set.old name ≡ Some l → Becomes (λ w. with_news name Lost (ends name l w)) set.old set.new) }
    ensures part { OnErr result ((l : L) → link_in set.old name ≡ Some l → Undergoes (IsOut name l) set.old set.new) }
{
    set.take_out(name)?;
    set.note(name, Change::Lost)
}

/// Puts a message on the link of a name, where there is one. A link that fails is lost.
fn put<L: Link + Drop>(
    alloc: Global,
    set: &mut LinkSet<L>,
    name: LinkName,
    octets: &[u8],
) -> Result<(), NoMemory>
    ensures puts { OnOk result (Undergoes (Puts L.talk name octets.now (link_in set.old name)) set.old set.new) }
    ensures part { OnErr result (Undergoes (PutsPart L.talk name octets.now (link_in set.old name)) set.old set.new) }
{
    match set.put(alloc, name, octets) {
        Ok(()) => Ok(()),
        Err(LinkFault::Failed) => lose(set, name),
        Err(LinkFault::NoMemory) => Err(NoMemory),
    }
}

/// Closes the link of a name, where there is one. What was new of it isn't told any more.
fn close<L: Link + Drop>(
    alloc: Global,
    set: &mut LinkSet<L>,
    name: LinkName,
    closing: Closing,
) -> Result<(), NoMemory>
    ensures closes { OnOk result (Undergoes (Closes L.talk name closing (link_in set.old name)) set.old set.new) }
    ensures part { OnErr result (Undergoes (ClosesPart L.talk name closing (link_in set.old name)) set.old set.new) }
{
    set.forget(name);
    match set.replace(name, None) {
        Some(link) => close_link(alloc, set, link, closing),
        None => Ok(()),
    }
}

/// Writes a text.
fn write<K: Sink>(sink: &mut K, text: &[u8]) -> Result<(), Halt>
    ensures writes { OnOk result (Appends (K.held sink.old) (K.held sink.new) text.now) }
    ensures part { OnErr result (PutsPrefix (K.held sink.old) (K.held sink.new) text.now) }
    ensures counts { CountsWrites result (K.faults sink.old) (K.faults sink.new) }
{
    match sink.write(text) {
        Ok(()) => Ok(()),
        Err(Failed) => Err(Halt::WriteFault),
    }
}

/// Writes what a node delivers.
fn deliver<K: Sink>(alloc: Global, sink: &mut K, delivered: &Delivered) -> Result<(), Halt>
    ensures writes { OnOk result (Appends (K.held sink.old) (K.held sink.new) (delivered_line delivered.now)) }
    ensures part { OnErr result (PutsPrefix (K.held sink.old) (K.held sink.new) (delivered_line delivered.now)) }
    ensures counts { CountsWrites result (K.faults sink.old) (K.faults sink.new) }
{
    let text = delivered_line(alloc, delivered)?;
    write(sink, text.as_slice())
}

/// Whether a node tells that it has ended.
fn is_end(note: &Note) -> bool
    ensures { result ≡ is_end note.now }
{
    match note {
        Note::Finished => true,
        Note::HubNow(_)
        | Note::Uris(_, _)
        | Note::DirectUp(_)
        | Note::DirectDown(_)
        | Note::NoPath(_)
        | Note::TooLong(_)
        | Note::NoUris(_)
        | Note::SlotsFull
        | Note::AsksFull
        | Note::AskPending(_)
        | Note::NoDirect(_)
        | Note::Advert(_, _)
        | Note::Nak { .. }
        | Note::Renewed(_)
        | Note::NoRandom => false,
    }
}

/// Writes what a node tells. That it has ended is kept.
fn tell<K: Sink, L: Link + Drop>(
    alloc: Global,
    set: &mut LinkSet<L>,
    sink: &mut K,
    note: &Note,
) -> Result<(), Halt>
    ensures tells { OnOk result ((d : Dialling L) →
        Tells L.talk note.now (world_of set.old d (K.held sink.old)) (world_of set.new d (K.held sink.new))) }
    ensures part { OnErr result ((d : Dialling L) →
        WritesPart (note_line note.now) (world_of set.old d (K.held sink.old)) (world_of set.new d (K.held sink.new))) }
    ensures counts { CountsWrites result (K.faults sink.old) (K.faults sink.new) }
{
    let text = note_line(alloc, note)?;
    write(sink, text.as_slice())?;
    set.finished = is_end(note) || set.finished;
    Ok(())
}

/// Carries out one action.
fn carry_out<K: Sink, L: Link + Drop, D: Dialer<L>>(
    alloc: Global,
    set: &mut LinkSet<L>,
    sink: &mut K,
    dialer: &mut D,
    action: &Action,
) -> Result<(), Halt>
    ensures does { OnOk result (Does L.talk action.now
        (world_of set.old (dialling D.calls D.left D.came D.faults dialer.old) (K.held sink.old))
        (world_of set.new (dialling D.calls D.left D.came D.faults dialer.new) (K.held sink.new))) }
    ensures part { OnErr result (DoesPart L.talk action.now
        (world_of set.old (dialling D.calls D.left D.came D.faults dialer.old) (K.held sink.old))
        (world_of set.new (dialling D.calls D.left D.came D.faults dialer.new) (K.held sink.new))) }
    ensures counts { CountsWrites result (K.faults sink.old) (K.faults sink.new) }
{
    match action {
        Action::Dial(name, uri) => dial(alloc, set, dialer, *name, uri.as_slice())?,
        Action::Take(name) => take(set, *name),
        Action::Refuse(closing) => refuse(alloc, set, *closing)?,
        Action::Put(name, octets) => put(alloc, set, *name, octets.as_slice())?,
        Action::Close(name, closing) => close(alloc, set, *name, *closing)?,
        Action::Deliver(delivered) => deliver(alloc, sink, delivered)?,
        Action::Tell(note) => tell(alloc, set, sink, note)?,
        Action::Draw => (),
    }
    Ok(())
}

/// Carries out what a node does, one action after the other. A Draw is left to the caller.
pub fn perform<K: Sink, L: Link + Drop, D: Dialer<L>>(
    alloc: Global,
    actions: &[Action],
    set: &mut LinkSet<L>,
    sink: &mut K,
    dialer: &mut D,
) -> Result<(), Halt>
    ensures carries { OnOk result (Carries L.talk actions.now
        (world_of set.old (dialling D.calls D.left D.came D.faults dialer.old) (K.held sink.old))
        (world_of set.new (dialling D.calls D.left D.came D.faults dialer.new) (K.held sink.new))) }

    // Where it ends by a fault, the first ones were carried out, and the next in part.
    ensures breaks { OnErr result (Breaks L.talk actions.now
        (world_of set.old (dialling D.calls D.left D.came D.faults dialer.old) (K.held sink.old))
        (world_of set.new (dialling D.calls D.left D.came D.faults dialer.new) (K.held sink.new))) }
    ensures failed { RisesOnWriteFault result (K.faults sink.old) (K.faults sink.new) }
    ensures later { K.faults sink.old ≤ K.faults sink.new }
    ensures accepts { result ≢ Err HaltType.AcceptFault }
{
    let mut left = actions;
    while let [action, rest @ ..] = left {
        carry_out(alloc, set, sink, dialer, action)?;
        left = rest;
    }
    Ok(())
}
