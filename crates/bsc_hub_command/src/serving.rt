//! Making a hub by its settings, and serving it.
ghost use Rattle.std.specs.Prelude.{◌≡◌, ◌≤◌, ◌⊎◌, [], None, Option, Some, Err, IfOk, OnOk, OnErr, true};
ghost use Rattle.std.specs.Io.KnownBytes.{Appends};
ghost use Rattle.std.specs.Arc.{arc_value};
ghost use Rattle.bsc_outside.specs.Faults.{HasRisen, PutsPrefix};
ghost use Rattle.bsc_edge.specs.declared.fault.LinkFault.{LinkFault};
ghost use Rattle.bsc_turn.specs.Passes.{drawn_list, ended_callers, number_of, own_list, seen};
ghost use Rattle.bsc_hub.specs.Passing.{IsCaller, about_of};
ghost use Rattle.bsc_player.specs.Faults.{RisesIf};
ghost use Rattle.bsc_player.specs.LastLines.{RanOut, SaysOrRunsOut};
ghost use Rattle.bsc_settings.specs.Parts.{identity_of, limits_of};
ghost use Rattle.bsc_session.specs.Jobs.{Worked};
ghost use Rattle.bsc_serve.specs.declared.end.ServeEnd.{ServeEnd};
ghost use Rattle.bsc_serve.specs.Asking.{asking_by};
ghost use Rattle.bsc_journal.specs.Saying.{IsHubLine, IsIdentity};
ghost use Rattle.bsc_hub_command.specs.HubLines.{hub_line, hub_text};
ghost use Rattle.bsc_hub_command.specs.Lines.{end_text};
ghost use Rattle.bsc_hub_command.specs.Served.{Begun, Bound, HasFailed, HubRuns, LimitedTo, NotBound, SaysEnd, StopsAlone, Titling, Unbegun, books_by, door_by};
ghost use Rattle.bsc_hub_command.specs.Served.{status_with, stock_by, telling, terms_by, terms_in, world_by};

use crate::asked::HubAsked;
use crate::made::MadeHub;
use crate::place::HubPlace;
use crate::texts::done_text;
use crate::title::{hub_line, is_identity};
use bsc_edge::{Acceptor, Clock, Journals, Link, LinkFault, Spawner};
use bsc_history::{About, Counts};
use bsc_hub::{Hub, Pass};
use bsc_octets::NoMemory;
use bsc_outside::Sink;
use bsc_player::{end_with, out_of_memory};
use bsc_serve::{ServeEnd, ServeTerms, ServedHub, ServingParts, StopAsker, serve_on};
use bsc_session::{SessionJob, SessionLimits};
use bsc_settings::HubSettings;
use std::alloc::Global;
use std::sync::{Arc, Wait};

/// Writes what an end comes to that all sessions came to, or that was asked for.
fn tell_done<K: Sink>(alloc: Global, sink: &mut K, unstarted: u64, counts: Option<Counts>) -> u8
    ensures says { SaysOrRunsOut result 0 (K.held sink.old) (K.held sink.new) (end_text unstarted counts) }
    ensures failed { (result ≡ 0) ⊎ (result ≡ 7)
        ⊎ ((result ≡ 4) × HasRisen (K.faults sink.old) (K.faults sink.new)) }
    ensures later { K.faults sink.old ≤ K.faults sink.new }
{
    match done_text(alloc, unstarted, counts) {
        Ok(text) => end_with(sink, text.as_slice(), 0),
        Err(_) => out_of_memory(sink),
    }
}

/// Writes what the end of serving comes to, and gives its status.
fn tell_end<K: Sink>(alloc: Global, sink: &mut K, end: ServeEnd) -> u8
    ensures says { SaysEnd end result (K.held sink.old) (K.held sink.new) }
    ensures failed { result ≡ 4 → HasRisen (K.faults sink.old) (K.faults sink.new) ⊎ (end ≡ ServeEnd.JournalFault) }
    ensures link { result ≡ 6 → end ≡ ServeEnd.AcceptFault }
    ensures not_read { (result ≡ 0) ⊎ (result ≡ 4) ⊎ (result ≡ 6) ⊎ (result ≡ 7) }
    ensures later { K.faults sink.old ≤ K.faults sink.new }
{
    match end {
        ServeEnd::Done { counts, unstarted } => tell_done(alloc, sink, unstarted, Some(counts)),
        ServeEnd::StoppedBefore { unstarted, .. } => tell_done(alloc, sink, unstarted, None),
        ServeEnd::Requested { counts, unstarted } => tell_done(alloc, sink, unstarted, counts),
        ServeEnd::AcceptFault => end_with(sink, b"fault link\n", 6),
        ServeEnd::JournalFault => 4,
        ServeEnd::NoMemory => out_of_memory(sink),
    }
}

/// The status where the own journal failed, of which nothing is written, or where there was no memory for it.
fn tell_lost<K: Sink>(sink: &mut K, fault: LinkFault) -> u8
    ensures says { ((result ≡ 4) × (fault ≡ LinkFault.Failed) × (K.held sink.new ≡ K.held sink.old))
        ⊎ RanOut result (K.held sink.old) (K.held sink.new) }
    ensures failed { result ≡ 4 → fault ≡ LinkFault.Failed }
    ensures statuses { (result ≡ 4) ⊎ (result ≡ 7) }
    ensures later { K.faults sink.old ≤ K.faults sink.new }
{
    match fault {
        LinkFault::Failed => 4,
        LinkFault::NoMemory => out_of_memory(sink),
    }
}

/// The status of a hub that has ended, by whether lines of its journals were lost: 4 in place of 0, where they were.
fn status_with(are_lost: bool, said: u8) -> u8
    ensures status { result ≡ status_with are_lost said }
    ensures lost { result ≡ 4 → (said ≡ 4) ⊎ (are_lost ≡ true) }
    ensures link { result ≡ 6 → said ≡ 6 }
    ensures statuses { (result ≡ said) ⊎ (result ≡ 4) }
{
    if are_lost && said == 0 { 4 } else { said }
}

/// Limits the files of journals, where that is asked for.
fn limit_files<N: Sink, J: Journals<N>>(journals: &mut J, limit: Option<u64>)
    ensures limited { LimitedTo limit (J.limits journals.old) (J.limits journals.new) }
    ensures begun { J.calls journals.new ≡ J.calls journals.old }
    ensures unlost { J.lost journals.new ≡ J.lost journals.old }
    ensures same { J.faults journals.new ≡ J.faults journals.old }
{
    if let Some(octets) = limit {
        journals.set_limit(octets);
    }
}

/// What serving a hub of these settings is asked for.
fn terms_by(settings: &HubSettings, sessions: Option<u64>) -> ServeTerms
    ensures { result ≡ terms_by settings.now sessions }
{
    ServeTerms {
        limits: SessionLimits {
            times: settings.times(),
        },
        turns: settings.turns(),
        sessions,
    }
}

/// What is fixed of a hub of these settings.
fn about_by(settings: &HubSettings) -> About
    ensures { result ≡ record { hub = identity_of settings.now; limits = limits_of settings.now } }
{
    About {
        hub: settings.identity(),
        limits: settings.limits(),
    }
}

/// A hub by its settings, and its first pass.
fn make_hub(alloc: Global, settings: &HubSettings) -> Result<(Arc<Hub>, Pass), NoMemory>
    ensures pass { IfOk result (λ (hub, pass). IsCaller (arc_value hub) pass) }
    ensures new { IfOk result (λ (_, pass). (number_of pass ≡ 0) × (seen pass ≡ []) × (own_list pass ≡ [])
        × (ended_callers pass ≡ []) × (drawn_list pass ≡ [])) }
    ensures about { IfOk result (λ (hub, _). about_of (arc_value hub)
        ≡ record { hub = identity_of settings.now; limits = limits_of settings.now }) }
    ensures said { IfOk result (λ (hub, _). IsHubLine (hub_text (about_of (arc_value hub))) (about_of (arc_value hub))) }
    ensures identity { IfOk result (λ (hub, _). IsIdentity (about_of (arc_value hub)).hub) }
{
    let who = settings.identity();
    is_identity(&who);
    let (hub, pass) = Hub::make(alloc, who, settings.limits())?;
    Ok((Arc::new(alloc, hub)?, pass))
}

/// Puts the first line into a hub's own journal.
fn put_title<N: Sink>(alloc: Global, own: &mut N, about: About) -> Result<(), LinkFault>
    ensures put { OnOk result (Appends (N.held own.old) (N.held own.new) (hub_line about)) }
    ensures part { OnErr result (PutsPrefix (N.held own.old) (N.held own.new) (hub_line about)) }
    ensures failed { result ≡ Err LinkFault.Failed → HasRisen (N.faults own.old) (N.faults own.new) }
    ensures later { N.faults own.old ≤ N.faults own.new }
{
    let Ok(line) = hub_line(alloc, about) else {
        return Err(LinkFault::NoMemory);
    };
    match own.write(line.as_slice()) {
        Ok(()) => Ok(()),
        Err(_) => Err(LinkFault::Failed),
    }
}

/// Stops a hub that isn't served.
fn stop_alone<R: Wait>(rt: &R, hub: &Arc<Hub>, pass: &mut Pass)
    requires { IsCaller (arc_value hub.now) pass.old }
    ensures { StopsAlone (record { hub = arc_value hub.now; first = pass.old; last = pass.new }) }
{
    let here: &Hub = hub;
    let _told = here.stop(rt, pass);
}

/// Binds the port, and serves the hub. Once all is written of a hub that was served, the asker is told so.
fn serve_hub<
    R: Wait,
    K: Sink,
    C: Clock + Drop,
    L: Link + Drop,
    A: Acceptor<L>,
    N: Sink + Drop,
    J: Journals<N>,
    P: Spawner<SessionJob<L, C, N>>,
    Q: StopAsker,
>(
    made: MadeHub<'_, R>,
    asked: HubAsked<'_>,
    pass: &mut Pass,
    own: &mut N,
    sink: &mut K,
    parts: &mut ServingParts<A, C, P, J>,
    asker: &mut Q,
) -> u8
    requires can { P.can_start parts.old.spawner }
    requires pass { IsCaller (arc_value made.hub.now) pass.old }
    ensures went { (NotBound (record { hub = arc_value made.entry.hub.now; first = pass.old; last = pass.new })
        (world_by (door_by A.left A.came A.waits A.quiets A.bound A.faults) (stock_by P.jobs P.ends P.out P.faults)
        (books_by J.calls J.faults J.lost J.limits) parts.old (K.held sink.old) (asking_by Q.looks Q.asked Q.endings asker.old))
        (world_by (door_by A.left A.came A.waits A.quiets A.bound A.faults) (stock_by P.jobs P.ends P.out P.faults)
        (books_by J.calls J.faults J.lost J.limits) parts.new (K.held sink.new) (asking_by Q.looks Q.asked Q.endings asker.new)) result
        × (N.held own.new ≡ N.held own.old))
        ⊎ Bound (telling (Worked L.talk L.faults L.notices C.readings N.held N.faults) J.begins L.talk N.held N.faults)
        (record { hub = arc_value made.entry.hub.now; first = pass.old; last = pass.new })
        (terms_in asked.entry)
        (N.held own.old) (N.held own.new)
        (world_by (door_by A.left A.came A.waits A.quiets A.bound A.faults) (stock_by P.jobs P.ends P.out P.faults)
        (books_by J.calls J.faults J.lost J.limits) parts.old (K.held sink.old) (asking_by Q.looks Q.asked Q.endings asker.old))
        (world_by (door_by A.left A.came A.waits A.quiets A.bound A.faults) (stock_by P.jobs P.ends P.out P.faults)
        (books_by J.calls J.faults J.lost J.limits) parts.new (K.held sink.new) (asking_by Q.looks Q.asked Q.endings asker.new)) result }
    ensures write { result ≡ 4 → HasRisen (K.faults sink.old) (K.faults sink.new)
        ⊎ HasRisen (J.faults parts.old.journals) (J.faults parts.new.journals)
        ⊎ HasRisen (N.faults own.old) (N.faults own.new) }
    ensures link { RisesIf result 6 (A.faults parts.old.acceptor) (A.faults parts.new.acceptor) }
    ensures not_read { (result ≡ 0) ⊎ (result ≡ 4) ⊎ (result ≡ 6) ⊎ (result ≡ 7) }
    ensures writes_later { K.faults sink.old ≤ K.faults sink.new }
    ensures links_later { A.faults parts.old.acceptor ≤ A.faults parts.new.acceptor }
    ensures journals_later { J.faults parts.old.journals ≤ J.faults parts.new.journals }
    ensures unlimited { J.limits parts.new.journals ≡ J.limits parts.old.journals }
    ensures own_later { N.faults own.old ≤ N.faults own.new }
{
    let settings = asked.settings;
    match parts.acceptor.bind(settings.port(), settings.vmac) {
        Err(_) => end_with(sink, b"fault link\n", 6),
        Ok(()) => {
            let terms = terms_by(settings, asked.sessions);
            let served = ServedHub {
                rt: made.rt,
                alloc: made.alloc,
                hub: made.hub,
                terms,
                prefix: asked.prefix,
                policy: asked.policy,
            };
            let end = serve_on(served, pass, own, parts, asker);
            let are_lost = parts.journals.count_lost();
            let said = tell_end(made.alloc, sink, end);
            asker.end(&*sink);
            status_with(are_lost, said)
        }
    }
}

/// Puts the first line into the own journal, and serves the hub. Where the line isn't put, it stops the hub.
fn serve_titled<
    R: Wait,
    K: Sink,
    C: Clock + Drop,
    L: Link + Drop,
    A: Acceptor<L>,
    N: Sink + Drop,
    J: Journals<N>,
    P: Spawner<SessionJob<L, C, N>>,
    Q: StopAsker,
>(
    made: MadeHub<'_, R>,
    asked: HubAsked<'_>,
    pass: &mut Pass,
    own: &mut N,
    sink: &mut K,
    parts: &mut ServingParts<A, C, P, J>,
    asker: &mut Q,
) -> u8
    requires can { P.can_start parts.old.spawner }
    requires pass { IsCaller (arc_value made.hub.now) pass.old }
    requires about { about_of (arc_value made.hub.now)
        ≡ record { hub = identity_of asked.settings.now; limits = limits_of asked.settings.now } }
    ensures went { Titling (telling (Worked L.talk L.faults L.notices C.readings N.held N.faults) J.begins L.talk N.held N.faults)
        (record { hub = arc_value made.entry.hub.now; first = pass.old; last = pass.new })
        (terms_in asked.entry)
        own.old own.new
        (world_by (door_by A.left A.came A.waits A.quiets A.bound A.faults) (stock_by P.jobs P.ends P.out P.faults)
        (books_by J.calls J.faults J.lost J.limits) parts.old (K.held sink.old) (asking_by Q.looks Q.asked Q.endings asker.old))
        (world_by (door_by A.left A.came A.waits A.quiets A.bound A.faults) (stock_by P.jobs P.ends P.out P.faults)
        (books_by J.calls J.faults J.lost J.limits) parts.new (K.held sink.new) (asking_by Q.looks Q.asked Q.endings asker.new)) result }
    ensures write { result ≡ 4 → HasRisen (K.faults sink.old) (K.faults sink.new)
        ⊎ HasRisen (J.faults parts.old.journals) (J.faults parts.new.journals)
        ⊎ HasRisen (N.faults own.old) (N.faults own.new) }
    ensures link { RisesIf result 6 (A.faults parts.old.acceptor) (A.faults parts.new.acceptor) }
    ensures not_read { (result ≡ 0) ⊎ (result ≡ 4) ⊎ (result ≡ 6) ⊎ (result ≡ 7) }
    ensures writes_later { K.faults sink.old ≤ K.faults sink.new }
    ensures links_later { A.faults parts.old.acceptor ≤ A.faults parts.new.acceptor }
    ensures journals_later { J.faults parts.old.journals ≤ J.faults parts.new.journals }
    ensures unlimited { J.limits parts.new.journals ≡ J.limits parts.old.journals }
    ensures own_later { N.faults own.old ≤ N.faults own.new }
{
    match put_title(made.alloc, own, about_by(asked.settings)) {
        Ok(()) => serve_hub(made, asked, pass, own, sink, parts, asker),
        Err(fault) => {
            stop_alone(made.rt, made.hub, pass);
            tell_lost(sink, fault)
        }
    }
}

/// Begins the own journal, and serves the hub with it. Where it can't be begun, it stops the hub.
fn serve_begun<
    R: Wait,
    K: Sink,
    C: Clock + Drop,
    L: Link + Drop,
    A: Acceptor<L>,
    N: Sink + Drop,
    J: Journals<N>,
    P: Spawner<SessionJob<L, C, N>>,
    Q: StopAsker,
>(
    made: MadeHub<'_, R>,
    asked: HubAsked<'_>,
    pass: &mut Pass,
    own: &mut Option<N>,
    sink: &mut K,
    parts: &mut ServingParts<A, C, P, J>,
    asker: &mut Q,
) -> u8
    requires can { P.can_start parts.old.spawner }
    requires pass { IsCaller (arc_value made.hub.now) pass.old }
    requires about { about_of (arc_value made.hub.now)
        ≡ record { hub = identity_of asked.settings.now; limits = limits_of asked.settings.now } }
    requires own { own.old ≡ None }
    ensures went { Unbegun (record { hub = arc_value made.entry.hub.now; first = pass.old; last = pass.new }) (terms_in asked.entry) own.new
        (world_by (door_by A.left A.came A.waits A.quiets A.bound A.faults) (stock_by P.jobs P.ends P.out P.faults)
        (books_by J.calls J.faults J.lost J.limits) parts.old (K.held sink.old) (asking_by Q.looks Q.asked Q.endings asker.old))
        (world_by (door_by A.left A.came A.waits A.quiets A.bound A.faults) (stock_by P.jobs P.ends P.out P.faults)
        (books_by J.calls J.faults J.lost J.limits) parts.new (K.held sink.new) (asking_by Q.looks Q.asked Q.endings asker.new)) result
        ⊎ Begun (telling (Worked L.talk L.faults L.notices C.readings N.held N.faults) J.begins L.talk N.held N.faults)
        (record { hub = arc_value made.entry.hub.now; first = pass.old; last = pass.new })
        (terms_in asked.entry)
        own.new
        (world_by (door_by A.left A.came A.waits A.quiets A.bound A.faults) (stock_by P.jobs P.ends P.out P.faults)
        (books_by J.calls J.faults J.lost J.limits) parts.old (K.held sink.old) (asking_by Q.looks Q.asked Q.endings asker.old))
        (world_by (door_by A.left A.came A.waits A.quiets A.bound A.faults) (stock_by P.jobs P.ends P.out P.faults)
        (books_by J.calls J.faults J.lost J.limits) parts.new (K.held sink.new) (asking_by Q.looks Q.asked Q.endings asker.new)) result }
    ensures write { result ≡ 4 → HasRisen (K.faults sink.old) (K.faults sink.new)
        ⊎ HasRisen (J.faults parts.old.journals) (J.faults parts.new.journals) ⊎ HasFailed N.faults own.new }
    ensures link { RisesIf result 6 (A.faults parts.old.acceptor) (A.faults parts.new.acceptor) }
    ensures not_read { (result ≡ 0) ⊎ (result ≡ 4) ⊎ (result ≡ 6) ⊎ (result ≡ 7) }
    ensures writes_later { K.faults sink.old ≤ K.faults sink.new }
    ensures links_later { A.faults parts.old.acceptor ≤ A.faults parts.new.acceptor }
    ensures journals_later { J.faults parts.old.journals ≤ J.faults parts.new.journals }
    ensures unlimited { J.limits parts.new.journals ≡ J.limits parts.old.journals }
{
    let alloc = made.alloc;
    match parts.journals.begin(alloc, asked.prefix, pass.number()) {
        Ok(begun) => {
            let mut begun = begun;
            let status = serve_titled(made, asked, pass, &mut begun, sink, parts, asker);
            *own = Some(begun);
            status
        }
        Err(fault) => {
            stop_alone(made.rt, made.hub, pass);
            tell_lost(sink, fault)
        }
    }
}

/// Makes the hub of the settings, puts it and its first pass into the place, begins the journal of that pass and puts it
/// there too, binds the port, serves the hub until its sessions have ended or the stop is asked for, and writes what it comes to;
/// then the asker is told of the end. Where the own journal fails, the hub is stopped, and the status is 4.
pub fn serve<
    R: Wait,
    K: Sink,
    C: Clock + Drop,
    L: Link + Drop,
    A: Acceptor<L>,
    N: Sink + Drop,
    J: Journals<N>,
    P: Spawner<SessionJob<L, C, N>>,
    Q: StopAsker,
>(
    rt: &R,
    alloc: Global,
    asked: HubAsked<'_>,
    place: &mut HubPlace<N>,
    sink: &mut K,
    parts: &mut ServingParts<A, C, P, J>,
    asker: &mut Q,
) -> u8
    requires can { P.can_start parts.old.spawner }
    requires kept { place.old.kept.hub ≡ None }
    requires own { place.old.own ≡ None }

    // Once a hub is made, it, its pass and its journal are kept, and this is what became of it.
    ensures runs { (hub : _) → place.new.kept.hub ≡ Some hub →
        HubRuns (telling (Worked L.talk L.faults L.notices C.readings N.held N.faults) J.begins L.talk N.held N.faults)
        (terms_in asked.entry) place.new
        (world_by (door_by A.left A.came A.waits A.quiets A.bound A.faults) (stock_by P.jobs P.ends P.out P.faults)
        (books_by J.calls J.faults J.lost J.limits) parts.old (K.held sink.old) (asking_by Q.looks Q.asked Q.endings asker.old))
        (world_by (door_by A.left A.came A.waits A.quiets A.bound A.faults) (stock_by P.jobs P.ends P.out P.faults)
        (books_by J.calls J.faults J.lost J.limits) parts.new (K.held sink.new) (asking_by Q.looks Q.asked Q.endings asker.new)) result }

    // Where none is made there was no memory, and nothing was touched but the sink.
    ensures unmade { place.new.kept.hub ≡ None → RanOut result (K.held sink.old) (K.held sink.new) }
    ensures untouched { place.new.kept.hub ≡ None → (place.new ≡ place.old) × (parts.new ≡ parts.old) × (asker.new ≡ asker.old) }

    // A failed write is told only where the count of the sink or of the journals rose, or where the own journal has failed.
    ensures write { result ≡ 4 → HasRisen (K.faults sink.old) (K.faults sink.new)
        ⊎ HasRisen (J.faults parts.old.journals) (J.faults parts.new.journals) ⊎ HasFailed N.faults place.new.own }
    ensures link { RisesIf result 6 (A.faults parts.old.acceptor) (A.faults parts.new.acceptor) }
    ensures not_read { (result ≡ 0) ⊎ (result ≡ 4) ⊎ (result ≡ 6) ⊎ (result ≡ 7) }
    ensures writes_later { K.faults sink.old ≤ K.faults sink.new }
    ensures links_later { A.faults parts.old.acceptor ≤ A.faults parts.new.acceptor }
    ensures journals_later { J.faults parts.old.journals ≤ J.faults parts.new.journals }
{
    let Ok((hub, pass)) = make_hub(alloc, asked.settings) else {
        return out_of_memory(sink);
    };
    let mut pass = pass;
    limit_files(&mut parts.journals, asked.limit);
    let status = serve_begun(
        MadeHub {
            rt,
            alloc,
            hub: &hub,
        },
        asked,
        &mut pass,
        &mut place.own,
        sink,
        parts,
        asker,
    );
    place.kept.hub = Some(hub);
    place.kept.pass = Some(pass);
    status
}
