//! The command over a file of settings.
ghost use Rattle.std.specs.Prelude.{◌≡◌, ◌≤◌, ◌⊎◌, ℕ, Err, IfErr, IfOk, None, Option, Some, option_map};
ghost use Rattle.bsc_edge.specs.declared.fault.FileFault.{FileFault};
ghost use Rattle.bsc_edge.specs.Asked.{GaveFile, ReadsOnce};
ghost use Rattle.bsc_outside.specs.Faults.{HasRisen};
ghost use Rattle.bsc_player.specs.Faults.{RisesIf};
ghost use Rattle.bsc_player.specs.LastLines.{RanOut, SaysOrRunsOut};
ghost use Rattle.bsc_policy.specs.declared.policy.Policy.{Policy as PolicyType};
ghost use Rattle.bsc_session.specs.Jobs.{Worked, policy_of};
ghost use Rattle.bsc_serve.specs.Asking.{asking_by};
ghost use Rattle.bsc_settings.specs.declared.hub.HubSettings.{HubSettings as HubSettingsType};
ghost use Rattle.bsc_hub_command.specs.Lines.{settings_line};
ghost use Rattle.bsc_hub_command.specs.Served.{HasFailed, HubRuns, books_by, door_by, stock_by, telling, world_by};
ghost use Rattle.bsc_hub_command.specs.Settled.{IsSettled, Unsettled};

use crate::asked::HubAsked;
use crate::place::HubPlace;
use crate::serving::serve;
use crate::settled::HubSettled;
use crate::texts::settings_text;
use crate::words::HubWords;
use bsc_edge::{Acceptor, Clock, FileFault, Files, Journals, Link, Spawner};
use bsc_octets::Octets;
use bsc_outside::Sink;
use bsc_player::{end_with, out_of_memory};
use bsc_serve::{ServingParts, StopAsker};
use bsc_session::SessionJob;
use bsc_settings::{SettingFault, Settings, read_settings};
use std::alloc::Global;
use std::sync::Wait;

/// Ends a run whose settings are refused.
fn refuse<K: Sink>(alloc: Global, sink: &mut K, name: &str) -> u8
    ensures says { SaysOrRunsOut result 5 (K.held sink.old) (K.held sink.new) (settings_line name.now) }
    ensures failed { (result ≡ 5) ⊎ (result ≡ 7)
        ⊎ ((result ≡ 4) × HasRisen (K.faults sink.old) (K.faults sink.new)) }
    ensures later { K.faults sink.old ≤ K.faults sink.new }
{
    match settings_text(alloc, name) {
        Ok(text) => end_with(sink, text.as_slice(), 5),
        Err(_) => out_of_memory(sink),
    }
}

/// The octets of the file at a path, which is read once, and no other.
fn read_file<F: Files>(alloc: Global, files: &mut F, path: &str) -> Result<Octets, FileFault>
    ensures gave { IfOk result (λ o. GaveFile F.holds F.loads files.old files.new path.now o) }
    ensures once { ReadsOnce (F.loads files.old) (F.loads files.new) path.now }
    ensures later { F.faults files.old ≤ F.faults files.new }
    ensures failed { result ≡ Err FileFault.Failed → HasRisen (F.faults files.old) (F.faults files.new) }
{
    files.load(alloc, path)
}

/// The octets of the file of settings, or the status of a run that ends without them.
pub(crate) fn load_text<K: Sink, F: Files>(
    alloc: Global,
    path: &str,
    files: &mut F,
    sink: &mut K,
) -> Result<Octets, u8>
    ensures gave { IfOk result (λ o. GaveFile F.holds F.loads files.old files.new path.now o × (K.held sink.new ≡ K.held sink.old)) }
    ensures unread { IfErr result (λ s. Unsettled (GaveFile F.holds F.loads files.old files.new path.now) (F.faults files.old) (F.faults files.new) s
        (K.held sink.old) (K.held sink.new)) }
    ensures once { ReadsOnce (F.loads files.old) (F.loads files.new) path.now }
    ensures read { IfErr result (λ s. RisesIf s 3 (F.faults files.old) (F.faults files.new)) }
    ensures write { IfErr result (λ s. RisesIf s 4 (K.faults sink.old) (K.faults sink.new)) }
    ensures other { IfErr result (λ s. (s ≡ 3) ⊎ (s ≡ 4) ⊎ (s ≡ 7)) }
    ensures writes_later { K.faults sink.old ≤ K.faults sink.new }
{
    match read_file(alloc, files, path) {
        Ok(text) => Ok(text),
        Err(FileFault::Failed) => Err(end_with(sink, b"fault read\n", 3)),
        Err(FileFault::NoMemory) => Err(out_of_memory(sink)),
    }
}

/// The settings of a hub and the policy in them that a text says, or the status of a run that ends without them.
pub(crate) fn settle<K: Sink>(alloc: Global, text: &[u8], sink: &mut K) -> Result<HubSettled, u8>
    ensures settled { IfOk result (λ v. IsSettled (λ o. o ≡ text.now) v.hub (policy_of v.policy) × (K.held sink.new ≡ K.held sink.old)) }
    ensures unsettled { (f f' : ℕ) → IfErr result (λ s. Unsettled (λ o. o ≡ text.now) f f' s (K.held sink.old) (K.held sink.new)) }
    ensures write { IfErr result (λ s. RisesIf s 4 (K.faults sink.old) (K.faults sink.new)) }
    ensures other { IfErr result (λ s. (s ≡ 4) ⊎ (s ≡ 5) ⊎ (s ≡ 7)) }
    ensures writes_later { K.faults sink.old ≤ K.faults sink.new }
{
    match read_settings(alloc, text) {
        Ok(settings) => {
            let Settings { hub, policy, .. } = settings;
            match hub {
                Some(hub) => Ok(HubSettled { hub, policy }),
                None => Err(refuse(alloc, sink, "hub")),
            }
        }
        Err(SettingFault::NotToml) => Err(refuse(alloc, sink, "-")),
        Err(SettingFault::Key { name }) => Err(refuse(alloc, sink, name.text())),
        Err(SettingFault::NoMemory) => Err(out_of_memory(sink)),
    }
}

/// The settings of a hub and the policy in them, or the status of a run that ends without them.
fn load<K: Sink, F: Files>(
    alloc: Global,
    path: &str,
    files: &mut F,
    sink: &mut K,
) -> Result<HubSettled, u8>
    ensures settled { IfOk result (λ v. IsSettled (GaveFile F.holds F.loads files.old files.new path.now) v.hub (policy_of v.policy) × (K.held sink.new ≡ K.held sink.old)) }
    ensures unsettled { IfErr result (λ s. Unsettled (GaveFile F.holds F.loads files.old files.new path.now) (F.faults files.old) (F.faults files.new) s
        (K.held sink.old) (K.held sink.new)) }
    ensures once { ReadsOnce (F.loads files.old) (F.loads files.new) path.now }
    ensures read { IfErr result (λ s. RisesIf s 3 (F.faults files.old) (F.faults files.new)) }
    ensures write { IfErr result (λ s. RisesIf s 4 (K.faults sink.old) (K.faults sink.new)) }
    ensures other { IfErr result (λ s. (s ≡ 3) ⊎ (s ≡ 4) ⊎ (s ≡ 5) ⊎ (s ≡ 7)) }
    ensures writes_later { K.faults sink.old ≤ K.faults sink.new }
{
    match load_text(alloc, path, files, sink) {
        Ok(text) => settle(alloc, text.as_slice(), sink),
        Err(status) => Err(status),
    }
}

/// Runs the command `hub`: loads its settings, and serves the hub.
pub fn run_hub<
    R: Wait,
    K: Sink,
    F: Files,
    C: Clock + Drop,
    L: Link + Drop,
    A: Acceptor<L>,
    N: Sink + Drop,
    J: Journals<N>,
    P: Spawner<SessionJob<L, C, N>>,
    Q: StopAsker,
>(
    rt: &R,
    alloc: Global,
    words: HubWords<'_>,
    files: &mut F,
    place: &mut HubPlace<N>,
    sink: &mut K,
    parts: &mut ServingParts<A, C, P, J>,
    asker: &mut Q,
) -> u8
    requires can { P.can_start parts.old.spawner }
    requires kept { place.old.kept.hub ≡ None }
    requires own { place.old.own ≡ None }

    // The file of settings was read, and no other.
    ensures once { ReadsOnce (F.loads files.old) (F.loads files.new) words.entry.path.now }

    // Once a hub is made, its settings are those that the file gave, and this is what became of it.
    ensures runs { (hub : _) → place.new.kept.hub ≡ Some hub → (v : HubSettingsType) × (policy : Option PolicyType)
        × IsSettled (GaveFile F.holds F.loads files.old files.new words.entry.path.now) v policy
        × HubRuns (telling (Worked L.talk L.faults L.notices C.readings N.held N.faults) J.begins L.talk N.held N.faults)
        (record { settings = v; policy = policy; sessions = words.entry.sessions; prefix = option_map (λ p. p.now) words.entry.journal; limit = words.entry.limit })
        place.new
        (world_by (door_by A.left A.came A.waits A.quiets A.bound A.faults) (stock_by P.jobs P.ends P.out P.faults)
        (books_by J.calls J.faults J.lost J.limits) parts.old (K.held sink.old) (asking_by Q.looks Q.asked Q.endings asker.old))
        (world_by (door_by A.left A.came A.waits A.quiets A.bound A.faults) (stock_by P.jobs P.ends P.out P.faults)
        (books_by J.calls J.faults J.lost J.limits) parts.new (K.held sink.new) (asking_by Q.looks Q.asked Q.endings asker.new)) result }

    // Where none is made, the file wasn't read, its settings were refused, or memory ran out; and nothing was touched but the
    // files and the sink, the asker neither.
    ensures unmade { place.new.kept.hub ≡ None →
        Unsettled (GaveFile F.holds F.loads files.old files.new words.entry.path.now) (F.faults files.old) (F.faults files.new)
        result (K.held sink.old) (K.held sink.new) }
    ensures untouched { place.new.kept.hub ≡ None → (place.new ≡ place.old) × (parts.new ≡ parts.old) × (asker.new ≡ asker.old) }
    ensures read { RisesIf result 3 (F.faults files.old) (F.faults files.new) }
    ensures write { result ≡ 4 → HasRisen (K.faults sink.old) (K.faults sink.new)
        ⊎ HasRisen (J.faults parts.old.journals) (J.faults parts.new.journals) ⊎ HasFailed N.faults place.new.own }
    ensures link { RisesIf result 6 (A.faults parts.old.acceptor) (A.faults parts.new.acceptor) }
    ensures statuses { (result ≡ 0) ⊎ (result ≡ 3) ⊎ (result ≡ 4) ⊎ (result ≡ 5) ⊎ (result ≡ 6) ⊎ (result ≡ 7) }
{
    match load(alloc, words.path, files, sink) {
        Ok(settings) => serve(
            rt,
            alloc,
            HubAsked {
                settings: &settings.hub,
                policy: &settings.policy,
                sessions: words.sessions,
                prefix: words.journal,
                limit: words.limit,
            },
            place,
            sink,
            parts,
            asker,
        ),
        Err(status) => status,
    }
}
