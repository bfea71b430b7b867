//! What the program does.
ghost use Rattle.std.specs.Prelude.{option_map, ◌≡◌, ◌≢◌, ◌≤◌, ◌⊎◌, ◌++◌, ◌∷◌, [], ℕ, List, Option, None, Some, Ok, false, map};
ghost use Rattle.clap.specs.Words.{Text};
ghost use Rattle.bsc_edge.specs.Asked.{GaveFile, ReadsFirstOf};
ghost use Rattle.bsc_outside.specs.Faults.{HasRisen, PutsPrefix};
ghost use Rattle.bsc_player.specs.Faults.{RisesIf};
ghost use Rattle.bsc_player.specs.LastLines.{EndsWith, RanOut, words_line};
ghost use Rattle.bsc_player.specs.Statuses.{StatusSays, StatusSaysOfReads, play_world, read_world};
ghost use Rattle.bsc_text.specs.Gave.{OfReads};
ghost use Rattle.bsc_script.specs.Scripts.{replay_of};
ghost use Rattle.bsc_replay.specs.Checks.{check_of};
ghost use Rattle.bsc_network_script.specs.Scripts.{simulate_of};
ghost use Rattle.bsc_audit_command.specs.Audits.{RunsAudit};
ghost use Rattle.bsc_policy.specs.declared.policy.Policy.{Policy};
ghost use Rattle.bsc_settings.specs.declared.hub.HubSettings.{HubSettings};
ghost use Rattle.bsc_session.specs.Jobs.{Worked};
ghost use Rattle.bsc_serve.specs.Asking.{asking_by};
ghost use Rattle.bsc_hub_command.specs.Served.{HasFailed, HubRuns, books_by, door_by, stock_by, telling, world_by};
ghost use Rattle.bsc_hub_command.specs.Settled.{IsSettled, Unsettled};
ghost use Rattle.bsc_hub_command.specs.Tested.{TestsHub};
ghost use Rattle.bsc_commands.specs.Load.Loaded.{RunsLoad};
ghost use Rattle.bsc_node_command.specs.Comes.{RunsFiles, acceptor_world, node_world};
ghost use Rattle.bsc_node_command.specs.Lives.{RunsLive, lines_world, live_world};
ghost use Rattle.bsc_node_command.specs.Tested.{TestsNode};
ghost use Rattle.bsc_live_lines.specs.Ending.{EndWasTaken};
ghost use Rattle.bsc_node_run.specs.declared.due.Due.{Due};
ghost use Rattle.bsc_node_run.specs.Drawing.{Draws};
ghost use Rattle.bsc_node_run.specs.Scripts.{script_of, wish_of};
ghost use Rattle.bsc_node_run.specs.Worlds.{dialling};
ghost use Rattle.bsc_node_laws.specs.Courses.{FinishCame};
ghost use Rattle.bsc_cli.specs.declared.fault.WordsFault.TheVariants as words_fault;
ghost use Rattle.bsc_cli.specs.Read.{asked_in};
ghost use Rattle.bsc_cli.specs.Words.{JournalsOf, audit, check, hub, limit_in, live_node, load, node, prefix_in, replay, said_journals, seen, simulate};
ghost use Rattle.bsc_cli.specs.Words.{test_hub, test_node};
ghost use Rattle.bsc_commands.specs.Commands.{WritesWhatWasSent};
ghost use Rattle.bsc_commands.specs.Ends.{CutShort, EndsBy, LeavesAsker, LeavesLines, TouchesOnly};

use crate::load::run_load;
use crate::outside::Outside;
use crate::playing::{Command, play};
use bsc_audit_command::run_audit;
use bsc_cli::{Asked, JournalWords, ReadWords, WordsFault};
use bsc_edge::{Acceptor, Clock, Dialer, Files, Journals, Link, Spawner, Waiter};
use bsc_hub_command::{HubWords, run_hub, test_hub};
use bsc_input::LiveInput;
use bsc_live_lines::{LiveLines, Refusals};
use bsc_node_command::{NodeWords, run_live_file, run_node_files, test_node};
use bsc_node_run::Words;
use bsc_outside::{Sink, Source};
use bsc_player::{end_with, out_of_memory};
use bsc_serve::StopAsker;
use bsc_session::SessionJob;
use std::alloc::Global;
use std::sync::Wait;
use std::thread::Threads;

/// Ends a run whose words say no command.
fn end_unasked<K: Sink>(sink: &mut K, fault: WordsFault) -> u8
    ensures refused { fault ≡ words_fault.Refused → EndsWith result 1 (K.held sink.old) (K.held sink.new) words_line }
    ensures ran_out { fault ≡ words_fault.NoMemory → RanOut result (K.held sink.old) (K.held sink.new) }
    ensures write { RisesIf result 4 (K.faults sink.old) (K.faults sink.new) }
    ensures statuses { (result ≡ 1) ⊎ (result ≡ 4) ⊎ (result ≡ 7) }
    ensures cause { result ≡ 1 → fault ≡ words_fault.Refused }
{
    match fault {
        WordsFault::Refused => end_with(sink, b"fault words\n", 1),
        WordsFault::NoMemory => out_of_memory(sink),
    }
}

/// The prefix of journals, where there are some.
fn prefix_in<'a>(journals: Option<JournalWords<'a>>) -> Option<&'a str>
    ensures { option_map (λ p. p.now) result ≡ prefix_in (option_map said_journals journals.entry) }
{
    match journals {
        Some(journals) => Some(journals.prefix),
        None => None,
    }
}

/// To how many octets their files are limited, if they are.
fn limit_in(journals: Option<JournalWords<'_>>) -> Option<u64>
    ensures { result ≡ limit_in (option_map said_journals journals.entry) }
{
    match journals {
        Some(journals) => journals.limit,
        None => None,
    }
}

/// Runs the program by its words, as they were read, and answers its status: serves a hub, which the asker may stop, runs a node
/// or a workload, tries settings, or plays or audits the source. The lines are those that a node may be asked by as they come.
///
/// | status | cause | last line written |
/// |---|---|---|
/// | 0 | the input was read to its end and its text was written; the sessions of the hub, the node, or all workers have ended; the stop of the hub was asked for | none of its own |
/// | 0 | the journals tell a legal history of n entries | `legal n` |
/// | 0 | the settings that are tried are good, and are written | none of its own |
/// | 1 | the words are no command | `fault words` |
/// | 2 | line n of the input, or of the node's script, is refused | `fault script line n` |
/// | 3 | a read of the source, of the settings, or of the node's script or lines failed | `fault read` |
/// | 4 | a write to the sink failed, also one of a last line; a journal of a hub couldn't be begun, or a write into the hub's own failed; lines of journals were lost | none of its own |
/// | 5 | the settings are refused for this key | `fault settings KEY` |
/// | 6 | the port can't be bound, or the acceptor failed | `fault link` |
/// | 7 | memory ran out | `fault memory`, tried once |
/// | 8 | the node made as many turns as its settings allow | `fault turns` |
/// | 9 | workers of a workload were cut short | `fault load` |
/// | 10 | no legal history of one hub: n hub lines; place p twice, or missing; the entry at p isn't legal | `hubs n`, `twice p`, `missing p`, `illegal p` |
pub fn run<
    R: Threads + Wait + Sync,
    S: Source,
    K: Sink,
    F: Files,
    C: Clock + Drop,
    V: Waiter,
    W: Words,
    L: Link + Drop,
    A: Acceptor<L>,
    D: Dialer<L>,
    N: Sink + Drop,
    J: Journals<N>,
    P: Spawner<SessionJob<L, C, N>>,
    Q: StopAsker,
    I: LiveInput + Drop,
    T: Refusals + Drop,
>(
    rt: &R,
    alloc: Global,
    read: &ReadWords<'_>,
    outside: &mut Outside<S, K, F, C, V, W, A, D, N, J, P>,
    asker: &mut Q,
    lines: &mut LiveLines<I, T>,
) -> u8
    requires can { P.can_start outside.old.parts.spawner }
    requires kept { outside.old.place.kept.hub ≡ None }
    requires own { outside.old.place.own ≡ None }

    // Of the words of a hub: once it is made, its settings and its policy are those of the file, and this is what became of it and
    // of its own journal, with journals under the prefix of the words, and their files limited as these say. It was stopped on request only where the asker asked.
    ensures hub { (path : Text) (sessions : Option ℕ) (journal : Option JournalsOf) (stop_file : Option Text) (made : _) →
        asked_in read.now ≡ Some (hub path sessions journal stop_file) → outside.new.place.kept.hub ≡ Some made →
        (v : HubSettings) × (policy : Option Policy) × IsSettled (GaveFile F.holds F.loads outside.old.files outside.new.files path) v policy
        × HubRuns (telling (Worked L.talk L.faults L.notices C.readings N.held N.faults) J.begins L.talk N.held N.faults)
        (record { settings = v; policy = policy; sessions = sessions; prefix = prefix_in journal; limit = limit_in journal })
        outside.new.place
        (world_by (door_by A.left A.came A.waits A.quiets A.bound A.faults) (stock_by P.jobs P.ends P.out P.faults)
        (books_by J.calls J.faults J.lost J.limits) outside.old.parts (K.held outside.old.sink) (asking_by Q.looks Q.asked Q.endings asker.old))
        (world_by (door_by A.left A.came A.waits A.quiets A.bound A.faults) (stock_by P.jobs P.ends P.out P.faults)
        (books_by J.calls J.faults J.lost J.limits) outside.new.parts (K.held outside.new.sink) (asking_by Q.looks Q.asked Q.endings asker.new))
        result }
    ensures no_hub { (path : Text) (sessions : Option ℕ) (journal : Option JournalsOf) (stop_file : Option Text) →
        asked_in read.now ≡ Some (hub path sessions journal stop_file) → outside.new.place.kept.hub ≡ None →
        Unsettled (GaveFile F.holds F.loads outside.old.files outside.new.files path) (F.faults outside.old.files) (F.faults outside.new.files) result
        (K.held outside.old.sink) (K.held outside.new.sink) }
    ensures no_hub_untouched { (path : Text) (sessions : Option ℕ) (journal : Option JournalsOf) (stop_file : Option Text) →
        asked_in read.now ≡ Some (hub path sessions journal stop_file) → outside.new.place.kept.hub ≡ None →
        (outside.new.place ≡ outside.old.place) × (outside.new.parts ≡ outside.old.parts) }

    // Of the words of a node: what became of it, by its settings and its script as they were in their files.
    ensures node { (path script : Text) → asked_in read.now ≡ Some (node path script) →
        RunsFiles L.talk (Draws W.gives W.faults)
        (record {
          settings = GaveFile F.holds F.loads outside.old.files outside.new.files path;
          script = GaveFile F.holds F.loads outside.old.files outside.new.files script;
        })
        (record {
          unread = F.faults outside.old.files;
          beside = node_world (dialling D.calls D.left D.came D.faults) V.waits outside.old.node
              (acceptor_world A.left A.came A.waits A.bound A.faults outside.old.parts.acceptor) (C.readings outside.old.parts.clock) (K.held outside.old.sink);
        })
        (record {
          unread = F.faults outside.new.files;
          beside = node_world (dialling D.calls D.left D.came D.faults) V.waits outside.new.node
              (acceptor_world A.left A.came A.waits A.bound A.faults outside.new.parts.acceptor) (C.readings outside.new.parts.clock) (K.held outside.new.sink);
        }) result }

    // Status 0 comes of the words of a node only once the time of its script's `finish` has passed, from the first reading of
    // the clock to the last.
    ensures finished { (path script : Text) → asked_in read.now ≡ Some (node path script) → result ≡ 0 →
        (o : List ℕ) × GaveFile F.holds F.loads outside.old.files outside.new.files script o
        × (lines : List Due) × (script_of o ≡ Ok (map wish_of lines))
        × FinishCame lines (C.readings outside.old.parts.clock) (C.readings outside.new.parts.clock) }

    // Of the words of a node that is asked by lines: what became of it, by its settings as they were in their file, and by the lines
    // that were taken.
    ensures live_node { (path : Text) → asked_in read.now ≡ Some (live_node path) →
        RunsLive L.talk (Draws W.gives W.faults) (GaveFile F.holds F.loads outside.old.files outside.new.files path)
        (F.faults outside.old.files) (F.faults outside.new.files)
        (live_world (node_world (dialling D.calls D.left D.came D.faults) V.waits outside.old.node
        (acceptor_world A.left A.came A.waits A.bound A.faults outside.old.parts.acceptor) (C.readings outside.old.parts.clock) (K.held outside.old.sink))
        (lines_world (I.taken lines.old.lines.inbox) lines.old.answers.items (T.told lines.old.lines.reading.teller) (I.failed lines.old.lines.inbox)))
        (live_world (node_world (dialling D.calls D.left D.came D.faults) V.waits outside.new.node
        (acceptor_world A.left A.came A.waits A.bound A.faults outside.new.parts.acceptor) (C.readings outside.new.parts.clock) (K.held outside.new.sink))
        (lines_world (I.taken lines.new.lines.inbox) lines.new.answers.items (T.told lines.new.lines.reading.teller) (I.failed lines.new.lines.inbox))) result }

    // Status 0 comes of these only where a line that asks the node to end was taken, or the end of an input that was read to it.
    ensures live_finished { (path : Text) → asked_in read.now ≡ Some (live_node path) → result ≡ 0 →
        EndWasTaken (I.taken lines.new.lines.inbox) × (I.failed lines.new.lines.inbox ≡ false) }

    // The files that these words name were read, each once and in their order, up to the first that wasn't good, and no other.
    ensures hub_read { (path : Text) (sessions : Option ℕ) (journal : Option JournalsOf) (stop_file : Option Text) → asked_in read.now ≡ Some (hub path sessions journal stop_file) →
        ReadsFirstOf (F.loads outside.old.files) (F.loads outside.new.files) (path ∷ []) }
    ensures node_read { (path script : Text) → asked_in read.now ≡ Some (node path script) →
        ReadsFirstOf (F.loads outside.old.files) (F.loads outside.new.files) (path ∷ script ∷ []) }
    ensures live_read { (path : Text) → asked_in read.now ≡ Some (live_node path) →
        ReadsFirstOf (F.loads outside.old.files) (F.loads outside.new.files) (path ∷ []) }

    // Of the words that try settings, what is written of these: of each its value and whether that is the default, where they are good.
    ensures hub_tested { (path : Text) → asked_in read.now ≡ Some (test_hub path) →
        TestsHub (GaveFile F.holds F.loads outside.old.files outside.new.files path) (F.faults outside.old.files) (F.faults outside.new.files) result
        (K.held outside.old.sink) (K.held outside.new.sink) }
    ensures node_tested { (path script : Text) → asked_in read.now ≡ Some (test_node path script) →
        TestsNode
        (record {
          settings = GaveFile F.holds F.loads outside.old.files outside.new.files path;
          script = GaveFile F.holds F.loads outside.old.files outside.new.files script;
        })
        (record { unread = F.faults outside.old.files; written = K.held outside.old.sink })
        (record { unread = F.faults outside.new.files; written = K.held outside.new.sink }) result }
    ensures hub_test_read { (path : Text) → asked_in read.now ≡ Some (test_hub path) →
        ReadsFirstOf (F.loads outside.old.files) (F.loads outside.new.files) (path ∷ []) }
    ensures node_test_read { (path script : Text) → asked_in read.now ≡ Some (test_node path script) →
        ReadsFirstOf (F.loads outside.old.files) (F.loads outside.new.files) (path ∷ script ∷ []) }

    // Of the words of a workload: once its hub is made, this is what became of it; else memory ran out.
    ensures load { (n : ℕ) (made : _) → asked_in read.now ≡ Some (load n) → outside.new.place.kept.hub ≡ Some made →
        RunsLoad n outside.new.place.kept made result (K.held outside.old.sink) (K.held outside.new.sink) }
    ensures no_load { (n : ℕ) → asked_in read.now ≡ Some (load n) → outside.new.place.kept.hub ≡ None →
        RanOut result (K.held outside.old.sink) (K.held outside.new.sink) }

    // Of the words of a command that plays its input, what the status says of that: what was read, and what was written.
    ensures replayed { asked_in read.now ≡ Some replay → StatusSays replay_of
        (play_world S.left S.faults K.held outside.old.source outside.old.sink)
        (play_world S.left S.faults K.held outside.new.source outside.new.sink) result }
    ensures simulated { asked_in read.now ≡ Some simulate → StatusSays simulate_of
        (play_world S.left S.faults K.held outside.old.source outside.old.sink)
        (play_world S.left S.faults K.held outside.new.source outside.new.sink) result }

    // Of the words of a network: each delivery that is written comes from the Send at its place, and no two are of one Send and
    // to one node.
    ensures delivered { (o t : List ℕ) → asked_in read.now ≡ Some simulate →
        S.left outside.old.source ≡ Some o → K.held outside.old.sink ≡ Some t →
        WritesWhatWasSent o t (K.held outside.new.sink) }
    ensures checked { asked_in read.now ≡ Some check → StatusSays check_of
        (play_world S.left S.faults K.held outside.old.source outside.old.sink)
        (play_world S.left S.faults K.held outside.new.source outside.new.sink) result }

    // The same of what the reads of the source gave and of whatever is left behind it, which is nothing where a read found the
    // end: no source can tell what is still to come.
    ensures replayed_reads { asked_in read.now ≡ Some replay → StatusSaysOfReads replay_of
        (read_world S.reads S.faults K.held outside.old.source outside.old.sink)
        (read_world S.reads S.faults K.held outside.new.source outside.new.sink) result }
    ensures simulated_reads { asked_in read.now ≡ Some simulate → StatusSaysOfReads simulate_of
        (read_world S.reads S.faults K.held outside.old.source outside.old.sink)
        (read_world S.reads S.faults K.held outside.new.source outside.new.sink) result }
    ensures delivered_reads { (t : List ℕ) → asked_in read.now ≡ Some simulate → K.held outside.old.sink ≡ Some t →
        OfReads (S.reads outside.old.source) (S.reads outside.new.source)
        (λ o rest. WritesWhatWasSent o t (K.held outside.new.sink)) }
    ensures checked_reads { asked_in read.now ≡ Some check → StatusSaysOfReads check_of
        (read_world S.reads S.faults K.held outside.old.source outside.old.sink)
        (read_world S.reads S.faults K.held outside.new.source outside.new.sink) result }
    ensures audited_reads { asked_in read.now ≡ Some audit → OfReads (S.reads outside.old.source) (S.reads outside.new.source)
        (λ o rest. RunsAudit o (Some rest) result (K.held outside.old.sink) (K.held outside.new.sink)) }

    // Of the words of an audit, what it answered of the source's octets, and what was written of that.
    ensures audited { (o : List ℕ) → asked_in read.now ≡ Some audit → S.left outside.old.source ≡ Some o →
        RunsAudit o (S.left outside.new.source) result (K.held outside.old.sink) (K.held outside.new.sink) }

    // Where the words ask for nothing, the last line that is written is that of the words, or there was no memory to read them.
    ensures other_words { asked_in read.now ≡ None →
        EndsWith result 1 (K.held outside.old.sink) (K.held outside.new.sink) words_line
        ⊎ RanOut result (K.held outside.old.sink) (K.held outside.new.sink) }

    // What the command that is asked for doesn't use is as it was: all, where none is; the asker, but where a hub is made; and the
    // lines, but of a node that they ask. Only its own statuses come of it; status 1 of words that ask for nothing alone.
    ensures untouched { TouchesOnly (asked_in read.now) outside.old outside.new }
    ensures unasked { LeavesAsker (asked_in read.now) outside.new.place.kept.hub asker.old asker.new }
    ensures unheard { LeavesLines (asked_in read.now) lines.old lines.new }
    ensures statuses { EndsBy (asked_in read.now) result }

    // Faults of the source, the files, the sink and the acceptor are counted. Where an input is played or audited, status 3 is the
    // source's.
    ensures source { (asked_in read.now ≡ Some replay) ⊎ (asked_in read.now ≡ Some simulate) ⊎ (asked_in read.now ≡ Some check)
        ⊎ (asked_in read.now ≡ Some audit) → result ≡ 3 → HasRisen (S.faults outside.old.source) (S.faults outside.new.source) }
    ensures read { result ≡ 3 → HasRisen (S.faults outside.old.source) (S.faults outside.new.source)
        ⊎ HasRisen (F.faults outside.old.files) (F.faults outside.new.files)
        ⊎ CutShort (asked_in read.now) (I.failed lines.new.lines.inbox) }
    ensures write { result ≡ 4 → HasRisen (K.faults outside.old.sink) (K.faults outside.new.sink)
        ⊎ HasRisen (J.faults outside.old.parts.journals) (J.faults outside.new.parts.journals)
        ⊎ HasFailed N.faults outside.new.place.own }
    ensures link { RisesIf result 6 (A.faults outside.old.parts.acceptor) (A.faults outside.new.parts.acceptor) }
{
    let asked = match read.asked {
        Ok(asked) => asked,
        Err(fault) => return end_unasked(&mut outside.sink, fault),
    };
    match asked {
        Asked::Replay => play(
            alloc,
            Command::Replay,
            &mut outside.source,
            &mut outside.sink,
        ),
        Asked::Simulate => play(
            alloc,
            Command::Simulate,
            &mut outside.source,
            &mut outside.sink,
        ),
        Asked::Check => play(
            alloc,
            Command::Check,
            &mut outside.source,
            &mut outside.sink,
        ),
        Asked::Audit => run_audit(
            alloc,
            &mut outside.source,
            &mut outside.sink,
            &mut outside.why,
        ),
        Asked::Hub {
            path,
            sessions,
            journal,
            stop_file,
        } => {
            // The asker was made of it.
            let _ = stop_file;
            run_hub(
                rt,
                alloc,
                HubWords {
                    path,
                    sessions,
                    journal: prefix_in(journal),
                    limit: limit_in(journal),
                },
                &mut outside.files,
                &mut outside.place,
                &mut outside.sink,
                &mut outside.parts,
                asker,
            )
        }
        Asked::Node { path, script } => run_node_files(
            alloc,
            NodeWords { path, script },
            &mut outside.sink,
            &mut outside.files,
            &mut outside.parts.clock,
            &mut outside.parts.acceptor,
            &mut outside.node,
        ),
        Asked::LiveNode { path } => run_live_file(
            alloc,
            path,
            &mut outside.sink,
            &mut outside.files,
            &mut outside.parts.clock,
            &mut outside.parts.acceptor,
            &mut outside.node,
            lines,
        ),
        Asked::Load { workers } => {
            let kept = &mut outside.place.kept;
            run_load(rt, alloc, workers, &mut outside.sink, kept)
        }
        Asked::TestHub { path } => {
            let files = &mut outside.files;
            test_hub(alloc, path, files, &mut outside.sink)
        }
        Asked::TestNode { path, script } => {
            let words = NodeWords { path, script };
            test_node(alloc, words, &mut outside.files, &mut outside.sink)
        }
    }
}
