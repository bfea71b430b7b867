//! What some words ask for.
ghost use Rattle.std.specs.Prelude.{◌≡◌, ◌≢◌, [], Some, None, Err, true, IfOk, codes, map, option_map, string_bytes};
ghost use Rattle.std.specs.List.{list_any};
ghost use Rattle.clap.specs.Words.{app_of, fault_of, first_of, found_of, is_simple_and_free, matches_of, rows_of};
ghost use Rattle.bsc_text.specs.Lines.{same_octets};
ghost use Rattle.bsc_cli.specs.declared.fault.WordsFault.TheVariants as words_fault;
ghost use Rattle.bsc_cli.specs.Words.{app_for, asked_as, asked_by, asked_of, found_by, other_way, seen, way_of};
ghost use Rattle.bsc_cli.specs.Words.{hub_of, journals_of, load_of, node_of, octets_of, said_journals, sessions_of, test_hub_of, test_node_of, workers_of};

use crate::arguments::{with_option, with_required, with_required_flag};
use crate::asked::{Asked, JournalWords, Way};
use crate::bounds::{LEAST_OCTETS, MOST_OCTETS, SESSIONS, WORKERS};
use crate::fault::WordsFault;
use bsc_octets::NoMemory;
use bsc_text::read_number;
use clap::error::ErrorKind;
use clap::{ArgMatches, Command};
use std::alloc::Global;

/// The command of a way to read words, with its arguments.
pub(crate) fn arguments<'a>(alloc: Global, way: Way) -> Result<Command<'a>, NoMemory>
    ensures { IfOk result (λ c. app_of c ≡ app_for way) }
{
    match way {
        Way::Replay => Ok(Command::new(alloc, "replay")),
        Way::Simulate => Ok(Command::new(alloc, "simulate")),
        Way::Check => Ok(Command::new(alloc, "check")),
        Way::Audit => Ok(Command::new(alloc, "audit")),
        Way::Hub => {
            let hub = with_required(alloc, Command::new(alloc, "hub"), "path")?;
            let hub = with_option(alloc, hub, "sessions")?;
            let hub = with_option(alloc, hub, "journal")?;
            let hub = with_option(alloc, hub, "journal-octets")?;
            let hub = with_option(alloc, hub, "stop-file")?;
            with_option(alloc, hub, "status-file")
        }
        Way::TestHub => {
            let hub = with_required(alloc, Command::new(alloc, "hub"), "path")?;
            with_required_flag(alloc, hub, "test")
        }
        Way::Node => {
            let node = with_required(alloc, Command::new(alloc, "node"), "path")?;
            with_required(alloc, node, "script")
        }
        Way::TestNode => {
            let node = with_required(alloc, Command::new(alloc, "node"), "path")?;
            let node = with_required(alloc, node, "script")?;
            with_required_flag(alloc, node, "test")
        }
        Way::Load => with_required(alloc, Command::new(alloc, "load"), "workers"),
    }
}

/// What `clap` finds in words as the arguments of a command.
pub(crate) fn parse<'a>(
    command: Command<'a>,
    words: &'a [String],
) -> Result<ArgMatches<'a>, WordsFault>
    requires { is_simple_and_free (app_of command) ≡ true }
    ensures fine { IfOk result (λ _. fault_of (app_of command.entry) (map string_bytes words.entry.now) ≡ []) }
    ensures found { IfOk result (λ m. rows_of (found_of m) ≡ matches_of (app_of command.entry) (map string_bytes words.entry.now)) }
    ensures refused { result ≡ Err words_fault.Refused
        → fault_of (app_of command.entry) (map string_bytes words.entry.now) ≢ [] }
{
    match command.try_get_matches_from(words) {
        Ok(matches) => Ok(matches),
        Err(error) => {
            if error.kind() == ErrorKind::OutOfMemory {
                Err(WordsFault::NoMemory)
            } else {
                Err(WordsFault::Refused)
            }
        }
    }
}

/// The number of sessions that a word says.
fn read_sessions(word: &[u8]) -> Option<u64>
    ensures { result ≡ sessions_of word.now }
{
    let number = read_number(word)?;
    if 1 <= number && number <= SESSIONS {
        Some(number)
    } else {
        None
    }
}

/// The number of workers that a word says.
fn read_workers(word: &[u8]) -> Option<u32>
    ensures { result ≡ workers_of word.now }
{
    let number = read_number(word)?;
    if 1 <= number && number <= WORKERS {
        Some(number as u32)
    } else {
        None
    }
}

/// The number of octets that a word says, to which files are limited.
fn read_octets(word: &[u8]) -> Option<u64>
    ensures { result ≡ octets_of word.now }
{
    let number = read_number(word)?;
    if LEAST_OCTETS <= number && number <= MOST_OCTETS {
        Some(number)
    } else {
        None
    }
}

/// Journals by their prefix, and by what is said of the octets of their files.
fn journals_of<'a>(
    prefix: Option<&'a str>,
    octets: Option<&'a str>,
) -> Option<Option<JournalWords<'a>>>
    ensures { option_map (λ j. option_map said_journals j) result
        ≡ journals_of (option_map (λ s. s.now) prefix.entry) (option_map (λ s. s.now) octets.entry) }
{
    let Some(prefix) = prefix else {
        return match octets {
            Some(_) => None,
            None => Some(None),
        };
    };
    let limit = match octets {
        Some(word) => Some(read_octets(word.as_bytes())?),
        None => None,
    };
    Some(Some(JournalWords { prefix, limit }))
}

/// A hub by its path, what is said of its sessions and of its journals, and the path of the file that stops it.
fn hub_of<'a>(
    path: Option<&'a str>,
    sessions: Option<&'a str>,
    journals: Option<Option<JournalWords<'a>>>,
    stop_file: Option<&'a str>,
) -> Option<Asked<'a>>
    ensures { option_map seen result ≡ hub_of (option_map (λ s. s.now) path.entry) (option_map (λ s. s.now) sessions.entry)
        (option_map (λ j. option_map said_journals j) journals.entry) (option_map (λ s. s.now) stop_file.entry) }
{
    let path = path?;
    let journal = journals?;
    match sessions {
        Some(word) => Some(Asked::Hub {
            path,
            sessions: Some(read_sessions(word.as_bytes())?),
            journal,
            stop_file,
        }),
        None => Some(Asked::Hub {
            path,
            sessions: None,
            journal,
            stop_file,
        }),
    }
}

/// Whether a word is `--`.
fn is_end(word: &String) -> bool
    ensures { result ≡ same_octets (string_bytes word.now) (codes "--") }
{
    word.as_bytes() == b"--".as_slice()
}

/// Whether `--` is among words, behind which each word is a path.
fn has_end(words: &[String]) -> bool
    ensures { result ≡ list_any (λ w. same_octets (string_bytes w) (codes "--")) words.now }
{
    words.iter().any(|word| is_end(word))
}

/// A node by its path and its script. A script `-` is no file, but the lines as they come, unless `--` is among the words.
fn node_of<'a>(ended: bool, path: Option<&'a str>, script: Option<&'a str>) -> Option<Asked<'a>>
    ensures { option_map seen result ≡ node_of ended (option_map (λ s. s.now) path.entry) (option_map (λ s. s.now) script.entry) }
{
    let path = path?;
    let script = script?;
    if script.as_bytes() == b"-".as_slice() && !ended {
        Some(Asked::LiveNode { path })
    } else {
        Some(Asked::Node { path, script })
    }
}

/// A workload by its workers.
fn load_of<'a>(workers: Option<&'a str>) -> Option<Asked<'a>>
    ensures { option_map seen result ≡ load_of (option_map (λ s. s.now) workers.entry) }
{
    Some(Asked::Load {
        workers: read_workers(workers?.as_bytes())?,
    })
}

/// Settings of a hub by their path.
fn test_hub_of<'a>(path: Option<&'a str>) -> Option<Asked<'a>>
    ensures { option_map seen result ≡ test_hub_of (option_map (λ s. s.now) path.entry) }
{
    Some(Asked::TestHub { path: path? })
}

/// Settings of a node by their path, with its script.
fn test_node_of<'a>(path: Option<&'a str>, script: Option<&'a str>) -> Option<Asked<'a>>
    ensures { option_map seen result ≡ test_node_of (option_map (λ s. s.now) path.entry) (option_map (λ s. s.now) script.entry) }
{
    let path = path?;
    let script = script?;
    Some(Asked::TestNode { path, script })
}

/// What an argument has.
pub(crate) fn value_at<'a>(matches: &ArgMatches<'a>, id: &str) -> Option<&'a str>
    ensures { option_map (λ s. s.now) result ≡ first_of id.now (rows_of (found_of matches.now)) }
{
    matches.get_str(id)
}

/// What is asked for by what `clap` finds, where `--` is among the words or isn't.
fn found_in<'a>(way: Way, ended: bool, matches: &ArgMatches<'a>) -> Option<Asked<'a>>
    ensures { option_map seen result ≡ found_by way ended (rows_of (found_of matches.now)) }
{
    match way {
        Way::Replay => Some(Asked::Replay),
        Way::Simulate => Some(Asked::Simulate),
        Way::Check => Some(Asked::Check),
        Way::Audit => Some(Asked::Audit),
        Way::Hub => hub_of(
            value_at(matches, "path"),
            value_at(matches, "sessions"),
            journals_of(
                value_at(matches, "journal"),
                value_at(matches, "journal-octets"),
            ),
            value_at(matches, "stop-file"),
        ),
        Way::TestHub => test_hub_of(value_at(matches, "path")),
        Way::Node => node_of(
            ended,
            value_at(matches, "path"),
            value_at(matches, "script"),
        ),
        Way::TestNode => test_node_of(value_at(matches, "path"), value_at(matches, "script")),
        Way::Load => load_of(value_at(matches, "workers")),
    }
}

/// What words ask for as they are read in one way.
fn read_as<'a>(alloc: Global, way: Way, words: &'a [String]) -> Result<Asked<'a>, WordsFault>
    ensures ok { IfOk result (λ a. asked_as way (map string_bytes words.entry.now) ≡ Some (seen a)) }
    ensures refused { result ≡ Err words_fault.Refused → asked_as way (map string_bytes words.entry.now) ≡ None }
{
    let matches = parse(arguments(alloc, way)?, words)?;
    match found_in(way, has_end(words), &matches) {
        Some(asked) => Ok(asked),
        None => Err(WordsFault::Refused),
    }
}

/// The way to read words whose first is this.
fn way_of(name: &[u8]) -> Option<Way>
    ensures { result ≡ way_of name.now }
{
    if name == b"replay".as_slice() {
        Some(Way::Replay)
    } else if name == b"simulate".as_slice() {
        Some(Way::Simulate)
    } else if name == b"check".as_slice() {
        Some(Way::Check)
    } else if name == b"audit".as_slice() {
        Some(Way::Audit)
    } else if name == b"hub".as_slice() {
        Some(Way::Hub)
    } else if name == b"node".as_slice() {
        Some(Way::Node)
    } else if name == b"load".as_slice() {
        Some(Way::Load)
    } else {
        None
    }
}

/// The other way to read the words of a command, if it has one.
fn other_way(way: Way) -> Option<Way>
    ensures { result ≡ other_way way }
{
    match way {
        Way::Hub => Some(Way::TestHub),
        Way::Node => Some(Way::TestNode),
        _ => None,
    }
}

/// What words ask for whose first is this.
fn read_by<'a>(alloc: Global, name: &[u8], words: &'a [String]) -> Result<Asked<'a>, WordsFault>
    ensures ok { IfOk result (λ a. asked_of name.now (map string_bytes words.entry.now) ≡ Some (seen a)) }
    ensures refused { result ≡ Err words_fault.Refused → asked_of name.now (map string_bytes words.entry.now) ≡ None }
{
    let Some(way) = way_of(name) else {
        return Err(WordsFault::Refused);
    };
    match (read_as(alloc, way, words), other_way(way)) {
        (Err(WordsFault::Refused), Some(other)) => read_as(alloc, other, words),
        (read, _) => read,
    }
}

/// What the words of the program ask for, the program's own name not among them.
///
/// The first word is `replay`, `simulate`, `check`, `audit`, `hub`, `node` or `load`, and the words after it are read by
/// `clap` as the arguments of that command: `hub` takes a path, `--sessions` with a number from 1 to 1,000,000,
/// `--journal` with a prefix, beside it `--journal-octets` with a number, `--stop-file` with a path, and `--status-file` with one,
/// which `status_path` tells; `node` a path and the path of a script, or `-` for lines as they
/// come; `load` a number from 1 to `WORKERS`; the others take none. Beside its paths `hub` or `node` may have `--test` alone, by
/// which its settings are tried. A call for help is refused.
///
/// | error | when it comes |
/// |---|---|
/// | `Refused` | only where the words ask for nothing; where they ask for nothing, only this or `NoMemory` |
/// | `NoMemory` | memory ran out |
pub fn read_words<'a>(alloc: Global, words: &'a [String]) -> Result<Asked<'a>, WordsFault>
    // An answer is what the words ask for.
    ensures ok { IfOk result (λ a. asked_by (map string_bytes words.entry.now) ≡ Some (seen a)) }

    // Words that are refused ask for nothing.
    ensures refused { result ≡ Err words_fault.Refused → asked_by (map string_bytes words.entry.now) ≡ None }
{
    let Some(name) = words.first() else {
        return Err(WordsFault::Refused);
    };
    read_by(alloc, name.as_bytes(), words)
}
