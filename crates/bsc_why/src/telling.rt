//! What is told of a run that ended with a fault.
use crate::format::Format;
use crate::recorders::{DoorNote, RecentInput};
use crate::refused_line::{Seen, why_line};
use bsc_cli::{Asked, ReadWords};
use bsc_cli_diagnostics::why_words;
use bsc_octets::NoMemory;
use bsc_settings_diagnostics::why_settings;
use std::alloc::Global;
use std::io::{self, Eprint};
use std::net::{Ipv4Addr, Net, SocketAddr};
use std::str;

/// What was heard of a run.
#[derive(Clone, Copy)]
pub struct Heard<'a> {
    /// What the program was called as.
    pub called: &'a str,
    /// Its words, and what they ask for. There are none where one of them isn't UTF-8.
    pub read: ReadWords<'a>,
    /// Whether each of them is UTF-8.
    pub has_texts: bool,
    /// What is kept of its standard input.
    pub input: &'a RecentInput,
    /// Why a read of that failed, if one did.
    pub input_error: Option<io::Error>,
    /// The line that was refused, if one was.
    pub line: Option<u64>,
    /// How many files were read.
    pub files: u64,
    /// The text of the last of them, where it was kept.
    pub file: Option<&'a [u8]>,
    /// Why the file behind these couldn't be read, where it couldn't.
    pub file_error: Option<io::Error>,
    /// What became of its port.
    pub door: DoorNote,
    /// Whether a line couldn't be written into the hub's own journal.
    pub has_lost_a_line: bool,
    /// Why the journals of an audit aren't one legal history, where that was told.
    pub why: Option<&'a [u8]>,
}

/// The status of words that are refused.
const WORDS: u8 = 1;

/// The status of a refused line.
const LINE: u8 = 2;

/// The status of a read that failed.
const READ: u8 = 3;

/// The status of a journal that can't be kept, or of an output that can't be written.
const WRITE: u8 = 4;

/// The status of settings that are refused.
const SETTINGS: u8 = 5;

/// The status of a port that can't be bound, or takes no more links.
const LINK: u8 = 6;

/// The status of journals that aren't one legal history.
const ILLEGAL: u8 = 10;

/// Of words that are refused: why, and who says how to call the program.
fn of_words(alloc: Global, heard: &Heard<'_>) -> Result<Option<String>, NoMemory> {
    let called = heard.called;
    if !heard.has_texts {
        return Ok(Some(format!(in alloc;
            "a word isn't UTF-8; {called} --help says how to call it"
        )?));
    }
    match why_words(alloc, heard.read.words)? {
        Some(why) => Ok(Some(format!(in alloc; "{why}; {called} --help says how to call it")?)),
        None => Ok(None),
    }
}

/// Of a line of standard input that is refused: why.
fn of_input(alloc: Global, format: Format, heard: &Heard<'_>) -> Result<Option<String>, NoMemory> {
    let Some(line) = heard.line else {
        return Ok(None);
    };
    let text = heard.input.text(alloc)?;
    let seen = Seen {
        text: text.as_slice(),
        is_whole: heard.input.is_whole(),
        has_ended: heard.input.has_ended(),
    };
    let why = why_line(alloc, format, seen, line);
    Ok(Some(format!(in alloc; "line {line}: {why}")?))
}

/// Of a line of the script of a node: why.
fn of_script(alloc: Global, path: &str, heard: &Heard<'_>) -> Result<Option<String>, NoMemory> {
    let (Some(line), Some(text)) = (heard.line, heard.file) else {
        return Ok(None);
    };
    let seen = Seen {
        text,
        is_whole: true,
        has_ended: true,
    };
    let why = why_line(alloc, Format::NodeScript, seen, line);
    Ok(Some(format!(in alloc; "{path}: line {line}: {why}")?))
}

/// Of a line that is refused: why.
fn of_line(alloc: Global, heard: &Heard<'_>) -> Result<Option<String>, NoMemory> {
    match heard.read.asked {
        Ok(Asked::Replay) => of_input(alloc, Format::Script, heard),
        Ok(Asked::Simulate) => of_input(alloc, Format::Network, heard),
        Ok(Asked::Check) => of_input(alloc, Format::Question, heard),
        Ok(Asked::Audit) => of_input(alloc, Format::Journal, heard),
        Ok(Asked::Node { script, .. }) => of_script(alloc, script, heard),
        Ok(Asked::TestNode { script, .. }) => of_script(alloc, script, heard),
        _ => Ok(None),
    }
}

/// That a file can't be read: why.
fn of_path(
    alloc: Global,
    path: &str,
    error: Option<io::Error>,
) -> Result<Option<String>, NoMemory> {
    match error {
        Some(error) => Ok(Some(format!(in alloc; "{path} can't be read: {error}")?)),
        None => Ok(Some(format!(in alloc; "{path} can't be read")?)),
    }
}

/// The file of a node at which reading stopped: its settings, or its script.
fn unread_of<'a>(heard: &Heard<'_>, path: &'a str, script: &'a str) -> &'a str {
    if heard.files == 0 { path } else { script }
}

/// Of a read that failed: of what, and why.
fn of_read(alloc: Global, heard: &Heard<'_>) -> Result<Option<String>, NoMemory> {
    match heard.read.asked {
        Ok(Asked::Hub { path, .. }) => of_path(alloc, path, heard.file_error),
        Ok(Asked::TestHub { path }) => of_path(alloc, path, heard.file_error),
        Ok(Asked::Node { path, script }) => {
            of_path(alloc, unread_of(heard, path, script), heard.file_error)
        }
        Ok(Asked::TestNode { path, script }) => {
            of_path(alloc, unread_of(heard, path, script), heard.file_error)
        }
        Ok(Asked::LiveNode { path }) => match heard.file_error {
            Some(error) => of_path(alloc, path, Some(error)),
            None => Ok(Some(format!(in alloc; "standard input can't be read to its end")?)),
        },
        Ok(_) => of_path(alloc, "standard input", heard.input_error),
        Err(_) => Ok(None),
    }
}

/// Of the hub's own journal: that it can't be written. Of one that can't be made, whoever begins journals tells.
fn of_journal(alloc: Global, heard: &Heard<'_>) -> Result<Option<String>, NoMemory> {
    match heard.read.asked {
        Ok(
            Asked::Hub {
                journal: Some(journal),
                ..
            },
        ) if heard.has_lost_a_line => {
            let prefix = journal.prefix;
            Ok(Some(format!(in alloc; "the journal {prefix}.0 can't be written")?))
        }
        _ => Ok(None),
    }
}

/// Of settings that are refused, or that have no table of this name: why.
fn of_table(
    alloc: Global,
    path: &str,
    table: &str,
    heard: &Heard<'_>,
) -> Result<Option<String>, NoMemory> {
    let Some(text) = heard.file else {
        return Ok(None);
    };
    match why_settings(alloc, text)? {
        Some(why) => Ok(Some(format!(in alloc; "{path}: {why}")?)),
        None => Ok(Some(format!(in alloc; "{path}: there is no table `{table}`")?)),
    }
}

/// Of settings that are refused: why.
fn of_settings(alloc: Global, heard: &Heard<'_>) -> Result<Option<String>, NoMemory> {
    match heard.read.asked {
        Ok(Asked::Hub { path, .. }) => of_table(alloc, path, "hub", heard),
        Ok(Asked::TestHub { path }) => of_table(alloc, path, "hub", heard),
        Ok(Asked::Node { path, .. }) => of_table(alloc, path, "node", heard),
        Ok(Asked::LiveNode { path }) => of_table(alloc, path, "node", heard),
        Ok(Asked::TestNode { path, .. }) => of_table(alloc, path, "node", heard),
        _ => Ok(None),
    }
}

/// Of a port: whether it can't be bound, and why, or takes no more links.
fn of_link(
    alloc: Global,
    heard: &Heard<'_>,
    error: Option<io::Error>,
) -> Result<Option<String>, NoMemory> {
    let Some(port) = heard.door.port else {
        return Ok(None);
    };
    if heard.door.is_bound {
        return Ok(Some(format!(in alloc;
            "port {port} of 127.0.0.1 is bound, and a link that came can't be accepted"
        )?));
    }
    match error {
        Some(error) => Ok(Some(format!(in alloc;
            "port {port} of 127.0.0.1 can't be bound: {error}"
        )?)),
        None => Ok(Some(format!(in alloc; "port {port} of 127.0.0.1 couldn't be bound")?)),
    }
}

/// Why a port can't be bound, where it still can't.
fn bind_error<R: Net>(rt: &R, door: DoorNote) -> Option<io::Error> {
    if door.is_bound {
        return None;
    }
    match rt.bind(SocketAddr::from((Ipv4Addr::LOCALHOST, door.port?))) {
        Ok(_) => None,
        Err(error) => Some(error),
    }
}

/// Of journals that aren't one legal history: why, as the audit found it.
fn of_history(alloc: Global, heard: &Heard<'_>) -> Result<Option<String>, NoMemory> {
    let Some(why) = heard.why else {
        return Ok(None);
    };
    match str::from_utf8(why) {
        Ok(why) => Ok(Some(format!(in alloc; "{why}")?)),
        Err(_) => Ok(None),
    }
}

/// What is told of a run that ended with this status, and of a port that couldn't be bound for this.
fn line_of(
    alloc: Global,
    status: u8,
    heard: &Heard<'_>,
    error: Option<io::Error>,
) -> Result<Option<String>, NoMemory> {
    if status == WORDS {
        return of_words(alloc, heard);
    }
    if status == LINE {
        return of_line(alloc, heard);
    }
    if status == READ {
        return of_read(alloc, heard);
    }
    if status == WRITE {
        return of_journal(alloc, heard);
    }
    if status == SETTINGS {
        return of_settings(alloc, heard);
    }
    if status == LINK {
        return of_link(alloc, heard, error);
    }
    if status == ILLEGAL {
        return of_history(alloc, heard);
    }
    Ok(None)
}

/// Tells on standard error why a run ended with this status, where a word, a line, a read, a setting, a port, the hub's own journal
/// or an audited history is at fault. It writes one line, or none where there is no memory for it.
pub fn tell<R: Eprint + Net>(rt: &R, alloc: Global, status: u8, heard: &Heard<'_>) {
    let error = if status == LINK {
        bind_error(rt, heard.door)
    } else {
        None
    };
    if let Ok(Some(line)) = line_of(alloc, status, heard, error) {
        // Where nobody can be told, the status says it all the same.
        let _ = eprintln!(rt; "bsc: {line}");
    }
}
