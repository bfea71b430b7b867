//! Why words are refused.
ghost use Rattle.std.specs.Prelude.{◌≡◌, None, IfOk, IfSome, map, string_bytes};
ghost use Rattle.bsc_cli.specs.Words.{asked_by};

use bsc_cli::{LEAST_OCTETS, MOST_OCTETS, WordsFault, read_words};
use bsc_diagnostics::Shown;
use bsc_octets::NoMemory;
use bsc_text::read_number;
use clap::error::ErrorKind;
use clap::{Arg, ArgAction, ArgMatches, Command};
use std::alloc::Global;

/// A command with its arguments, as `bsc_cli` has them.
fn command_of<'a>(alloc: Global, name: &'a str) -> Result<Command<'a>, NoMemory> {
    let command = Command::new(alloc, name);
    if name == "hub" {
        let path = Arg::new(alloc, "SETTINGS").required(true);
        let sessions = Arg::new(alloc, "N").long("sessions");
        let journal = Arg::new(alloc, "PREFIX").long("journal");
        let octets = Arg::new(alloc, "OCTETS").long("journal-octets");
        let stop_file = Arg::new(alloc, "FILE").long("stop-file");
        let status_file = Arg::new(alloc, "STATUS").long("status-file");
        return Ok(
            command
                .arg(path)?
                .arg(sessions)?
                .arg(journal)?
                .arg(octets)?
                .arg(stop_file)?
                .arg(status_file)?,
        );
    }
    if name == "node" {
        let path = Arg::new(alloc, "SETTINGS").required(true);
        let script = Arg::new(alloc, "SCRIPT").required(true);
        return Ok(command.arg(path)?.arg(script)?);
    }
    if name == "load" {
        let workers = Arg::new(alloc, "N").required(true);
        return Ok(command.arg(workers)?);
    }
    Ok(command)
}

/// Whether words ask for a test of settings. What stands behind `--` is a path.
fn is_test(words: &[String]) -> bool {
    for word in words.iter() {
        if word.as_str() == "--" {
            return false;
        }
        if word.as_str() == "--test" {
            return true;
        }
    }
    false
}

/// The test of settings with its arguments, as `bsc_cli` has them.
fn test_of<'a>(alloc: Global, name: &'a str) -> Result<Command<'a>, NoMemory> {
    let command = Command::new(alloc, name);
    let test = Arg::new(alloc, "test")
        .long("test")
        .action(ArgAction::SetTrue)
        .required(true);
    let path = Arg::new(alloc, "SETTINGS").required(true);
    if name == "node" {
        let script = Arg::new(alloc, "SCRIPT").required(true);
        return Ok(command.arg(path)?.arg(script)?.arg(test)?);
    }
    Ok(command.arg(path)?.arg(test)?)
}

/// The command that words name, with its arguments.
fn command_by<'a>(alloc: Global, name: &'a str, words: &[String]) -> Result<Command<'a>, NoMemory> {
    if (name == "hub" || name == "node") && is_test(words) {
        return test_of(alloc, name);
    }
    command_of(alloc, name)
}

/// Whether a word names a command.
fn is_command(name: &str) -> bool {
    name == "replay"
        || name == "simulate"
        || name == "check"
        || name == "audit"
        || name == "hub"
        || name == "node"
        || name == "load"
}

/// What a command needs.
fn needs(name: &str) -> &'static str {
    if name == "hub" {
        return "the path of its settings";
    }
    if name == "node" {
        return "the path of its settings and the path of its script";
    }
    "the number of its workers, from 1 to 512"
}

/// What `clap` says of words, in one line.
fn first_line(alloc: Global, text: &str) -> Result<String, NoMemory> {
    let text = text.strip_prefix("error: ").unwrap_or(text);
    let line = match text.split_once('\n') {
        Some((line, _)) => line,
        None => text,
    };
    Ok(String::from_str(alloc, line)?)
}

/// Why `clap` refuses the words of a command.
fn why_refused(alloc: Global, name: &str, error: &clap::Error) -> Result<String, NoMemory> {
    match error.kind() {
        ErrorKind::OutOfMemory => Err(NoMemory),
        ErrorKind::MissingRequiredArgument => {
            let needs = needs(name);
            Ok(format!(in alloc; "`{name}` needs {needs}")?)
        }
        ErrorKind::DisplayHelp => {
            Ok(format!(in alloc; "a call for help isn't one of the words of `{name}`")?)
        }
        _ => {
            let text = format!(in alloc; "{error}")?;
            first_line(alloc, text.as_str())
        }
    }
}

/// Whether a word says how many octets the file of a journal may have.
fn is_limit(word: &str) -> bool {
    match read_number(word.as_bytes()) {
        Some(octets) => LEAST_OCTETS <= octets && octets <= MOST_OCTETS,
        None => false,
    }
}

/// Why the octets of files are refused that the words of a hub say, if they are wrong.
fn why_octets(alloc: Global, matches: &ArgMatches<'_>) -> Result<Option<String>, NoMemory> {
    let Some(octets) = matches.get_str("OCTETS") else {
        return Ok(None);
    };
    if matches.get_str("PREFIX").is_none() {
        let text = format!(in alloc; "`--journal-octets` needs `--journal <PREFIX>` beside it")?;
        return Ok(Some(text));
    }
    if is_limit(octets) {
        return Ok(None);
    }
    let shown = Shown(octets.as_bytes());
    let text = format!(in alloc; "{shown} is no number of octets from 4096 to 1000000000000")?;
    Ok(Some(text))
}

/// Why the number of a command is refused, where its other words are good and `clap` takes them.
fn why_number(alloc: Global, name: &str, word: Option<&str>) -> Result<String, NoMemory> {
    let shown = Shown(word.unwrap_or("").as_bytes());
    if name == "hub" {
        return Ok(format!(in alloc; "{shown} is no number of sessions from 1 to 1000000")?);
    }
    Ok(format!(in alloc; "{shown} is no number of workers from 1 to 512")?)
}

/// Why the words of a command are refused.
fn why_of_command(alloc: Global, name: &str, words: &[String]) -> Result<String, NoMemory> {
    match command_by(alloc, name, words)?.try_get_matches_from(words) {
        Ok(matches) => {
            if name == "hub" {
                if let Some(why) = why_octets(alloc, &matches)? {
                    return Ok(why);
                }
            }
            why_number(alloc, name, matches.get_str("N"))
        }
        Err(error) => why_refused(alloc, name, &error),
    }
}

/// Why words are refused that ask for nothing.
fn why(alloc: Global, words: &[String]) -> Result<String, NoMemory> {
    let Some(name) = words.first() else {
        return Ok(format!(in alloc;
            "no command is named: there are replay, simulate, check, audit, hub, node and load"
        )?);
    };
    if is_command(name.as_str()) {
        return why_of_command(alloc, name.as_str(), words);
    }
    let shown = Shown(name.as_bytes());
    Ok(format!(in alloc;
        "{shown} is no command: replay, simulate, check, audit, hub, node and load are"
    )?)
}

/// Which of the words of the program is wrong, and what it has to be; None of words that ask for something.
pub fn why_words(alloc: Global, words: &[String]) -> Result<Option<String>, NoMemory>
    // It is said only of words that ask for nothing.
    ensures { IfOk result (λ why. IfSome why (λ it. asked_by (map string_bytes words.now) ≡ None)) }
{
    match read_words(alloc, words) {
        Ok(_) => Ok(None),
        Err(WordsFault::NoMemory) => Err(NoMemory),
        Err(WordsFault::Refused) => Ok(Some(why(alloc, words)?)),
    }
}
