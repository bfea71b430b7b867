//! The arguments of a command, for `clap`.
ghost use Rattle.std.specs.Prelude.{◌≡◌, IfOk};
ghost use Rattle.clap.specs.Words.{app_of, with_rule};
ghost use Rattle.bsc_cli.specs.Words.{option, required, required_flag};

use bsc_octets::NoMemory;
use clap::{Arg, ArgAction, Command};
use std::alloc::Global;

/// A command with a word more that has to be there, in its place.
pub(crate) fn with_required<'a>(
    alloc: Global,
    command: Command<'a>,
    id: &'a str,
) -> Result<Command<'a>, NoMemory>
    ensures { IfOk result (λ c. app_of c ≡ with_rule (app_of command.entry) (required id.entry.now)) }
{
    let arg = Arg::new(alloc, id).required(true);
    Ok(command.arg(arg)?)
}

/// A command with an option more, by its name, which takes one word.
pub(crate) fn with_option<'a>(
    alloc: Global,
    command: Command<'a>,
    name: &'a str,
) -> Result<Command<'a>, NoMemory>
    ensures { IfOk result (λ c. app_of c ≡ with_rule (app_of command.entry) (option name.entry.now)) }
{
    let arg = Arg::new(alloc, name).long(name);
    Ok(command.arg(arg)?)
}

/// A command with a flag more, by its name, which takes no word and has to be there.
pub(crate) fn with_required_flag<'a>(
    alloc: Global,
    command: Command<'a>,
    name: &'a str,
) -> Result<Command<'a>, NoMemory>
    ensures { IfOk result (λ c. app_of c ≡ with_rule (app_of command.entry) (required_flag name.entry.now)) }
{
    let arg = Arg::new(alloc, name)
        .long(name)
        .action(ArgAction::SetTrue)
        .required(true);
    Ok(command.arg(arg)?)
}
