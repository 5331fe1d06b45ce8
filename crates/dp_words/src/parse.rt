// The words, as `clap` reads them: one flat command without subcommands and without help.
ghost use Rattle.std.specs.Prelude.{◌≡◌, IfOk, map, string_bytes};
ghost use Rattle.clap.specs.Words.{app_of};
ghost use Rattle.dp_words.specs.Command.{IsParsedAs, command_app, with_options};

use crate::job::WordFault;
use clap::error::ErrorKind;
use clap::{Arg, ArgAction, ArgMatches, Command};
use std::alloc::{AllocError, Global};

// The names of the options that take a value, in the order of the table.
pub static OPTIONS: [&str; 11] = [
    "horizon",
    "nodes",
    "look",
    "cert",
    "seed",
    "episodes",
    "agents",
    "states",
    "actions",
    "observations",
    "order",
];

// The command with an option of each name.
fn with_options<'a>(
    alloc: Global,
    mut command: Command<'a>,
    names: &[&'a str],
) -> Result<Command<'a>, AllocError>
    ensures { IfOk result (λ made. app_of made
        ≡ with_options (app_of command.entry) (map (λ name. name.now) names.now)) }
{
    for name in names {
        let option = Arg::new(alloc, *name).long(*name).action(ArgAction::Set);
        command = command.arg(option)?;
    }
    Ok(command)
}

// The command: its options, the flag, and the plain words as one list. Each is optional and each
// value a text: what belongs to which command is not for `clap` to test.
fn command<'a>(alloc: Global) -> Result<Command<'a>, AllocError>
    ensures { IfOk result (λ made. app_of made ≡ command_app) }
{
    let empty = Command::new(alloc, "decplan")
        .no_binary_name(true)
        .disable_help_flag(true);
    let flag = Arg::new(alloc, "no-merge")
        .long("no-merge")
        .action(ArgAction::SetTrue);
    let plain = Arg::new(alloc, "words").action(ArgAction::Append);
    with_options(alloc, empty, OPTIONS.as_slice())?
        .arg(flag)?
        .arg(plain)
}

// The matches of the words.
pub fn parsed<'a>(alloc: Global, words: &'a [String]) -> Result<ArgMatches<'a>, WordFault>
    ensures { IsParsedAs (map string_bytes words.now) result }
{
    let Ok(command) = command(alloc) else {
        return Err(WordFault::Memory);
    };
    match command.try_get_matches_from(words) {
        Ok(matches) => Ok(matches),
        Err(error) if error.kind() == ErrorKind::OutOfMemory => Err(WordFault::Memory),
        Err(_) => Err(WordFault::Usage),
    }
}
