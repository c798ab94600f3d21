//! The values of the options, read by clap.

ghost use Rattle.std.specs.Prelude.{◌≡◌, IfOk, Some, true, false, alloc_error, is_some};
ghost use Rattle.clap.specs.Words.{app_of, kind_of, rule_of};
ghost use Rattle.command_line.specs.Words.{Line, line_of_words, values_in};
ghost use Rattle.command_line.specs.Orders.{texts, values_seen};
ghost use Rattle.command_line.specs.Reader.{bare as bare_app, files_rule, map_rule, option_rule, reader, with_option_rules};

use clap::error::ErrorKind;
use clap::{Arg, ArgAction, Command, Error};
use std::alloc::{AllocError, Global};

// The values of the options as they are written: `None` if the option is not given.
#[derive(Drop)]
pub(crate) struct Found<'a> {
    pub(crate) plan: Option<&'a str>,
    pub(crate) heap: Option<&'a str>,
    pub(crate) workers: Option<&'a str>,
    pub(crate) make: Option<&'a str>,
    pub(crate) map: bool,
}

// An option with a value.
fn option<'a>(alloc: Global, name: &'a str) -> Arg<'a>
    ensures rule { rule_of result ≡ option_rule name.entry.now }
    ensures own { result.global ≡ false }
{
    Arg::new(alloc, name).long(name)
}

// The flag `--map`.
fn map_flag<'a>(alloc: Global) -> Arg<'a>
    ensures rule { rule_of result ≡ map_rule }
    ensures own { result.global ≡ false }
{
    Arg::new(alloc, "map")
        .long("map")
        .action(ArgAction::SetTrue)
}

// One or more files.
fn files<'a>(alloc: Global) -> Arg<'a>
    ensures rule { rule_of result ≡ files_rule }
    ensures own { result.global ≡ false }
{
    Arg::new(alloc, "files")
        .action(ArgAction::Append)
        .num_args(1..)
}

// A command without arguments, and without `--help`.
fn bare<'a>(alloc: Global) -> Command<'a>
    ensures { app_of result ≡ bare_app }
{
    Command::new(alloc, "mm_drive")
        .no_binary_name(true)
        .disable_help_flag(true)
}

// Adds the options with values.
fn with_options<'a>(alloc: Global, command: Command<'a>) -> Result<Command<'a>, AllocError>
    ensures { IfOk result (λ c. app_of c ≡ with_option_rules (app_of command.entry)) }
{
    command
        .arg(option(alloc, "plan"))?
        .arg(option(alloc, "heap"))?
        .arg(option(alloc, "workers"))?
        .arg(option(alloc, "make"))
}

// The command with the options, and the files as its positional argument.
fn command<'a>(alloc: Global) -> Result<Command<'a>, AllocError>
    ensures { IfOk result (λ c. app_of c ≡ reader) }
{
    with_options(alloc, bare(alloc))?
        .arg(map_flag(alloc))?
        .arg(files(alloc))
}

// Converts an error of clap that is known to be out of memory.
fn refused(error: &Error) -> AllocError
    requires { kind_of error.now ≡ ErrorKind.OutOfMemory }
    ensures { result ≡ alloc_error }
{
    AllocError
}

// Reads the values of the options. The words are options, each given once, and then files.
//
// Errors: out of memory.
pub(crate) fn read_values<'a>(alloc: Global, words: &'a [String]) -> Result<Found<'a>, AllocError>
    requires { is_some (line_of_words (texts words.now)) ≡ true }
    ensures { IfOk result (λ v. (l : Line) → line_of_words (texts words.now) ≡ Some l
        → values_seen v ≡ values_in l.settings) }
{
    let command = command(alloc)?;
    let matches = match command.try_get_matches_from(words) {
        Ok(matches) => matches,
        Err(error) => return Err(refused(&error)),
    };
    let plan = matches.get_str("plan");
    let heap = matches.get_str("heap");
    let workers = matches.get_str("workers");
    let make = matches.get_str("make");
    let map = matches.get_flag("map");
    Ok(Found {
        plan,
        heap,
        workers,
        make,
        map,
    })
}
