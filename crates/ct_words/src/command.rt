//! The clap command of a row of the table.
ghost use Rattle.std.specs.Prelude.{◌≡◌, [], IfOk, false, map};
ghost use Rattle.clap.specs.Words.{app_of, rule_of};
ghost use Rattle.ct_words.specs.Table.{option_seen};
ghost use Rattle.ct_words.specs.Command.{app_with, flag_rule, option_rule, place_rule, row_app, value_rule};

use crate::table::{CommandRow, OptionRow, Takes};
use clap::{Arg, ArgAction, Command};
use std::alloc::{AllocError, Global};

/// The id of the positional words. No word gives an option this name, since an option's name ends at `=`.
pub const PLACES: &str = "=";

fn place_arg<'a>(alloc: Global) -> Arg<'a>
    ensures rule { rule_of result ≡ place_rule }
    ensures own { result.global ≡ false }
{
    Arg::new(alloc, PLACES).action(ArgAction::Append)
}

fn flag_arg<'a>(alloc: Global, name: &'a str) -> Arg<'a>
    ensures rule { rule_of result ≡ flag_rule name.entry.now }
    ensures own { result.global ≡ false }
{
    Arg::new(alloc, name).long(name).action(ArgAction::SetTrue)
}

fn value_arg<'a>(alloc: Global, name: &'a str) -> Arg<'a>
    ensures rule { rule_of result ≡ value_rule name.entry.now }
    ensures own { result.global ≡ false }
{
    Arg::new(alloc, name).long(name).action(ArgAction::Set)
}

fn option_arg<'a>(alloc: Global, row: OptionRow) -> Arg<'a>
    ensures rule { rule_of result ≡ option_rule (option_seen row) }
    ensures own { result.global ≡ false }
{
    match row.takes {
        Takes::Nothing => flag_arg(alloc, row.name),
        Takes::Number(_) | Takes::Name => value_arg(alloc, row.name),
    }
}

// No word asks for help or the version, and the first one is no program's name.
fn bare_command<'a>(alloc: Global, name: &'a str) -> Command<'a>
    ensures { app_of result ≡ app_with name.entry.now [] }
{
    Command::new(alloc, name)
        .no_binary_name(true)
        .disable_help_flag(true)
        .disable_version_flag(true)
}

/// The command that reads the words after the command's name.
pub fn command_of<'a>(alloc: Global, row: CommandRow) -> Result<Command<'a>, AllocError>
    ensures { IfOk result (λ command. app_of command ≡ row_app row.name.now (map option_seen row.options.now)) }
{
    let mut command = bare_command(alloc, row.name).arg(place_arg(alloc))?;
    for option in row.options {
        command = command.arg(option_arg(alloc, *option))?;
    }
    Ok(command)
}
