// The options as arguments of `clap`.

ghost use Rattle.std.specs.Prelude.{◌≡◌, IfOk, false, fold};
ghost use Rattle.clap.specs.Simple.{app_of};
ghost use Rattle.clap.specs.Walk.{rule_of};
ghost use Rattle.tcl_cli.specs.Table.{entry_of};
ghost use Rattle.tcl_cli.specs.Rules.{arg_for, action_for, tool_app, with_entry};

use crate::table::{Entry, Kind, OPTIONS};
use clap::{Arg, ArgAction, Command};
use std::alloc::{AllocError, Global};

/// What `clap` does with an option: it keeps the value of a number, and notes that a flag was given.
fn action(kind: Kind) -> ArgAction
    ensures { result ≡ action_for kind }
{
    match kind {
        Kind::Number { .. } => ArgAction::Set,
        Kind::Flag => ArgAction::SetTrue,
    }
}

/// The option as an argument of `clap`.
fn arg<'a>(alloc: Global, entry: Entry) -> Arg<'a>
    ensures rule { rule_of result ≡ arg_for (entry_of entry) }
    ensures local { result.global ≡ false }
{
    Arg::new(alloc, entry.name)
        .long(entry.name)
        .action(action(entry.kind))
}

/// The command that takes all options, for all programs.
pub(crate) fn command<'a>(alloc: Global) -> Result<Command<'a>, AllocError>
    ensures { IfOk result (λ c. app_of c ≡ tool_app) }
{
    let bare = Command::new(alloc, "tcl")
        .no_binary_name(true)
        .disable_help_flag(true)
        .disable_version_flag(true);
    with_options(alloc, bare, OPTIONS)
}

/// The command with these options added.
fn with_options<'a>(
    alloc: Global,
    bare: Command<'a>,
    options: &[Entry],
) -> Result<Command<'a>, AllocError>
    ensures { IfOk result (λ c. app_of c ≡ fold with_entry (app_of bare.entry) options.now) }
{
    let mut command = bare;
    for entry in options {
        command = command.arg(arg(alloc, *entry))?;
    }
    Ok(command)
}
