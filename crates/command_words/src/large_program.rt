//! The command line of the program for texts of any size, as `clap` takes it.
ghost use Rattle.std.specs.Prelude.{◌≡◌, IfOk, false};
ghost use Rattle.clap.specs.Words.{app_of};
ghost use Rattle.clap.specs.declared.builder.Command.TheViews.{out-Command as fields_of};
ghost use Rattle.command_words.specs.LargeWords.{account_app, large_program, no_large_commands};
ghost use Rattle.command_words.specs.LargeWords.{with_documents, with_flag, with_measures};
ghost use Rattle.command_words.specs.LargeWords.{what_if_app, with_tables, with_texts, with_upto};

use crate::program::{with_command, with_option};
use clap::{Arg, ArgAction, Command};
use std::alloc::{AllocError, Global};

/// The command line of the program: an option, and one line for each command.
pub(crate) fn large_program<'a>(alloc: Global) -> Result<Command<'a>, AllocError>
    ensures { IfOk result (λ command. app_of command ≡ large_program) }
{
    let command = with_upto(alloc, no_large_commands(alloc))?;
    let command = with_measures(alloc, command)?;
    let command = with_tables(alloc, command)?;
    let command = with_texts(alloc, command)?;
    with_documents(alloc, command)
}

/// Neither `help` nor `--help` is a word of the program.
fn no_large_commands<'a>(alloc: Global) -> Command<'a>
    ensures { app_of result ≡ no_large_commands }
{
    Command::new(alloc, "spanprof_large")
        .disable_help_flag(true)
        .disable_help_subcommand(true)
}

/// With the option `--upto VALUE`, which may be there once.
fn with_upto<'a>(alloc: Global, command: Command<'a>) -> Result<Command<'a>, AllocError>
    ensures { IfOk result (λ added. app_of added ≡ with_upto (app_of command.entry)) }
{
    let upto = Arg::new(alloc, "upto").long("upto").action(ArgAction::Set);
    command.arg(upto)
}

/// With the commands that need no table of the text.
fn with_measures<'a>(alloc: Global, command: Command<'a>) -> Result<Command<'a>, AllocError>
    ensures { IfOk result (λ added. app_of added ≡ with_measures (app_of command.entry)) }
{
    let command = with_command(command, Command::new(alloc, "span"))?;
    with_command(command, with_option(alloc, "bounds", "upto")?)
}

/// With the commands that need it.
fn with_tables<'a>(alloc: Global, command: Command<'a>) -> Result<Command<'a>, AllocError>
    ensures { IfOk result (λ added. app_of added ≡ with_tables (app_of command.entry)) }
{
    let command = with_command(command, Command::new(alloc, "slack"))?;
    let command = with_command(command, with_option(alloc, "greedy", "threads")?)?;
    let command = with_command(command, with_option(alloc, "curve", "upto")?)?;
    let command = with_command(command, what_if_command(alloc)?)?;
    with_command(command, Command::new(alloc, "graph"))
}

/// Changed costs: changes, or the flag for a list of them.
fn what_if_command<'a>(alloc: Global) -> Result<Command<'a>, AllocError>
    ensures app { IfOk result (λ command. app_of command ≡ what_if_app) }
    ensures no_globals { IfOk result (λ command. (fields_of command).has_globals ≡ false) }
{
    let changes = Arg::new(alloc, "changes").action(ArgAction::Append);
    let command = Command::new(alloc, "whatif").arg(changes)?;
    with_flag(alloc, command, "listed")
}

/// With those that write the canonical text.
fn with_texts<'a>(alloc: Global, command: Command<'a>) -> Result<Command<'a>, AllocError>
    ensures { IfOk result (λ added. app_of added ≡ with_texts (app_of command.entry)) }
{
    let command = with_command(command, Command::new(alloc, "show"))?;
    with_command(command, Command::new(alloc, "certify"))
}

/// With the commands of documents.
fn with_documents<'a>(alloc: Global, command: Command<'a>) -> Result<Command<'a>, AllocError>
    ensures { IfOk result (λ added. app_of added ≡ with_documents (app_of command.entry)) }
{
    let command = with_command(command, account_command(alloc)?)?;
    let command = with_command(command, Command::new(alloc, "replay"))?;
    let command = with_command(command, Command::new(alloc, "check"))?;
    let command = with_command(command, Command::new(alloc, "places"))?;
    with_command(command, Command::new(alloc, "relaxation"))
}

/// The account of a run, with its two flags.
fn account_command<'a>(alloc: Global) -> Result<Command<'a>, AllocError>
    ensures app { IfOk result (λ command. app_of command ≡ account_app) }
    ensures no_globals { IfOk result (λ command. (fields_of command).has_globals ≡ false) }
{
    let command = with_flag(alloc, Command::new(alloc, "account"), "rows")?;
    with_flag(alloc, command, "path")
}

/// With the flag `--FLAG`, which may be there once.
fn with_flag<'a>(
    alloc: Global,
    command: Command<'a>,
    flag: &'a str,
) -> Result<Command<'a>, AllocError>
    requires { (fields_of command).has_globals ≡ false }
    ensures app { IfOk result (λ added. app_of added ≡ with_flag (app_of command.entry) flag.now) }
    ensures no_globals { IfOk result (λ added. (fields_of added).has_globals ≡ false) }
{
    let rule = Arg::new(alloc, flag).long(flag).action(ArgAction::SetTrue);
    command.arg(rule)
}
