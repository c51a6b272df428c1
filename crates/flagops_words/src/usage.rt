//! What the program takes, in the terms of `clap`: its commands with their words.
ghost use Rattle.std.specs.Prelude.{◌≡◌, codes, IfOk, false};
ghost use Rattle.clap.specs.Simple.{new_app, on_top};
ghost use Rattle.clap.specs.Words.{app_of, kind_of, rule_of};
ghost use Rattle.clap.specs.declared.builder.command.Command.TheViews.{out-Command};
ghost use Rattle.clap.specs.declared.error.kind.ErrorKind.TheVariants.{InvalidSubcommand, InvalidValue, MissingRequiredArgument, ValueValidation};
ghost use Rattle.flagops_words.specs.Usage.{app_for, rule_for, with_commands};
ghost use Rattle.flagops_words.specs.Words.{flagops_app, takes_commands};

use crate::arguments::{flag, number, option_number, required};
use crate::table::{APPLY_ALONE, COMMANDS, COMPLETIONS_ALONE, RESOLVE_ALONE, Usage, Word};
use clap::error::ErrorKind;
use clap::{Arg, Command, Error};
use std::alloc::{AllocError, Global};

/// The program with its commands.
pub fn flagops<'a>(alloc: Global) -> Result<Command<'a>, AllocError>
    ensures { IfOk result (λ c. app_of c ≡ flagops_app) }
{
    with_commands(alloc, program(alloc)?, COMMANDS)
}

/// The mistake of a word for no kind of value.
pub fn unknown_kind(alloc: Global) -> Result<Error, AllocError>
    ensures { IfOk result (λ e. kind_of e ≡ InvalidValue) }
{
    command(alloc, &RESOLVE_ALONE)?.error(
        ErrorKind::InvalidValue,
        "invalid value for '<KIND>': it is bool, text, whole, object or float, or flagd's boolean, string or integer",
    )
}

/// The mistake of a shell that is none of the three.
pub fn unknown_shell(alloc: Global) -> Result<Error, AllocError>
    ensures { IfOk result (λ e. kind_of e ≡ InvalidValue) }
{
    command(alloc, &COMPLETIONS_ALONE)?.error(
        ErrorKind::InvalidValue,
        "invalid value for '<SHELL>': it is bash, fish or zsh",
    )
}

/// The mistake of a site that is no number.
pub fn unknown_site(alloc: Global) -> Result<Error, AllocError>
    ensures { IfOk result (λ e. kind_of e ≡ ValueValidation) }
{
    command(alloc, &APPLY_ALONE)?.error(
        ErrorKind::ValueValidation,
        "invalid value for '<SITE>': it is a number from 0 to 4294967295",
    )
}

/// The mistake of a word that goes with `--keep`, where that is not given.
pub fn missing_keep(alloc: Global) -> Result<Error, AllocError>
    ensures { IfOk result (λ e. kind_of e ≡ MissingRequiredArgument) }
{
    command(alloc, &APPLY_ALONE)?.error(
        ErrorKind::MissingRequiredArgument,
        "'--write', '--refine <M>' and '--doubted' go with '--keep', which was not provided",
    )
}

/// The mistake of a command that the program lists, whose words its own library reads.
pub fn read_elsewhere(alloc: Global) -> Result<Error, AllocError>
    ensures { IfOk result (λ e. kind_of e ≡ InvalidSubcommand) }
{
    program(alloc)?.error(
        ErrorKind::InvalidSubcommand,
        "the words of this command are read by its own library",
    )
}

/// What the help of the program ends with: how to ask for a command's arguments, and the statuses.
const STATUSES: &str =
    "Run 'flagops COMMAND --help' for the arguments of a command, as 'flagops ramp --help'.\n\nStatus: 0 done, 1 refused, a broken or doubted flag at check --strict, or the output failed, 2 not a command, 3 no rule fits.\nStandard error says what was refused, where, and what to change; docs/REFUSALS.md explains each line\nthat begins with 'refused', docs/FORMATS.md has the files with examples, demo/README.md a first rollout.";

/// The version of the program, and the kit that it is proved with (`rt version`), a line each.
const VERSION: &str = "0.1.0\nproved with rattle-kit-13f logic dac8208d650f15bf";

/// The program without its commands.
fn program<'a>(alloc: Global) -> Result<Command<'a>, AllocError>
    ensures { IfOk result (λ c. app_of c ≡ on_top takes_commands (new_app (codes "flagops"))) }
{
    let program = Command::new(alloc, "flagops")
        .about("Feature flags with rollouts that switch the fewest users.")
        .after_help(STATUSES);
    taking_commands(program).bin_name("flagops")
}

/// The program, which has a version, and of which a command has to be named.
fn taking_commands<'a>(program: Command<'a>) -> Command<'a>
    ensures { app_of result ≡ on_top takes_commands (app_of program.entry) }
{
    program
        .version(VERSION)
        .no_binary_name(true)
        .arg_required_else_help(true)
        .subcommand_required(true)
}

/// The program with commands of a table.
#[tactic(auto, unfolding(crate::specs::Usage::with_commands))]
fn with_commands<'a>(
    alloc: Global,
    mut program: Command<'a>,
    usages: &[Usage],
) -> Result<Command<'a>, AllocError>
    ensures { IfOk result (λ c. app_of c ≡ with_commands (app_of program.entry) usages.now) }
{
    for usage in usages {
        program = program.subcommand(command(alloc, usage)?)?;
    }
    Ok(program)
}

/// A command with its words.
fn command<'a>(alloc: Global, usage: &Usage) -> Result<Command<'a>, AllocError>
    ensures app { IfOk result (λ c. app_of c ≡ app_for usage.now) }
    ensures local { IfOk result (λ c. (out-Command c).has_globals ≡ false) }
{
    let mut command = Command::new(alloc, usage.name)
        .about(usage.about)
        .after_help(usage.after);
    for word in usage.words {
        command = command.arg(argument(alloc, word))?;
    }
    Ok(command)
}

/// A word of a command, as an argument.
fn argument<'a>(alloc: Global, word: &Word) -> Arg<'a>
    ensures rule { rule_of result ≡ rule_for word.now }
    ensures local { result.global ≡ false }
{
    match *word {
        Word::Text(name, help) => required(alloc, name, help),
        Word::Number(name, help, most) => number(alloc, name, help, 0, most),
        Word::Option(name, help, long, least, most) => {
            option_number(alloc, name, long, help, least, most)
        }
        Word::Flag(name, help) => flag(alloc, name, help),
    }
}
