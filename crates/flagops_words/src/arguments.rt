//! Arguments of a command, as `clap` is told of them, and the mistake of a value that is not there.
ghost use Rattle.std.specs.Prelude.{◌≡◌, IfOk, codes, false};
ghost use Rattle.clap.specs.Words.{kind_of, rule_of};
ghost use Rattle.clap.specs.declared.error.kind.ErrorKind.TheVariants.{InvalidValue};
ghost use Rattle.flagops_words.specs.Numbers.{max_32};
ghost use Rattle.flagops_words.specs.Words.{flag, floats_flag, number, number_within, option_number, refine_option, required, some_words, strict_flag};

use crate::numbers::LARGEST_32;
use crate::table::{FLOATS_HELP, STRICT_HELP};
use clap::builder::ValueParser;
use clap::error::ErrorKind;
use clap::{Arg, ArgAction, Command, Error};
use std::alloc::{AllocError, Global};

/// A word that has to be there.
pub fn required<'a>(alloc: Global, name: &'a str, help: &'a str) -> Arg<'a>
    ensures rule { rule_of result ≡ required name.entry.now }
    ensures local { result.global ≡ false }
{
    Arg::new(alloc, name).required(true).help(help)
}

/// One word or more.
pub fn some_words<'a>(alloc: Global, name: &'a str, help: &'a str) -> Arg<'a>
    ensures rule { rule_of result ≡ some_words name.entry.now }
    ensures local { result.global ≡ false }
{
    Arg::new(alloc, name)
        .required(true)
        .help(help)
        .num_args(1..)
}

/// A number within bounds that has to be there.
pub fn number<'a>(alloc: Global, name: &'a str, help: &'a str, least: u64, most: u64) -> Arg<'a>
    ensures rule { rule_of result ≡ number_within name.entry.now least most }
    ensures local { result.global ≡ false }
{
    required(alloc, name, help).value_parser(ValueParser::Unsigned(least, most))
}

/// An option with a number within bounds, which may be left out.
pub fn option_number<'a>(
    alloc: Global,
    name: &'a str,
    long: &'a str,
    help: &'a str,
    least: u64,
    most: u64,
) -> Arg<'a>
    ensures rule { rule_of result ≡ option_number name.entry.now long.entry.now least most }
    ensures local { result.global ≡ false }
{
    Arg::new(alloc, name)
        .long(long)
        .help(help)
        .value_parser(ValueParser::Unsigned(least, most))
}

/// An option without a value, which may be left out, by its long name.
pub fn flag<'a>(alloc: Global, name: &'a str, help: &'a str) -> Arg<'a>
    ensures rule { rule_of result ≡ flag name.entry.now }
    ensures local { result.global ≡ false }
{
    Arg::new(alloc, name)
        .long(name)
        .action(ArgAction::SetTrue)
        .help(help)
}

/// `--strict`: what is else only told is refused.
pub fn strict<'a>(alloc: Global) -> Arg<'a>
    ensures rule { rule_of result ≡ strict_flag }
    ensures local { result.global ≡ false }
{
    flag(alloc, "strict", STRICT_HELP)
}

/// `--floats`: the variants of flags may be any numbers.
pub fn floats<'a>(alloc: Global) -> Arg<'a>
    ensures rule { rule_of result ≡ floats_flag }
    ensures local { result.global ≡ false }
{
    flag(alloc, "floats", FLOATS_HELP)
}

/// `--refine M`: what the weights of a site's rule are multiplied by.
pub fn refine<'a>(alloc: Global, help: &'a str) -> Arg<'a>
    ensures rule { rule_of result ≡ refine_option }
    ensures local { result.global ≡ false }
{
    option_number(alloc, "M", "refine", help, 1, LARGEST_32)
}

/// `SITE`: the number of a site of a flag.
pub fn site<'a>(alloc: Global) -> Arg<'a>
    ensures rule { rule_of result ≡ number (codes "SITE") max_32 }
    ensures local { result.global ≡ false }
{
    number(
        alloc,
        "SITE",
        "The number of the fractional operation, from 0",
        0,
        LARGEST_32,
    )
}

/// The mistake of a value that is not there, in the words of a command.
pub fn missing_value(alloc: Global, command: Command<'_>) -> Result<Error, AllocError>
    ensures { IfOk result (λ e. kind_of e ≡ InvalidValue) }
{
    let mut command = command;
    command.error(
        ErrorKind::InvalidValue,
        "a value is missing or out of its range",
    )
}
