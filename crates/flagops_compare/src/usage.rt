//! What `compare` takes, in the terms of `clap`.
ghost use Rattle.std.specs.Prelude.{◌≡◌, IfOk, false};
ghost use Rattle.clap.specs.Simple.{new_app, with_rule};
ghost use Rattle.clap.specs.Words.{app_of, rule_of};
ghost use Rattle.flagops_compare.specs.Words.{compare_app, compare_begun, compare_files, flag_option, picture_option};

use clap::{Arg, Command};
use flagops_words::arguments::{flag, floats, required};
use flagops_words::{about, example};
use std::alloc::{AllocError, Global};

/// The command `compare`. The first of its words is its own name.
#[tactic(auto, unfolding(crate::specs::Words::compare_app))]
pub(crate) fn usage<'a>(alloc: Global) -> Result<Command<'a>, AllocError>
    ensures { IfOk result (λ c. app_of c ≡ compare_app) }
{
    let strict = flag(
        alloc,
        "strict",
        "End with status 1 where a page has no rules to compare, or KEY has no page",
    );
    let json = flag(alloc, "json", "Print the result as JSON, on one line");
    begun(alloc)?.arg(strict)?.arg(json)?.arg(floats(alloc))
}

/// The command with its files, `--flag` and `--picture`.
fn begun<'a>(alloc: Global) -> Result<Command<'a>, AllocError>
    ensures app { IfOk result (λ c. app_of c ≡ compare_begun) }
{
    files(alloc)?.arg(only(alloc))?.arg(picture(alloc))
}

/// The command with its files.
fn files<'a>(alloc: Global) -> Result<Command<'a>, AllocError>
    ensures app { IfOk result (λ c. app_of c ≡ compare_files) }
{
    let old = required(alloc, "OLD", "The flag document before the edit");
    let new = required(alloc, "NEW", "The flag document after the edit");
    let book = required(
        alloc,
        "BOOK",
        "The book of the hash inputs that were recorded, or a tally of them",
    );
    Command::new(alloc, "compare")
        .bin_name("flagops compare")?
        .about(about::COMPARE)
        .after_help(example::COMPARE)
        .arg(old)?
        .arg(new)?
        .arg(book)
}

/// `--flag KEY`.
fn only<'a>(alloc: Global) -> Arg<'a>
    ensures rule { rule_of result ≡ flag_option }
    ensures local { result.global ≡ false }
{
    Arg::new(alloc, "KEY")
        .long("flag")
        .help("Compare on the pages of this flag alone")
}

/// `--picture FILE`.
fn picture<'a>(alloc: Global) -> Arg<'a>
    ensures rule { rule_of result ≡ picture_option }
    ensures local { result.global ≡ false }
{
    Arg::new(alloc, "FILE")
        .long("picture")
        .help("Write the picture of the change to this file, as SVG")
}
