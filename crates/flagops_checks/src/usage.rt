//! What `check` takes, in the terms of `clap`.
ghost use Rattle.std.specs.Prelude.{◌≡◌, IfOk, codes};
ghost use Rattle.clap.specs.Simple.{new_app, with_rule};
ghost use Rattle.clap.specs.Words.{app_of};
ghost use Rattle.flagops_words.specs.Words.{some_words, strict_flag};
ghost use Rattle.flagops_checks.specs.Words.{check_app};

use clap::Command;
use flagops_words::arguments::{flag, floats, some_words};
use flagops_words::{about, example};
use std::alloc::{AllocError, Global};

/// The command `check`. The first of its words is its own name.
#[tactic(auto, unfolding(crate::specs::Words::check_app))]
pub fn usage<'a>(alloc: Global) -> Result<Command<'a>, AllocError>
    ensures { IfOk result (λ c. app_of c ≡ check_app) }
{
    let json = flag(
        alloc,
        "json",
        "Print a JSON text for each document, one a line",
    );
    begun(alloc)?.arg(json)?.arg(floats(alloc))
}

/// The words that it begins with.
fn begun<'a>(alloc: Global) -> Result<Command<'a>, AllocError>
    ensures { IfOk result (λ c. app_of c ≡ with_rule (with_rule (new_app (codes "check")) (some_words (codes "DOC"))) strict_flag) }
{
    let documents = some_words(alloc, "DOC", "The flag documents");
    let strict = flag(
        alloc,
        "strict",
        "Treat warnings as errors: end with status 1 if a flag is broken or doubted, or a member of a document is not read",
    );
    Command::new(alloc, "check")
        .bin_name("flagops check")?
        .about(about::CHECK)
        .after_help(example::CHECK)
        .arg(documents)?
        .arg(strict)
}
