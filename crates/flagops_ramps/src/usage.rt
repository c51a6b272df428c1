//! What `ramp`, `verify-ramp`, `apply --step` and `apply --step --keep` take, in the terms of `clap`.
ghost use Rattle.std.specs.Prelude.{◌≡◌, IfOk, codes, false};
ghost use Rattle.clap.specs.Simple.{new_app, with_rule};
ghost use Rattle.clap.specs.Words.{app_of, rule_of};
ghost use Rattle.flagops_words.specs.Words.{refine_option, required};
ghost use Rattle.flagops_ramps.specs.Words.{keep_app, kept_put, kept_step, kept_words, ramp_app, step_app, step_option, verify_app, with_steps};

use clap::builder::ValueParser;
use clap::{Arg, Command};
use flagops_words::arguments::{flag, floats, refine, required, site, strict};
use flagops_words::{LARGEST_32, about, example};
use std::alloc::{AllocError, Global};

/// What the book of a rollout is.
const BOOK: &str = "The book of the hash inputs that were recorded, or a tally of them";

/// What the file of the answers is.
const RAMP: &str = "The file that ramp printed";

/// What the file of the steps is.
const STEPS: &str =
    "The file of the rollout request, with \"steps\", a list of totals, for \"totals\"";

/// What `--refine` does to a rollout in steps.
const REFINED: &str =
    "Plan in finer points: multiply each weight of the rule by M before the first step";

/// The command `ramp`. The first of its words is its own name.
#[tactic(auto, unfolding(crate::specs::Words::ramp_app))]
pub fn ramp<'a>(alloc: Global) -> Result<Command<'a>, AllocError>
    ensures { IfOk result (λ c. app_of c ≡ ramp_app) }
{
    let strict = strict(alloc);
    let floats = floats(alloc);
    ramped(alloc)?.arg(strict)?.arg(floats)
}

/// The words that `ramp` begins with, and its factor.
fn ramped<'a>(alloc: Global) -> Result<Command<'a>, AllocError>
    ensures { IfOk result (λ c. app_of c ≡ with_rule (with_steps (new_app (codes "ramp"))) refine_option) }
{
    let command = Command::new(alloc, "ramp")
        .bin_name("flagops ramp")?
        .about(about::RAMP)
        .after_help(example::RAMP);
    let factor = refine(alloc, REFINED);
    with_steps(alloc, command, BOOK)?.arg(factor)
}

/// The command `verify-ramp`. The first of its words is its own name.
#[tactic(auto, unfolding(crate::specs::Words::verify_app))]
pub fn verify<'a>(alloc: Global) -> Result<Command<'a>, AllocError>
    ensures { IfOk result (λ c. app_of c ≡ verify_app) }
{
    let factor = refine(alloc, REFINED);
    let strict = strict(alloc);
    let floats = floats(alloc);
    verified(alloc)?.arg(factor)?.arg(strict)?.arg(floats)
}

/// The words that `verify-ramp` begins with.
fn verified<'a>(alloc: Global) -> Result<Command<'a>, AllocError>
    ensures { IfOk result (λ c. app_of c ≡ with_rule (with_steps (new_app (codes "verify-ramp"))) (required (codes "RAMP"))) }
{
    let command = Command::new(alloc, "verify-ramp")
        .bin_name("flagops verify-ramp")?
        .about(about::VERIFY_RAMP)
        .after_help(example::VERIFY_RAMP);
    let answers = required(alloc, "RAMP", RAMP);
    with_steps(alloc, command, BOOK)?.arg(answers)
}

/// `apply --step`. The first of its words is its own name.
#[tactic(auto, unfolding(crate::specs::Words::step_app))]
pub fn step<'a>(alloc: Global) -> Result<Command<'a>, AllocError>
    ensures { IfOk result (λ c. app_of c ≡ step_app) }
{
    let site = site(alloc);
    let number = step_number(alloc);
    let strict = strict(alloc);
    let floats = floats(alloc);
    applied(alloc)?
        .arg(site)?
        .arg(number)?
        .arg(strict)?
        .arg(floats)
}

/// The words that `apply --step` begins with.
fn applied<'a>(alloc: Global) -> Result<Command<'a>, AllocError>
    ensures { IfOk result (λ c. app_of c ≡ with_rule (with_rule (with_rule (new_app (codes "apply")) (required (codes "DOC"))) (required (codes "RAMP"))) (required (codes "FLAG"))) }
{
    let document = required(alloc, "DOC", "The flag document");
    let ramp = required(alloc, "RAMP", RAMP);
    let flag = required(alloc, "FLAG", "The flag's key");
    Command::new(alloc, "apply")
        .bin_name("flagops apply")?
        .about(
            "Prints a document with the rule that a step of a rollout left at a site of a flag; with --keep nothing else of its text changes",
        )
        .after_help(example::APPLY_STEP)
        .arg(document)?
        .arg(ramp)?
        .arg(flag)
}

/// `apply --step --keep`. The first of its words is its own name.
#[tactic(auto, unfolding(crate::specs::Words::keep_app))]
pub fn keep<'a>(alloc: Global) -> Result<Command<'a>, AllocError>
    ensures { IfOk result (λ c. app_of c ≡ keep_app) }
{
    let strict = strict(alloc);
    let doubted = flag(
        alloc,
        "doubted",
        "With --write: write in spite of doubts, which are errors otherwise",
    );
    let floats = floats(alloc);
    kept_put(alloc)?.arg(strict)?.arg(doubted)?.arg(floats)
}

/// The words that `apply --step --keep` begins with, the step, and what becomes of its text.
fn kept_put<'a>(alloc: Global) -> Result<Command<'a>, AllocError>
    ensures { IfOk result (λ c. app_of c ≡ kept_put) }
{
    let write = flag(
        alloc,
        "write",
        "Write the document over DOC instead of printing it",
    );
    let factor = refine(alloc, "The factor that the first step was planned with");
    kept_step(alloc)?.arg(write)?.arg(factor)
}

/// The words that `apply --step --keep` begins with, and the step.
fn kept_step<'a>(alloc: Global) -> Result<Command<'a>, AllocError>
    ensures { IfOk result (λ c. app_of c ≡ kept_step) }
{
    let number = step_number(alloc);
    let keep = flag(
        alloc,
        "keep",
        "Verify the steps from this one on, and change nothing in the text of the document but the buckets",
    );
    kept_words(alloc)?.arg(number)?.arg(keep)
}

/// The files that `apply --step --keep` reads.
fn kept_words<'a>(alloc: Global) -> Result<Command<'a>, AllocError>
    ensures { IfOk result (λ c. app_of c ≡ kept_words) }
{
    let steps = required(alloc, "STEPS", STEPS);
    let book = required(alloc, "BOOK", BOOK);
    kept_files(alloc)?.arg(steps)?.arg(book)
}

/// The document and the answers that they begin with.
fn kept_files<'a>(alloc: Global) -> Result<Command<'a>, AllocError>
    ensures { IfOk result (λ c. app_of c ≡ with_rule (with_rule (new_app (codes "apply")) (required (codes "DOC"))) (required (codes "RAMP"))) }
{
    let document = required(alloc, "DOC", "The flag document");
    let ramp = required(alloc, "RAMP", RAMP);
    Command::new(alloc, "apply")
        .bin_name("flagops apply")?
        .about("Puts the rule of a step of a rollout into a document of which nothing else changes")
        .after_help(example::KEEP_STEP)
        .arg(document)?
        .arg(ramp)
}

/// The words that a command on the steps of a rollout begins with. `book` says what the book is.
pub fn with_steps<'a>(
    alloc: Global,
    command: Command<'a>,
    book: &'a str,
) -> Result<Command<'a>, AllocError>
    ensures { IfOk result (λ c. app_of c ≡ with_steps (app_of command.entry)) }
{
    let document = required(alloc, "DOC", "The flag document");
    let steps = required(alloc, "STEPS", STEPS);
    let book = required(alloc, "BOOK", book);
    command.arg(document)?.arg(steps)?.arg(book)
}

/// The number of a step.
fn step_number<'a>(alloc: Global) -> Arg<'a>
    ensures rule { rule_of result ≡ step_option }
    ensures local { result.global ≡ false }
{
    Arg::new(alloc, "N")
        .long("step")
        .required(true)
        .help("The number of the step whose rule is put into the document, from 1")
        .value_parser(ValueParser::Unsigned(1, LARGEST_32))
}
