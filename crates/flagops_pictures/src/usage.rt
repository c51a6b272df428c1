//! What `picture` and `plan --picture` take, in the terms of `clap`.
ghost use Rattle.std.specs.Prelude.{◌≡◌, IfOk, codes, false};
ghost use Rattle.clap.specs.Simple.{new_app, with_rule};
ghost use Rattle.clap.specs.Words.{app_of, rule_of};
ghost use Rattle.flagops_pictures.specs.Words.{picture_app, picture_option, plan_app, ramp_app};
ghost use Rattle.flagops_ramps.specs.Words.{with_steps};
ghost use Rattle.flagops_words.specs.Words.{flag, floats_flag, required, strict_flag, with_rollout};

use clap::{Arg, Command};
use flagops_ramps::with_steps;
use flagops_words::arguments::{flag, floats, refine, required, strict};
use flagops_words::{about, example};
use std::alloc::{AllocError, Global};

/// What the book of a rollout is.
const BOOK: &str = "The book of the hash inputs that were recorded, or a tally of them";

/// What `--refine` says of a plan that is drawn.
const REFINED: &str = "The factor that the plan was made with";

/// What `--refine` does to a rollout that is planned.
const PLANNED: &str =
    "Plan in finer points: multiply each weight of the rule by M first; 10 gives tenths of a percent";

/// The command `picture`. The first of its words is its own name.
#[tactic(auto, unfolding(crate::specs::Words::picture_app))]
pub(crate) fn usage<'a>(alloc: Global) -> Result<Command<'a>, AllocError>
    ensures { IfOk result (λ c. app_of c ≡ picture_app) }
{
    drawn(alloc)?
        .arg(refine(alloc, REFINED))?
        .arg(floats(alloc))
}

/// The command `picture` with its files.
fn drawn<'a>(alloc: Global) -> Result<Command<'a>, AllocError>
    ensures app { IfOk result (λ c. app_of c ≡ with_rule (with_rollout (new_app (codes "picture"))) (required (codes "PLAN"))) }
{
    let plan = required(alloc, "PLAN", "The plan file, as 'flagops plan' prints it");
    let command = Command::new(alloc, "picture")
        .bin_name("flagops picture")?
        .about(about::PICTURE)
        .after_help(example::PICTURE);
    rollout(alloc, command)?.arg(plan)
}

/// The command `picture --ramp`. The first of its words is its own name.
#[tactic(auto, unfolding(crate::specs::Words::ramp_app))]
pub(crate) fn ramp<'a>(alloc: Global) -> Result<Command<'a>, AllocError>
    ensures { IfOk result (λ c. app_of c ≡ ramp_app) }
{
    drawn_in_steps(alloc)?
        .arg(refine(alloc, REFINED))?
        .arg(floats(alloc))
}

/// The command `picture --ramp` with its files.
fn drawn_in_steps<'a>(alloc: Global) -> Result<Command<'a>, AllocError>
    ensures app { IfOk result (λ c. app_of c ≡ with_rule (with_rule (with_steps (new_app (codes "picture"))) (required (codes "RAMP"))) (flag (codes "ramp"))) }
{
    let answers = required(alloc, "RAMP", "The file that 'flagops ramp' printed");
    let ramp = flag(
        alloc,
        "ramp",
        "Draw each step of a rollout, one below the other",
    );
    steps(alloc)?.arg(answers)?.arg(ramp)
}

/// `plan --picture`. The first of its words is its own name.
#[tactic(auto, unfolding(crate::specs::Words::plan_app))]
pub(crate) fn plan<'a>(alloc: Global) -> Result<Command<'a>, AllocError>
    ensures { IfOk result (λ c. app_of c ≡ plan_app) }
{
    let command = Command::new(alloc, "plan")
        .bin_name("flagops plan")?
        .about(
            "Prints the rule that a rollout request asks for and that switches the fewest users, and writes its picture",
        )
        .after_help(example::PLAN_PICTURE);
    let picture = picture_file(alloc);
    let command = rollout(alloc, command)?
        .arg(picture)?
        .arg(refine(alloc, PLANNED))?;
    told(alloc, command)
}

/// A command with the options that say how its plan is told, `--strict` and `--explain`, and how its document is read.
fn told<'a>(alloc: Global, command: Command<'a>) -> Result<Command<'a>, AllocError>
    ensures app { IfOk result (λ c. app_of c ≡ with_rule (with_rule (with_rule (app_of command.entry) strict_flag) (flag (codes "explain"))) floats_flag) }
{
    let explain = flag(
        alloc,
        "explain",
        "Explain on standard error what the plan changes, or why no rule fits",
    );
    command.arg(strict(alloc))?.arg(explain)?.arg(floats(alloc))
}

/// `--picture FILE`.
fn picture_file<'a>(alloc: Global) -> Arg<'a>
    ensures rule { rule_of result ≡ picture_option }
    ensures local { result.global ≡ false }
{
    Arg::new(alloc, "FILE")
        .long("picture")
        .required(true)
        .help("The file that the picture of the plan is written to")
}

/// The command `picture` with the files of a rollout in steps.
fn steps<'a>(alloc: Global) -> Result<Command<'a>, AllocError>
    ensures app { IfOk result (λ c. app_of c ≡ with_steps (new_app (codes "picture"))) }
{
    let command = Command::new(alloc, "picture")
        .bin_name("flagops picture")?
        .about("Draws the steps of a rollout as SVG: what each moves, and what it costs")
        .after_help(example::PICTURE_RAMP);
    with_steps(alloc, command, BOOK)
}

/// A command with the files of a rollout.
fn rollout<'a>(alloc: Global, command: Command<'a>) -> Result<Command<'a>, AllocError>
    ensures app { IfOk result (λ c. app_of c ≡ with_rollout (app_of command.entry)) }
{
    let document = required(alloc, "DOC", "The flag document");
    let request = required(alloc, "REQUEST", "The file of the rollout request");
    let book = required(alloc, "BOOK", BOOK);
    command.arg(document)?.arg(request)?.arg(book)
}
