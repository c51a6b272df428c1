//! What the filters take, in the terms of `clap`.
ghost use Rattle.std.specs.Prelude.{◌≡◌, IfOk, codes, false};
ghost use Rattle.clap.specs.Simple.{new_app, with_rule};
ghost use Rattle.clap.specs.Words.{app_of, rule_of};
ghost use Rattle.flagops_words.specs.Numbers.{max_moment};
ghost use Rattle.flagops_words.specs.Words.{option_number, required};
ghost use Rattle.flagops_filters.specs.Words.{join_app, max_workers, record_app, tally_app};

use clap::{Arg, Command};
use flagops_words::arguments::{floats, option_number, refine, required, site, some_words};
use flagops_words::{about, example};
use limits::LATEST_MOMENT;
use std::alloc::{AllocError, Global};

/// The most workers.
pub const MOST_WORKERS: u64 = limits::SEATS as u64;

/// The command `record`. The first of its words is its own name.
#[tactic(auto, unfolding(crate::specs::Words::record_app))]
pub fn record<'a>(alloc: Global) -> Result<Command<'a>, AllocError>
    ensures { IfOk result (λ c. app_of c ≡ record_app) }
{
    let moment = moment(alloc);
    let workers = workers(alloc);
    record_begun(alloc)?
        .arg(moment)?
        .arg(workers)?
        .arg(floats(alloc))
}

/// The words that `record` begins with.
fn record_begun<'a>(alloc: Global) -> Result<Command<'a>, AllocError>
    ensures { IfOk result (λ c. app_of c ≡ with_rule (with_rule (new_app (codes "record")) (required (codes "DOC"))) (required (codes "KEY"))) }
{
    let document = required(alloc, "DOC", "The flag document");
    let key = required(alloc, "KEY", "The flag's key");
    Command::new(alloc, "record")
        .bin_name("flagops record")?
        .about(about::RECORD)
        .after_help(example::RECORD)
        .arg(document)?
        .arg(key)
}

/// The command `tally`. The first of its words is its own name.
#[tactic(auto, unfolding(crate::specs::Words::tally_app))]
pub fn tally<'a>(alloc: Global) -> Result<Command<'a>, AllocError>
    ensures { IfOk result (λ c. app_of c ≡ tally_app) }
{
    let site = site(alloc);
    let factor = refine(
        alloc,
        "Tally in finer points: multiply each weight of the rule by M first",
    );
    tally_begun(alloc)?
        .arg(site)?
        .arg(factor)?
        .arg(floats(alloc))
}

/// The words that `tally` begins with.
fn tally_begun<'a>(alloc: Global) -> Result<Command<'a>, AllocError>
    ensures { IfOk result (λ c. app_of c ≡ with_rule (with_rule (new_app (codes "tally")) (required (codes "DOC"))) (required (codes "FLAG"))) }
{
    let document = required(alloc, "DOC", "The flag document");
    let key = required(alloc, "FLAG", "The flag's key");
    Command::new(alloc, "tally")
        .bin_name("flagops tally")?
        .about(about::TALLY)
        .after_help(example::TALLY)
        .arg(document)?
        .arg(key)
}

/// The command `join`. The first of its words is its own name.
#[tactic(auto, unfolding(crate::specs::Words::join_app))]
pub fn join<'a>(alloc: Global) -> Result<Command<'a>, AllocError>
    ensures { IfOk result (λ c. app_of c ≡ join_app) }
{
    let command = Command::new(alloc, "join")
        .bin_name("flagops join")?
        .about(about::JOIN)
        .after_help(example::JOIN);
    let tallies = some_words(
        alloc,
        "TALLY",
        "The files of tallies, in the order of their lines",
    );
    command.arg(tallies)
}

/// The moment of an evaluation.
fn moment<'a>(alloc: Global) -> Arg<'a>
    ensures rule { rule_of result ≡ option_number (codes "MOMENT") (codes "moment") 0 max_moment }
    ensures local { result.global ≡ false }
{
    option_number(
        alloc,
        "MOMENT",
        "moment",
        "The time of the evaluations, in seconds since 1970 [default: the clock's, where the targeting reads it]",
        0,
        LATEST_MOMENT,
    )
}

/// The workers that evaluate the contexts.
fn workers<'a>(alloc: Global) -> Arg<'a>
    ensures rule { rule_of result ≡ option_number (codes "WORKERS") (codes "workers") 1 max_workers }
    ensures local { result.global ≡ false }
{
    option_number(
        alloc,
        "WORKERS",
        "workers",
        "The most threads that evaluate contexts, from 1 to 64; the output is the same for any number [default: 4]",
        1,
        MOST_WORKERS,
    )
}
