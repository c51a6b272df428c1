//! What `serve` and `follow` take, in the terms of `clap`.
ghost use Rattle.std.specs.Prelude.{◌≡◌, IfOk, false};
ghost use Rattle.clap.specs.Words.{app_of, rule_of};
ghost use Rattle.flagops_streams.specs.Words.{follow_app, serve_app, serve_begun, wait_option};

use clap::{Arg, Command};
use flagops_words::arguments::{floats, number, option_number, some_words};
use flagops_words::{LARGEST_PORT, about, example};
use std::alloc::{AllocError, Global};

/// The most subscribers.
pub const MOST_SUBSCRIBERS: u64 = limits::SEATS as u64;

/// The most turns of a follower.
pub const MOST_TURNS: u64 = 1_000_000;

/// The most seconds that are waited, a day.
pub const LONGEST_WAIT: u64 = 86_400;

/// The command `serve`. The first of its words is its own name.
#[tactic(auto, unfolding(crate::specs::Words::serve_app))]
pub fn serve<'a>(alloc: Global) -> Result<Command<'a>, AllocError>
    ensures { IfOk result (λ c. app_of c ≡ serve_app) }
{
    serve_begun(alloc)?
        .arg(wait(
            alloc,
            "How many seconds to wait for the subscribers, and for each to take its snapshots, at most 86400; 0 is for ever",
        ))?
        .arg(floats(alloc))
}

/// The command `serve` with the words that have to be there.
#[tactic(auto, unfolding(crate::specs::Words::serve_begun))]
fn serve_begun<'a>(alloc: Global) -> Result<Command<'a>, AllocError>
    ensures { IfOk result (λ c. app_of c ≡ serve_begun) }
{
    let port = number(
        alloc,
        "PORT",
        "The port on 127.0.0.1, from 1 to 65535",
        1,
        LARGEST_PORT,
    );
    let subscribers = number(
        alloc,
        "SUBSCRIBERS",
        "How many subscribers to wait for, from 1 to 64",
        1,
        MOST_SUBSCRIBERS,
    );
    let documents = some_words(
        alloc,
        "DOC",
        "The flag documents, published one after the other, each merged over those before it",
    );
    Command::new(alloc, "serve")
        .bin_name("flagops serve")?
        .about(about::SERVE)
        .after_help(example::SERVE)
        .arg(port)?
        .arg(subscribers)?
        .arg(documents)
}

/// The command `follow`. The first of its words is its own name.
#[tactic(auto, unfolding(crate::specs::Words::follow_app))]
pub fn follow<'a>(alloc: Global) -> Result<Command<'a>, AllocError>
    ensures { IfOk result (λ c. app_of c ≡ follow_app) }
{
    let port = number(
        alloc,
        "PORT",
        "The port on 127.0.0.1, from 1 to 65535",
        1,
        LARGEST_PORT,
    );
    let turns = number(
        alloc,
        "TURNS",
        "The most reads of the stream, from 1 to 1000000",
        1,
        MOST_TURNS,
    );
    Command::new(alloc, "follow")
        .bin_name("flagops follow")?
        .about(about::FOLLOW)
        .after_help(example::FOLLOW)
        .arg(port)?
        .arg(turns)?
        .arg(wait(
            alloc,
            "How many seconds a read waits for data, at most 86400; 0 is for ever",
        ))
}

/// `--wait SECONDS`, which may be left out.
fn wait<'a>(alloc: Global, help: &'a str) -> Arg<'a>
    ensures rule { rule_of result ≡ wait_option }
    ensures local { result.global ≡ false }
{
    option_number(alloc, "SECONDS", "wait", help, 0, LONGEST_WAIT)
}
