//! What `ofrep` takes, in the terms of `clap`.
ghost use Rattle.std.specs.Prelude.{◌≡◌, IfOk, false};
ghost use Rattle.clap.specs.Words.{app_of, rule_of};
ghost use Rattle.flagops_service.specs.Words.{ofrep_app, ofrep_begun, ofrep_chosen, ofrep_guarded, ofrep_limited, ofrep_logged, ofrep_operated, option_text, option_texts};

use clap::{Arg, ArgAction, Command};
use flagops_words::arguments::{flag, option_number, some_words};
use flagops_words::{LARGEST_PORT, about, example};
use std::alloc::{AllocError, Global};

/// The most workers.
pub const MOST_WORKERS: u64 = 32;

/// The most notes that the workers remember together.
pub const MOST_REMEMBERED: u64 = 16_777_216;

/// The most seconds between two readings of the documents.
pub const LONGEST_POLL: u64 = 3_600;

/// The longest that an idle connection is kept, in seconds.
pub const LONGEST_IDLE: u64 = 3_600;

/// The most bytes of a body that may be taken.
pub const LARGEST_BODY: u64 = 4_194_304;

/// The command `ofrep`. The first of its words is its own name.
#[tactic(auto, unfolding(crate::specs::Words::ofrep_app))]
pub fn command<'a>(alloc: Global) -> Result<Command<'a>, AllocError>
    ensures { IfOk result (λ c. app_of c ≡ ofrep_app) }
{
    let stream = option_number(
        alloc,
        "PORT",
        "stream",
        "The port of 127.0.0.1 on which each snapshot is sent to at most 32 subscribers at once",
        1,
        LARGEST_PORT,
    );
    let workers = option_number(
        alloc,
        "N",
        "workers",
        "How many threads serve requests, from 1 to 32 [default: 4]",
        1,
        MOST_WORKERS,
    );
    let poll = option_number(
        alloc,
        "SECONDS",
        "poll",
        "Read the documents again every so many seconds, at most 3600; 0 is never [default: 2]",
        0,
        LONGEST_POLL,
    );
    chosen(alloc)?.arg(stream)?.arg(workers)?.arg(poll)
}

/// The command `ofrep` with the words that are texts, and those that say what becomes of notes, of answers and of flags.
#[tactic(auto, unfolding(crate::specs::Words::ofrep_chosen))]
fn chosen<'a>(alloc: Global) -> Result<Command<'a>, AllocError>
    ensures { IfOk result (λ c. app_of c ≡ ofrep_chosen) }
{
    let remember = option_number(
        alloc,
        "NOTES",
        "remember",
        "How many notes the workers remember together, so as to write each once, at most 16777216 [default: 1000000]",
        0,
        MOST_REMEMBERED,
    );
    let without_record = text(
        alloc,
        "answer|refuse",
        "without-record",
        "What to do with an answer whose notes cannot be written to the log [default: refuse]",
    );
    let broken = text(
        alloc,
        "refuse|serve",
        "broken",
        "refuse: do not start with a broken flag; serve: accept changes of a document even if they break flags [default: neither]",
    );
    limited(alloc)?
        .arg(remember)?
        .arg(without_record)?
        .arg(broken)
}

/// The command `ofrep` with the words that are texts, those that say who may ask, those of operations, and the limits of connections.
#[tactic(auto, unfolding(crate::specs::Words::ofrep_limited))]
fn limited<'a>(alloc: Global) -> Result<Command<'a>, AllocError>
    ensures { IfOk result (λ c. app_of c ≡ ofrep_limited) }
{
    let idle = option_number(
        alloc,
        "S",
        "idle",
        "Close a connection that is idle for so many seconds, from 1 to 3600 [default: 75]",
        1,
        LONGEST_IDLE,
    );
    let body = option_number(
        alloc,
        "BYTES",
        "max-body",
        "The most bytes of a request's body, from 1 to 4194304 [default: 1048576]",
        1,
        LARGEST_BODY,
    );
    operated(alloc)?.arg(idle)?.arg(body)
}

/// The command `ofrep` with the words that are texts, those that say who may ask, and those of operations.
#[tactic(auto, unfolding(crate::specs::Words::ofrep_operated))]
fn operated<'a>(alloc: Global) -> Result<Command<'a>, AllocError>
    ensures { IfOk result (λ c. app_of c ≡ ofrep_operated) }
{
    let admin = text(
        alloc,
        "HOST:PORT",
        "admin",
        "The address for the console, and for /healthz, /readyz and /metrics, which are then not served at --listen",
    );
    let stop = flag(
        alloc,
        "allow-stop",
        "Let POST /stop at the address of --admin end the service, once every response under way has been sent",
    );
    let apply = flag(
        alloc,
        "allow-apply",
        "Let POST /apply at the address of --admin write DOC with the rule of a plan that is right on the record",
    );
    let lines = flag(
        alloc,
        "access-log",
        "Write a line of JSON for each request to standard error",
    );
    guarded(alloc)?
        .arg(admin)?
        .arg(stop)?
        .arg(apply)?
        .arg(lines)
}

/// The command `ofrep` with the words that are texts, and those that say who may ask.
#[tactic(auto, unfolding(crate::specs::Words::ofrep_guarded))]
fn guarded<'a>(alloc: Global) -> Result<Command<'a>, AllocError>
    ensures { IfOk result (λ c. app_of c ≡ ofrep_guarded) }
{
    let origins = texts(
        alloc,
        "ORIGIN",
        "cors",
        "An origin whose web pages may send requests, as https://app.example.com, or * for any; may be given more than once",
    );
    let keys = text(
        alloc,
        "FILE",
        "keys",
        "A file of keys, one a line: each request for an evaluation needs one of them",
    );
    logged(alloc)?.arg(origins)?.arg(keys)
}

/// The command `ofrep` with the words that are texts, and what is recorded.
#[tactic(auto, unfolding(crate::specs::Words::ofrep_logged))]
fn logged<'a>(alloc: Global) -> Result<Command<'a>, AllocError>
    ensures { IfOk result (λ c. app_of c ≡ ofrep_logged) }
{
    let points = flag(
        alloc,
        "log-points",
        "Record the 32-bit hash of each hash input instead of the input: no book takes such lines, tally counts them by their hashes",
    );
    begun(alloc)?.arg(points)
}

/// The command `ofrep` with the words that are texts.
#[tactic(auto, unfolding(crate::specs::Words::ofrep_begun))]
fn begun<'a>(alloc: Global) -> Result<Command<'a>, AllocError>
    ensures { IfOk result (λ c. app_of c ≡ ofrep_begun) }
{
    let documents = some_words(
        alloc,
        "DOC",
        "The flag documents, each merged over those before it",
    );
    let listen = text(
        alloc,
        "ADDRESS:PORT",
        "listen",
        "The address to serve HTTP on; port 0 takes a free one [default: 127.0.0.1:8016]",
    );
    let log = text(
        alloc,
        "FOLDER",
        "log",
        "The folder in which each worker records hash inputs before it responds",
    );
    Command::new(alloc, "ofrep")
        .bin_name("flagops ofrep")?
        .about(about::OFREP)
        .after_help(example::OFREP)
        .arg(documents)?
        .arg(listen)?
        .arg(log)
}

/// An option with a text, which may be left out.
fn text<'a>(alloc: Global, name: &'a str, long: &'a str, help: &'a str) -> Arg<'a>
    ensures rule { rule_of result ≡ option_text name.entry.now long.entry.now }
    ensures local { result.global ≡ false }
{
    Arg::new(alloc, name).long(long).help(help)
}

/// An option with a text, which may be given more than once.
fn texts<'a>(alloc: Global, name: &'a str, long: &'a str, help: &'a str) -> Arg<'a>
    ensures rule { rule_of result ≡ option_texts name.entry.now long.entry.now }
    ensures local { result.global ≡ false }
{
    Arg::new(alloc, name)
        .long(long)
        .action(ArgAction::Append)
        .help(help)
}
