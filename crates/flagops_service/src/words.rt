//! What the words of `ofrep` ask for, as `clap` reads them.
ghost use Rattle.std.specs.Prelude.{◌≡◌, ◌≤◌, IfErr, IfOk, IfSome, Some, map, option_map, option_copied};
ghost use Rattle.clap.specs.Walk.{first_of};
ghost use Rattle.clap.specs.Words.{found_of, kind_of, rows_of};
ghost use Rattle.flagops_words.specs.Alone.{IsToldBy};
ghost use Rattle.flagops_words.specs.Numbers.{max_port};
ghost use Rattle.flagops_service.specs.Words.{answering_in, answering_view, broken_in, broken_named, ofrep_by, ofrep_faults, origins_in, port_in, without_record_in, without_record_named};

use crate::asked::{Answering, OnBroken};
use crate::usage::{
    LARGEST_BODY, LONGEST_IDLE, LONGEST_POLL, MOST_REMEMBERED, MOST_WORKERS, command,
};
use clap::{ArgMatches, Error};
use flagops_words::arguments::missing_value;
use flagops_words::matches::{flag_in, number_or, texts_at};
use flagops_words::{LARGEST_PORT, spelled};
use ofrep_worker::WithoutRecord;
use std::alloc::{AllocError, Global};
use std::convert::AsStr;

/// The workers where their number is left out.
const WORKERS: u64 = 4;

/// How many notes the workers remember together where their number is left out.
const REMEMBERED: u64 = 1_000_000;

/// The seconds between two readings where they are left out.
const POLL: u64 = 2;

/// The seconds for which an idle connection is kept where they are left out: more than the usual 60 of proxies.
const IDLE: u64 = 75;

/// The most bytes of a body where they are left out.
const BODY: u64 = 1_048_576;

/// What the words after the program's name ask of `ofrep`, which is the first of them.
#[tactic(auto, unfolding(crate::specs::Words::ofrep_by, crate::specs::Words::ofrep_faults))]
pub fn read_ofrep<'a, S: AsStr>(alloc: Global, words: &'a [S]) -> Result<Answering<'a>, Error>
    ensures ok { IfOk result (λ a. ofrep_by (map S.text words.entry.now) ≡ Some (answering_view a)) }
    ensures err { IfErr result (λ e. IsToldBy (ofrep_faults (map S.text words.entry.now)) (ofrep_by (map S.text words.entry.now)) (kind_of e)) }
{
    let matches = command(alloc)?.try_get_matches_from(words)?;
    let told = answering_in(alloc, &matches)?;
    match told {
        Some(answering) => Ok(answering),
        // Words that `clap` takes have a value for each argument, within its bounds.
        None => Err(missing_value(alloc, command(alloc)?)?),
    }
}

fn answering_in<'a>(
    alloc: Global,
    matches: &ArgMatches<'a>,
) -> Result<Option<Answering<'a>>, AllocError>
    ensures { IfOk result (λ o. option_map answering_view o ≡ answering_in (rows_of (found_of matches.now))) }
{
    let Some(remember) = number_or(matches, "NOTES", REMEMBERED, 0, MOST_REMEMBERED) else {
        return Ok(None);
    };
    let Some(without_record) = without_record_in(matches) else {
        return Ok(None);
    };
    let Some(broken) = broken_in(matches) else {
        return Ok(None);
    };
    let Some(stream) = port_in(matches) else {
        return Ok(None);
    };
    let Some(workers) = number_or(matches, "N", WORKERS, 1, MOST_WORKERS) else {
        return Ok(None);
    };
    let Some(poll) = number_or(matches, "SECONDS", POLL, 0, LONGEST_POLL) else {
        return Ok(None);
    };
    let Some(idle) = number_or(matches, "S", IDLE, 1, LONGEST_IDLE) else {
        return Ok(None);
    };
    let Some(max_body) = number_or(matches, "BYTES", BODY, 1, LARGEST_BODY) else {
        return Ok(None);
    };
    let Some(documents) = texts_at(matches, "DOC") else {
        return Ok(None);
    };
    Ok(Some(Answering {
        listen: text_at(matches, "ADDRESS:PORT"),
        cors: origins_in(alloc, matches)?,
        keys: text_at(matches, "FILE"),
        admin: text_at(matches, "HOST:PORT"),
        allow_stop: flag_in(matches, "allow-stop"),
        allow_apply: flag_in(matches, "allow-apply"),
        access_log: flag_in(matches, "access-log"),
        log: text_at(matches, "FOLDER"),
        log_points: flag_in(matches, "log-points"),
        remember,
        without_record,
        stream,
        workers,
        poll,
        idle,
        max_body,
        broken,
        documents: documents.to_vec(alloc)?,
    }))
}

/// The origins that are given, none where none is.
#[tactic(auto, using(flagops_words::proofs::Matched::rows))]
fn origins_in<'a>(alloc: Global, matches: &ArgMatches<'a>) -> Result<Vec<&'a str>, AllocError>
    ensures { IfOk result (λ origins. map (λ o. o.now) origins.items ≡ origins_in (rows_of (found_of matches.now))) }
{
    match matches.get_strs("ORIGIN") {
        Some(origins) => origins.to_vec(alloc),
        None => Ok(Vec::new(alloc)),
    }
}

/// The text that is given for an argument, where there is one.
#[tactic(auto, using(flagops_words::proofs::Matched::rows))]
fn text_at<'a>(matches: &ArgMatches<'a>, name: &str) -> Option<&'a str>
    ensures { option_copied result ≡ first_of name.now (rows_of (found_of matches.now)) }
{
    matches.get_str(name)
}

/// What becomes of answers that can't be recorded; `None` where the word names nothing.
#[tactic(auto, using(flagops_words::proofs::Matched::rows))]
fn without_record_in(matches: &ArgMatches<'_>) -> Option<WithoutRecord>
    ensures { result ≡ without_record_in (rows_of (found_of matches.now)) }
{
    match matches.get_str("answer|refuse") {
        Some(word) => without_record_named(word),
        None => Some(WithoutRecord::Refuse),
    }
}

/// What becomes of answers that can't be recorded, by its name.
fn without_record_named(word: &str) -> Option<WithoutRecord>
    ensures { result ≡ without_record_named word.now }
{
    match word {
        "answer" => Some(WithoutRecord::Answer),
        "refuse" => Some(WithoutRecord::Refuse),
        _ => None,
    }
}

/// What becomes of flags that are broken; `None` where the word names nothing.
#[tactic(auto, using(flagops_words::proofs::Matched::rows))]
fn broken_in(matches: &ArgMatches<'_>) -> Option<OnBroken>
    ensures { result ≡ broken_in (rows_of (found_of matches.now)) }
{
    match matches.get_str("refuse|serve") {
        Some(word) => broken_named(word),
        None => Some(OnBroken::Keep),
    }
}

/// What becomes of flags that are broken, by its name.
fn broken_named(word: &str) -> Option<OnBroken>
    ensures { result ≡ broken_named word.now }
{
    match word {
        "refuse" => Some(OnBroken::Refuse),
        "serve" => Some(OnBroken::Serve),
        _ => None,
    }
}

/// The port of the stream, where one is given.
#[tactic(auto, using(flagops_words::proofs::Matched::rows))]
fn port_in(matches: &ArgMatches<'_>) -> Option<Option<u16>>
    ensures { result ≡ port_in (rows_of (found_of matches.now)) }
{
    match matches.get_str("PORT") {
        Some(word) => as_port(spelled(word, 1, LARGEST_PORT)),
        None => Some(None),
    }
}

fn as_port(number: Option<u64>) -> Option<Option<u16>>
    requires { IfSome number (λ n. n ≤ max_port) }
    ensures { result ≡ option_map Some number }
{
    match number {
        Some(number) => Some(Some(number as u16)),
        None => None,
    }
}
