//! What the words of `serve` and `follow` ask for, as `clap` reads them.
ghost use Rattle.std.specs.Prelude.{◌≡◌, IfErr, IfOk, Some, map, option_map};
ghost use Rattle.clap.specs.Words.{found_of, kind_of, rows_of};
ghost use Rattle.flagops_words.specs.Alone.{IsToldBy};
ghost use Rattle.flagops_streams.specs.Words.{follow_by, follow_faults, following_in, following_view, serve_by, serve_faults, serving_in, serving_view, wait_in};

use crate::asked::{Following, Serving};
use crate::usage::{LONGEST_WAIT, MOST_SUBSCRIBERS, MOST_TURNS, follow, serve};
use clap::{ArgMatches, Error};
use flagops_words::LARGEST_PORT;
use flagops_words::arguments::missing_value;
use flagops_words::matches::{has_floats, number_at, number_or, texts_at};
use std::alloc::{AllocError, Global};
use std::convert::AsStr;

/// What the words after the program's name ask of `serve`, which is the first of them.
#[tactic(auto, unfolding(crate::specs::Words::serve_by, crate::specs::Words::serve_faults))]
pub fn read_serve<'a, S: AsStr>(alloc: Global, words: &'a [S]) -> Result<Serving<'a>, Error>
    ensures ok { IfOk result (λ s. serve_by (map S.text words.entry.now) ≡ Some (serving_view s)) }
    ensures err { IfErr result (λ e. IsToldBy (serve_faults (map S.text words.entry.now)) (serve_by (map S.text words.entry.now)) (kind_of e)) }
{
    let matches = serve(alloc)?.try_get_matches_from(words)?;
    let told = serving_in(alloc, &matches)?;
    match told {
        Some(serving) => Ok(serving),
        // Words that `clap` takes have a value for each argument, within its bounds.
        None => Err(missing_value(alloc, serve(alloc)?)?),
    }
}

/// What the words after the program's name ask of `follow`, which is the first of them.
#[tactic(auto, unfolding(crate::specs::Words::follow_by, crate::specs::Words::follow_faults))]
pub fn read_follow<S: AsStr>(alloc: Global, words: &[S]) -> Result<Following, Error>
    ensures ok { IfOk result (λ f. follow_by (map S.text words.now) ≡ Some (following_view f)) }
    ensures err { IfErr result (λ e. IsToldBy (follow_faults (map S.text words.now)) (follow_by (map S.text words.now)) (kind_of e)) }
{
    let matches = follow(alloc)?.try_get_matches_from(words)?;
    match following_in(&matches) {
        Some(following) => Ok(following),
        None => Err(missing_value(alloc, follow(alloc)?)?),
    }
}

fn serving_in<'a>(
    alloc: Global,
    matches: &ArgMatches<'a>,
) -> Result<Option<Serving<'a>>, AllocError>
    ensures { IfOk result (λ o. option_map serving_view o ≡ serving_in (rows_of (found_of matches.now))) }
{
    let Some(port) = number_at(matches, "PORT", 1, LARGEST_PORT) else {
        return Ok(None);
    };
    let Some(subscribers) = number_at(matches, "SUBSCRIBERS", 1, MOST_SUBSCRIBERS) else {
        return Ok(None);
    };
    let Some(wait) = wait_in(matches) else {
        return Ok(None);
    };
    let Some(documents) = texts_at(matches, "DOC") else {
        return Ok(None);
    };
    Ok(Some(Serving {
        port: port as u16,
        subscribers: subscribers as usize,
        wait,
        documents: documents.to_vec(alloc)?,
        floats: has_floats(matches),
    }))
}

fn following_in(matches: &ArgMatches<'_>) -> Option<Following>
    ensures { option_map following_view result ≡ following_in (rows_of (found_of matches.now)) }
{
    let port = number_at(matches, "PORT", 1, LARGEST_PORT)?;
    let turns = number_at(matches, "TURNS", 1, MOST_TURNS)?;
    let wait = wait_in(matches)?;
    Some(Following {
        port: port as u16,
        turns,
        wait,
    })
}

/// The seconds that are given for `--wait`, 0 where it is left out.
fn wait_in(matches: &ArgMatches<'_>) -> Option<u64>
    ensures { result ≡ wait_in (rows_of (found_of matches.now)) }
{
    number_or(matches, "SECONDS", 0, 0, LONGEST_WAIT)
}
