//! What the words of `record`, `tally` and `join` ask for, as `clap` reads them.
ghost use Rattle.std.specs.Prelude.{◌≡◌, ◌∷◌, IfErr, IfOk, Some, codes, map, option_map};
ghost use Rattle.clap.specs.Walk.{first_of};
ghost use Rattle.clap.specs.Words.{found_of, kind_of, rows_of};
ghost use Rattle.flagops_words.specs.Alone.{IsToldBy};
ghost use Rattle.flagops_words.specs.Words.{texts_at};
ghost use Rattle.flagops_filters.specs.Words.{if_moment, join_by, join_faults, join_in, joining_view, record_by, record_faults, record_in, recording_view, tally_by, tally_faults, tally_in, tallying_view};

use crate::asked::{Joining, Recording, Tallying};
use crate::usage::{MOST_WORKERS, join, record, tally};
use clap::{ArgMatches, Error};
use flagops_words::Moment;
use flagops_words::arguments::missing_value;
use flagops_words::matches::{has_floats, number_or, refine_in, site_in, texts_at};
use std::alloc::{AllocError, Global};
use std::convert::AsStr;

/// The workers where their number is left out.
const WORKERS: u64 = 4;

/// What the words after the program's name ask of `record`, which is the first of them.
#[tactic(auto, unfolding(crate::specs::Words::record_by, crate::specs::Words::record_faults))]
pub fn read_record<'a, S: AsStr>(alloc: Global, words: &'a [S]) -> Result<Recording<'a>, Error>
    ensures ok { IfOk result (λ r. record_by (map S.text words.entry.now) ≡ Some (recording_view r)) }
    ensures err { IfErr result (λ e. IsToldBy (record_faults (map S.text words.entry.now)) (record_by (map S.text words.entry.now)) (kind_of e)) }
{
    let matches = record(alloc)?.try_get_matches_from(words)?;
    match recording_in(&matches) {
        Some(recording) => Ok(recording),
        // Words that `clap` takes have a value for each argument, within its bounds.
        None => Err(missing_value(alloc, record(alloc)?)?),
    }
}

/// What the words after the program's name ask of `tally`, which is the first of them.
#[tactic(auto, unfolding(crate::specs::Words::tally_by, crate::specs::Words::tally_faults))]
pub fn read_tally<'a, S: AsStr>(alloc: Global, words: &'a [S]) -> Result<Tallying<'a>, Error>
    ensures ok { IfOk result (λ t. tally_by (map S.text words.entry.now) ≡ Some (tallying_view t)) }
    ensures err { IfErr result (λ e. IsToldBy (tally_faults (map S.text words.entry.now)) (tally_by (map S.text words.entry.now)) (kind_of e)) }
{
    let matches = tally(alloc)?.try_get_matches_from(words)?;
    match tallying_in(&matches) {
        Some(tallying) => Ok(tallying),
        None => Err(missing_value(alloc, tally(alloc)?)?),
    }
}

#[tactic(auto, using(flagops_words::proofs::Matched::rows))]
fn recording_in<'a>(matches: &ArgMatches<'a>) -> Option<Recording<'a>>
    ensures { option_map recording_view result ≡ record_in (rows_of (found_of matches.now)) }
{
    let document = matches.get_str("DOC")?;
    let key = matches.get_str("KEY")?;
    let moment = moment_in(matches)?;
    let workers = number_or(matches, "WORKERS", WORKERS, 1, MOST_WORKERS)?;
    Some(Recording {
        document,
        key,
        moment,
        workers: workers as usize,
        floats: has_floats(matches),
    })
}

/// The moment of the evaluations, if one is given; `None` where the word is no moment.
#[tactic(auto, using(flagops_words::proofs::Matched::rows))]
fn moment_in(matches: &ArgMatches<'_>) -> Option<Option<Moment>>
    ensures { option_map (λ o. option_map (λ m. m.number) o) result ≡ if_moment (first_of (codes "MOMENT") (rows_of (found_of matches.now))) }
{
    match matches.get_str("MOMENT") {
        Some(word) => Some(Some(Moment::spelled(word)?)),
        None => Some(None),
    }
}

#[tactic(auto, using(flagops_words::proofs::Matched::rows))]
fn tallying_in<'a>(matches: &ArgMatches<'a>) -> Option<Tallying<'a>>
    ensures { option_map tallying_view result ≡ tally_in (rows_of (found_of matches.now)) }
{
    let document = matches.get_str("DOC")?;
    let key = matches.get_str("FLAG")?;
    let site = site_in(matches)?;
    let refine = refine_in(matches)?;
    Some(Tallying {
        document,
        key,
        site,
        refine,
        floats: has_floats(matches),
    })
}

/// What the words after the program's name ask of `join`, which is the first of them.
#[tactic(auto, unfolding(crate::specs::Words::join_by, crate::specs::Words::join_faults))]
pub fn read_join<'a, S: AsStr>(alloc: Global, words: &'a [S]) -> Result<Joining<'a>, Error>
    ensures ok { IfOk result (λ j. join_by (map S.text words.entry.now) ≡ Some (joining_view j)) }
    ensures err { IfErr result (λ e. IsToldBy (join_faults (map S.text words.entry.now)) (join_by (map S.text words.entry.now)) (kind_of e)) }
{
    let matches = join(alloc)?.try_get_matches_from(words)?;
    let told = joining_in(alloc, &matches)?;
    match told {
        Some(joining) => Ok(joining),
        None => Err(missing_value(alloc, join(alloc)?)?),
    }
}

fn joining_in<'a>(
    alloc: Global,
    matches: &ArgMatches<'a>,
) -> Result<Option<Joining<'a>>, AllocError>
    ensures { IfOk result (λ o. option_map joining_view o ≡ join_in (rows_of (found_of matches.now))) }
{
    let Some((first, others)) = first_and_others(matches, "TALLY") else {
        return Ok(None);
    };
    Ok(Some(Joining {
        first,
        others: others.to_vec(alloc)?,
    }))
}

/// The first of the texts that are given for an argument, and those behind it, where there are any.
fn first_and_others<'m, 'a>(
    matches: &'m ArgMatches<'a>,
    name: &str,
) -> Option<(&'a str, &'m [&'a str])>
    ensures { option_map (λ s. s.0.now ∷ map (λ t. t.now) s.1.now) result ≡ texts_at name.now (rows_of (found_of matches.now)) }
{
    let texts = texts_at(matches, name)?;
    match texts.split_first() {
        Some((first, others)) => Some((*first, others)),
        None => None,
    }
}
