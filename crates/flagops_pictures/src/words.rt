//! What the words of `picture` and `plan --picture` ask for, as `clap` reads them.
ghost use Rattle.std.specs.Prelude.{◌≡◌, IfErr, IfOk, Some, map, option_map};
ghost use Rattle.clap.specs.Words.{found_of, kind_of, rows_of};
ghost use Rattle.flagops_words.specs.Alone.{IsToldBy};
ghost use Rattle.flagops_pictures.specs.Words.{picturing_view, picture_by, picture_faults, picture_in, plan_by, plan_faults, planning_in, planning_view, ramp_by, ramp_faults};
ghost use Rattle.flagops_ramps.specs.Words.{verifying_view};

use crate::asked::{Picturing, Planning};
use crate::usage::{plan, ramp, usage};
use clap::{ArgMatches, Error};
use flagops_ramps::{Verifying, verifying_in};
use flagops_words::arguments::missing_value;
use flagops_words::matches::{flag_in, has_floats, is_strict, refine_in};
use std::alloc::Global;
use std::convert::AsStr;

/// What the words after the program's name ask of `picture`, which is the first of them.
#[tactic(auto, unfolding(crate::specs::Words::picture_by, crate::specs::Words::picture_faults))]
pub(crate) fn read_picture<'a, S: AsStr>(
    alloc: Global,
    words: &'a [S],
) -> Result<Picturing<'a>, Error>
    ensures ok { IfOk result (λ a. picture_by (map S.text words.entry.now) ≡ Some (picturing_view a)) }
    ensures err { IfErr result (λ e. IsToldBy (picture_faults (map S.text words.entry.now)) (picture_by (map S.text words.entry.now)) (kind_of e)) }
{
    let matches = usage(alloc)?.try_get_matches_from(words)?;
    match asked_in(&matches) {
        Some(asked) => Ok(asked),
        // Words that `clap` takes have a value for each argument, within its bounds.
        None => Err(missing_value(alloc, usage(alloc)?)?),
    }
}

/// What the words after the program's name ask of `picture --ramp`, of which `picture` is the first.
#[tactic(auto, unfolding(crate::specs::Words::ramp_by, crate::specs::Words::ramp_faults))]
pub(crate) fn read_ramp<'a, S: AsStr>(alloc: Global, words: &'a [S]) -> Result<Verifying<'a>, Error>
    ensures ok { IfOk result (λ v. ramp_by (map S.text words.entry.now) ≡ Some (verifying_view v)) }
    ensures err { IfErr result (λ e. IsToldBy (ramp_faults (map S.text words.entry.now)) (ramp_by (map S.text words.entry.now)) (kind_of e)) }
{
    let matches = ramp(alloc)?.try_get_matches_from(words)?;
    match verifying_in(&matches) {
        Some(verifying) => Ok(verifying),
        None => Err(missing_value(alloc, ramp(alloc)?)?),
    }
}

/// What the words after the program's name ask of `plan --picture`, of which `plan` is the first.
#[tactic(auto, unfolding(crate::specs::Words::plan_by, crate::specs::Words::plan_faults))]
pub(crate) fn read_plan<'a, S: AsStr>(alloc: Global, words: &'a [S]) -> Result<Planning<'a>, Error>
    ensures ok { IfOk result (λ p. plan_by (map S.text words.entry.now) ≡ Some (planning_view p)) }
    ensures err { IfErr result (λ e. IsToldBy (plan_faults (map S.text words.entry.now)) (plan_by (map S.text words.entry.now)) (kind_of e)) }
{
    let matches = plan(alloc)?.try_get_matches_from(words)?;
    match planning_in(&matches) {
        Some(planning) => Ok(planning),
        None => Err(missing_value(alloc, plan(alloc)?)?),
    }
}

#[tactic(auto, using(flagops_words::proofs::Matched::rows))]
fn planning_in<'a>(matches: &ArgMatches<'a>) -> Option<Planning<'a>>
    ensures { option_map planning_view result ≡ planning_in (rows_of (found_of matches.now)) }
{
    let document = matches.get_str("DOC")?;
    let request = matches.get_str("REQUEST")?;
    let book = matches.get_str("BOOK")?;
    let picture = matches.get_str("FILE")?;
    let refine = refine_in(matches)?;
    Some(Planning {
        document,
        request,
        book,
        picture,
        refine,
        strict: is_strict(matches),
        explain: flag_in(matches, "explain"),
        floats: has_floats(matches),
    })
}

#[tactic(auto, using(flagops_words::proofs::Matched::rows))]
fn asked_in<'a>(matches: &ArgMatches<'a>) -> Option<Picturing<'a>>
    ensures { option_map picturing_view result ≡ picture_in (rows_of (found_of matches.now)) }
{
    let document = matches.get_str("DOC")?;
    let request = matches.get_str("REQUEST")?;
    let book = matches.get_str("BOOK")?;
    let plan = matches.get_str("PLAN")?;
    let refine = refine_in(matches)?;
    Some(Picturing {
        document,
        request,
        book,
        plan,
        refine,
        floats: has_floats(matches),
    })
}
