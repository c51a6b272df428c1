//! What the words of `ramp`, `verify-ramp`, `apply --step` and `apply --step --keep` ask for, as `clap` reads them.
ghost use Rattle.std.specs.Prelude.{◌≡◌, IfErr, IfOk, Some, map, option_map};
ghost use Rattle.clap.specs.Words.{found_of, kind_of, rows_of};
ghost use Rattle.flagops_words.specs.Alone.{IsToldBy};
ghost use Rattle.flagops_ramps.specs.Words.{applying_view, keep_by, keep_faults, keep_in, keeping_view, number_of_step, ramp_by, ramp_faults, ramp_in, ramping_view, step_by, step_faults, step_in, verify_by, verify_faults, verify_in, verifying_view, refusing};

use crate::asked::{Applying, Keeping, Ramping, Verifying};
use crate::usage::{keep, ramp, step, verify};
use clap::{ArgMatches, Error};
use flagops_words::Factor;
use flagops_words::arguments::missing_value;
use flagops_words::matches::{flag_in, has_floats, is_strict, refine_in, refuses_doubts, site_in};
use std::alloc::Global;
use std::convert::AsStr;

/// What the words after the program's name ask of `ramp`, which is the first of them.
#[tactic(auto, unfolding(crate::specs::Words::ramp_by, crate::specs::Words::ramp_faults))]
pub fn read_ramp<'a, S: AsStr>(alloc: Global, words: &'a [S]) -> Result<Ramping<'a>, Error>
    ensures ok { IfOk result (λ r. ramp_by (map S.text words.entry.now) ≡ Some (ramping_view r)) }
    ensures err { IfErr result (λ e. IsToldBy (ramp_faults (map S.text words.entry.now)) (ramp_by (map S.text words.entry.now)) (kind_of e)) }
{
    let matches = ramp(alloc)?.try_get_matches_from(words)?;
    match ramping_in(&matches) {
        Some(ramping) => Ok(ramping),
        // Words that `clap` takes have a value for each argument, within its bounds.
        None => Err(missing_value(alloc, ramp(alloc)?)?),
    }
}

/// What the words after the program's name ask of `verify-ramp`, which is the first of them.
#[tactic(auto, unfolding(crate::specs::Words::verify_by, crate::specs::Words::verify_faults))]
pub fn read_verify<'a, S: AsStr>(alloc: Global, words: &'a [S]) -> Result<Verifying<'a>, Error>
    ensures ok { IfOk result (λ v. verify_by (map S.text words.entry.now) ≡ Some (verifying_view v)) }
    ensures err { IfErr result (λ e. IsToldBy (verify_faults (map S.text words.entry.now)) (verify_by (map S.text words.entry.now)) (kind_of e)) }
{
    let matches = verify(alloc)?.try_get_matches_from(words)?;
    match verifying_in(&matches) {
        Some(verifying) => Ok(verifying),
        None => Err(missing_value(alloc, verify(alloc)?)?),
    }
}

#[tactic(auto, using(flagops_words::proofs::Matched::rows))]
fn ramping_in<'a>(matches: &ArgMatches<'a>) -> Option<Ramping<'a>>
    ensures { option_map ramping_view result ≡ ramp_in (rows_of (found_of matches.now)) }
{
    let document = matches.get_str("DOC")?;
    let steps = matches.get_str("STEPS")?;
    let book = matches.get_str("BOOK")?;
    let refine = refine_in(matches)?;
    Some(Ramping {
        document,
        steps,
        book,
        refine,
        strict: is_strict(matches),
        floats: has_floats(matches),
    })
}

/// What a command that takes answers to steps is asked for; `None` where a value is missing.
#[tactic(auto, using(flagops_words::proofs::Matched::rows))]
pub fn verifying_in<'a>(matches: &ArgMatches<'a>) -> Option<Verifying<'a>>
    ensures { option_map verifying_view result ≡ verify_in (rows_of (found_of matches.now)) }
{
    let rollout = ramping_in(matches)?;
    let ramp = matches.get_str("RAMP")?;
    Some(Verifying { rollout, ramp })
}

/// What the words after the program's name ask of `apply --step`, whose name `apply` is the first of them.
#[tactic(auto, unfolding(crate::specs::Words::step_by, crate::specs::Words::step_faults))]
pub fn read_step<'a, S: AsStr>(alloc: Global, words: &'a [S]) -> Result<Applying<'a>, Error>
    ensures ok { IfOk result (λ a. step_by (map S.text words.entry.now) ≡ Some (applying_view a)) }
    ensures err { IfErr result (λ e. IsToldBy (step_faults (map S.text words.entry.now)) (step_by (map S.text words.entry.now)) (kind_of e)) }
{
    let matches = step(alloc)?.try_get_matches_from(words)?;
    match applying_in(&matches) {
        Some(applying) => Ok(applying),
        None => Err(missing_value(alloc, step(alloc)?)?),
    }
}

#[tactic(auto, using(flagops_words::proofs::Matched::rows))]
fn applying_in<'a>(matches: &ArgMatches<'a>) -> Option<Applying<'a>>
    ensures { option_map applying_view result ≡ step_in (rows_of (found_of matches.now)) }
{
    let document = matches.get_str("DOC")?;
    let ramp = matches.get_str("RAMP")?;
    let key = matches.get_str("FLAG")?;
    let site = site_in(matches)?;
    let step = number_of_step(matches)?;
    Some(Applying {
        document,
        ramp,
        key,
        site,
        step,
        strict: is_strict(matches),
        floats: has_floats(matches),
    })
}

/// The number of a step, which is from 1 as a factor is.
#[tactic(auto, using(flagops_words::proofs::Matched::rows))]
fn number_of_step(matches: &ArgMatches<'_>) -> Option<u32>
    ensures { result ≡ number_of_step (rows_of (found_of matches.now)) }
{
    let word = matches.get_str("N")?;
    let step = Factor::spelled(word)?;
    Some(step.number)
}

/// What the words after the program's name ask of `apply --step --keep`, whose name `apply` is the first of them.
#[tactic(auto, unfolding(crate::specs::Words::keep_by, crate::specs::Words::keep_faults))]
pub fn read_keep<'a, S: AsStr>(alloc: Global, words: &'a [S]) -> Result<Keeping<'a>, Error>
    ensures ok { IfOk result (λ k. keep_by (map S.text words.entry.now) ≡ Some (keeping_view k)) }
    ensures err { IfErr result (λ e. IsToldBy (keep_faults (map S.text words.entry.now)) (keep_by (map S.text words.entry.now)) (kind_of e)) }
{
    let matches = keep(alloc)?.try_get_matches_from(words)?;
    match keeping_in(&matches) {
        Some(keeping) => Ok(keeping),
        None => Err(missing_value(alloc, keep(alloc)?)?),
    }
}

fn keeping_in<'a>(matches: &ArgMatches<'a>) -> Option<Keeping<'a>>
    ensures { option_map keeping_view result ≡ keep_in (rows_of (found_of matches.now)) }
{
    let answered = verifying_in(matches)?;
    let step = number_of_step(matches)?;
    Some(Keeping {
        answered: refusing(answered, refuses_doubts(matches)),
        step,
        write: flag_in(matches, "write"),
    })
}

/// The same answers, of which what is doubted is refused, or not.
fn refusing(answered: Verifying<'_>, strict: bool) -> Verifying<'_>
    ensures { verifying_view result ≡ refusing strict (verifying_view answered.entry) }
{
    let mut answered = answered;
    answered.rollout.strict = strict;
    answered
}
