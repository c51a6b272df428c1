//! What the words of `check` ask for, as `clap` reads them.
ghost use Rattle.std.specs.Prelude.{◌≡◌, IfErr, IfOk, Some, map, option_map};
ghost use Rattle.clap.specs.Words.{found_of, kind_of, rows_of};
ghost use Rattle.flagops_words.specs.Alone.{IsToldBy};
ghost use Rattle.flagops_checks.specs.Words.{check_by, check_faults, checking_in, checking_view};

use crate::asked::Checking;
use crate::usage::usage;
use clap::{ArgMatches, Error};
use flagops_words::arguments::missing_value;
use flagops_words::matches::{has_floats, is_json, is_strict, texts_at};
use std::alloc::{AllocError, Global};
use std::convert::AsStr;

/// What the words after the program's name ask of `check`, which is the first of them.
#[tactic(auto, unfolding(crate::specs::Words::check_by, crate::specs::Words::check_faults))]
pub(crate) fn read_checking<'a, S: AsStr>(
    alloc: Global,
    words: &'a [S],
) -> Result<Checking<'a>, Error>
    ensures ok { IfOk result (λ c. check_by (map S.text words.entry.now) ≡ Some (checking_view c)) }
    ensures err { IfErr result (λ e. IsToldBy (check_faults (map S.text words.entry.now)) (check_by (map S.text words.entry.now)) (kind_of e)) }
{
    let matches = usage(alloc)?.try_get_matches_from(words)?;
    let asked = checking_in(alloc, &matches)?;
    match asked {
        Some(checking) => Ok(checking),
        // Words that `clap` takes have a value for each argument.
        None => Err(missing_value(alloc, usage(alloc)?)?),
    }
}

#[tactic(auto, using(flagops_words::proofs::Matched::rows))]
fn checking_in<'a>(
    alloc: Global,
    matches: &ArgMatches<'a>,
) -> Result<Option<Checking<'a>>, AllocError>
    ensures { IfOk result (λ o. option_map checking_view o ≡ checking_in (rows_of (found_of matches.now))) }
{
    let Some(documents) = texts_at(matches, "DOC") else {
        return Ok(None);
    };
    Ok(Some(Checking {
        documents: documents.to_vec(alloc)?,
        strict: is_strict(matches),
        json: is_json(matches),
        floats: has_floats(matches),
    }))
}
