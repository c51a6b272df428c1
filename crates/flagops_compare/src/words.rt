//! What the words of `compare` ask for, as `clap` reads them.
ghost use Rattle.std.specs.Prelude.{◌≡◌, IfErr, IfOk, Some, map, option_copied, option_map};
ghost use Rattle.clap.specs.Walk.{first_of};
ghost use Rattle.clap.specs.Words.{found_of, kind_of, rows_of};
ghost use Rattle.flagops_words.specs.Alone.{IsToldBy};
ghost use Rattle.flagops_compare.specs.Words.{compare_by, compare_faults, comparing_in, comparing_view};

use crate::asked::Comparing;
use crate::usage::usage;
use clap::{ArgMatches, Error};
use flagops_words::arguments::missing_value;
use flagops_words::matches::{has_floats, is_json, is_strict};
use std::alloc::Global;
use std::convert::AsStr;

/// What the words after the program's name ask of `compare`, which is the first of them.
#[tactic(auto, unfolding(crate::specs::Words::compare_by, crate::specs::Words::compare_faults))]
pub(crate) fn read_comparing<'a, S: AsStr>(
    alloc: Global,
    words: &'a [S],
) -> Result<Comparing<'a>, Error>
    ensures ok { IfOk result (λ c. compare_by (map S.text words.entry.now) ≡ Some (comparing_view c)) }
    ensures err { IfErr result (λ e. IsToldBy (compare_faults (map S.text words.entry.now)) (compare_by (map S.text words.entry.now)) (kind_of e)) }
{
    let matches = usage(alloc)?.try_get_matches_from(words)?;
    match comparing_in(&matches) {
        Some(comparing) => Ok(comparing),
        // Words that `clap` takes have a value for each argument.
        None => Err(missing_value(alloc, usage(alloc)?)?),
    }
}

#[tactic(auto, using(flagops_words::proofs::Matched::rows))]
fn comparing_in<'a>(matches: &ArgMatches<'a>) -> Option<Comparing<'a>>
    ensures { option_map comparing_view result ≡ comparing_in (rows_of (found_of matches.now)) }
{
    Some(Comparing {
        old: matches.get_str("OLD")?,
        new: matches.get_str("NEW")?,
        book: matches.get_str("BOOK")?,
        flag: text_at(matches, "KEY"),
        picture: text_at(matches, "FILE"),
        strict: is_strict(matches),
        json: is_json(matches),
        floats: has_floats(matches),
    })
}

/// The text that is given for an argument, where there is one.
#[tactic(auto, using(flagops_words::proofs::Matched::rows))]
fn text_at<'a>(matches: &ArgMatches<'a>, name: &str) -> Option<&'a str>
    ensures { option_copied result ≡ first_of name.now (rows_of (found_of matches.now)) }
{
    matches.get_str(name)
}
