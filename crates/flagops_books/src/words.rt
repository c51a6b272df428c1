//! What the words of `book` ask for, as `clap` reads them.
ghost use Rattle.std.specs.Prelude.{◌≡◌, IfErr, IfOk, Some, map, option_map};
ghost use Rattle.clap.specs.Words.{found_of, kind_of, rows_of};
ghost use Rattle.flagops_words.specs.Alone.{IsToldBy};
ghost use Rattle.flagops_books.specs.Words.{book_by, book_faults, uniting_in, uniting_view};

use crate::asked::Uniting;
use crate::usage::usage;
use clap::{ArgMatches, Error};
use flagops_words::arguments::missing_value;
use flagops_words::matches::{flag_in, texts_at};
use std::alloc::{AllocError, Global};
use std::convert::AsStr;

/// What the words after the program's name ask of `book`, which is the first of them.
#[tactic(auto, unfolding(crate::specs::Words::book_by, crate::specs::Words::book_faults))]
pub(crate) fn read_uniting<'a, S: AsStr>(
    alloc: Global,
    words: &'a [S],
) -> Result<Uniting<'a>, Error>
    ensures ok { IfOk result (λ u. book_by (map S.text words.entry.now) ≡ Some (uniting_view u)) }
    ensures err { IfErr result (λ e. IsToldBy (book_faults (map S.text words.entry.now)) (book_by (map S.text words.entry.now)) (kind_of e)) }
{
    let matches = usage(alloc)?.try_get_matches_from(words)?;
    let asked = uniting_in(alloc, &matches)?;
    match asked {
        Some(uniting) => Ok(uniting),
        // Words that `clap` takes have a value for each argument.
        None => Err(missing_value(alloc, usage(alloc)?)?),
    }
}

#[tactic(auto, using(flagops_words::proofs::Matched::rows))]
fn uniting_in<'a>(
    alloc: Global,
    matches: &ArgMatches<'a>,
) -> Result<Option<Uniting<'a>>, AllocError>
    ensures { IfOk result (λ o. option_map uniting_view o ≡ uniting_in (rows_of (found_of matches.now))) }
{
    let Some(out) = matches.get_str("OUT") else {
        return Ok(None);
    };
    let Some(files) = texts_at(matches, "FILE") else {
        return Ok(None);
    };
    Ok(Some(Uniting {
        out,
        files: files.to_vec(alloc)?,
        torn: flag_in(matches, "torn"),
        replace: flag_in(matches, "replace"),
    }))
}
