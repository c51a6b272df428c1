//! What the words of the command line ask for, as `clap` reads them.
ghost use Rattle.std.specs.Prelude.{◌≡◌, Some, IfOk, IfErr, map, option_map};
ghost use Rattle.clap.specs.Words.{found_of, kind_of, rows_of, subcommand_rows_of};
ghost use Rattle.flagops_words.specs.Asked.{asked_view};
ghost use Rattle.flagops_words.specs.Words.{IsToldBy, applied_in, apply_in, asked_by, asked_of, bucket_in, completions_in, drive_in, is_stray, keep_in, mistake_of, plan_in, price_in, resolve_in, verify_in};

use crate::asked::Asked;
use crate::kinds::kind_spelled;
use crate::matches::{flag_in, has_floats, is_json, is_strict, refine_in, refuses_doubts};
use crate::numbers::{Moment, spelled_16, spelled_32};
use crate::shell::Shell;
use crate::usage::{
    flagops, missing_keep, read_elsewhere, unknown_kind, unknown_shell, unknown_site,
};
use clap::{ArgMatches, Error};
use std::alloc::{AllocError, Global};
use std::convert::AsStr;

/// What the words after the program's name ask for.
#[tactic(auto, unfolding(crate::specs::Words::asked_by))]
pub fn read_words<'a, S: AsStr>(alloc: Global, words: &'a [S]) -> Result<Asked<'a>, Error>
    ensures ok { IfOk result (λ a. asked_by (map S.text words.entry.now) ≡ Some (asked_view a)) }
    ensures err { IfErr result (λ e. IsToldBy (map S.text words.entry.now) (kind_of e)) }
{
    let matches = flagops(alloc)?.try_get_matches_from(words)?;
    match asked_of(&matches) {
        Some(asked) => Ok(asked),
        // Words that `clap` takes name a command with each of its words. Checked here are a kind, a shell, the two forms of
        // `apply`, and that the command is not only listed.
        None => Err(unknown_word(alloc, &matches)?),
    }
}

/// The mistake of a kind that is none of the four, of a shell that is none of the three, of the words of `apply`, or of a command that
/// is only listed.
fn unknown_word(alloc: Global, matches: &ArgMatches<'_>) -> Result<Error, AllocError>
    ensures { IfOk result (λ e. kind_of e ≡ mistake_of (subcommand_rows_of matches.now)) }
{
    match matches.subcommand() {
        Some(("apply", words)) if is_stray(words) => missing_keep(alloc),
        Some(("apply", _)) => unknown_site(alloc),
        Some(("completions", _)) => unknown_shell(alloc),
        Some(("resolve", _)) | None => unknown_kind(alloc),
        Some(_) => read_elsewhere(alloc),
    }
}

fn asked_of<'a>(matches: &ArgMatches<'a>) -> Option<Asked<'a>>
    ensures { option_map asked_view result ≡ asked_of (subcommand_rows_of matches.now) }
{
    let (name, words) = matches.subcommand()?;
    match name {
        "resolve" => resolve_in(words),
        "completions" => completions_in(words),
        "apply" => apply_in(words),
        "price" => price_in(words),
        "bucket" => bucket_in(words),
        "verify" => verify_in(words),
        "plan" => plan_in(words),
        "drive" => drive_in(words),
        _ => None,
    }
}

#[tactic(auto, using(crate::proofs::Matched::rows))]
fn bucket_in<'a>(words: &ArgMatches<'a>) -> Option<Asked<'a>>
    ensures { option_map asked_view result ≡ bucket_in (rows_of (found_of words.now)) }
{
    let rule = words.get_str("RULE")?;
    let key = words.get_str("KEY")?;
    Some(Asked::Bucket {
        rule,
        key,
        json: is_json(words),
    })
}

#[tactic(auto, using(crate::proofs::Matched::rows))]
fn price_in<'a>(words: &ArgMatches<'a>) -> Option<Asked<'a>>
    ensures { option_map asked_view result ≡ price_in (rows_of (found_of words.now)) }
{
    let old = words.get_str("OLD")?;
    let new = words.get_str("NEW")?;
    let request = words.get_str("REQUEST")?;
    let keys = words.get_str("KEYS")?;
    Some(Asked::Price {
        old,
        new,
        request,
        keys,
        json: is_json(words),
    })
}

#[tactic(auto, using(crate::proofs::Matched::rows))]
fn resolve_in<'a>(words: &ArgMatches<'a>) -> Option<Asked<'a>>
    ensures { option_map asked_view result ≡ resolve_in (rows_of (found_of words.now)) }
{
    let document = words.get_str("DOC")?;
    let key = words.get_str("KEY")?;
    let kind = kind_spelled(words.get_str("KIND")?)?;
    let default = words.get_str("DEFAULT")?;
    let context = words.get_str("CONTEXT")?;
    let moment = Moment::spelled(words.get_str("MOMENT")?)?;
    Some(Asked::Resolve {
        document,
        key,
        kind,
        default,
        context,
        moment,
        floats: has_floats(words),
    })
}

#[tactic(auto, using(crate::proofs::Matched::rows))]
fn verify_in<'a>(words: &ArgMatches<'a>) -> Option<Asked<'a>>
    ensures { option_map asked_view result ≡ verify_in (rows_of (found_of words.now)) }
{
    let document = words.get_str("DOC")?;
    let request = words.get_str("REQUEST")?;
    let book = words.get_str("BOOK")?;
    let plan = words.get_str("PLAN")?;
    let refine = refine_in(words)?;
    Some(Asked::Verify {
        document,
        request,
        book,
        plan,
        refine,
        strict: is_strict(words),
        json: is_json(words),
        floats: has_floats(words),
    })
}

#[tactic(auto, using(crate::proofs::Matched::rows))]
fn plan_in<'a>(words: &ArgMatches<'a>) -> Option<Asked<'a>>
    ensures { option_map asked_view result ≡ plan_in (rows_of (found_of words.now)) }
{
    let document = words.get_str("DOC")?;
    let request = words.get_str("REQUEST")?;
    let book = words.get_str("BOOK")?;
    let refine = refine_in(words)?;
    Some(Asked::Plan {
        document,
        request,
        book,
        refine,
        strict: is_strict(words),
        explain: flag_in(words, "explain"),
        floats: has_floats(words),
    })
}

/// The words of `apply` in its two forms.
fn apply_in<'a>(words: &ArgMatches<'a>) -> Option<Asked<'a>>
    ensures { option_map asked_view result ≡ apply_in (rows_of (found_of words.now)) }
{
    if flag_in(words, "keep") {
        keep_in(words)
    } else if is_stray(words) {
        None
    } else {
        applied_in(words)
    }
}

/// Whether a word is given that goes with `--keep`: `--write`, `--doubted` or `--refine`.
#[tactic(auto, using(crate::proofs::Matched::rows))]
fn is_stray(words: &ArgMatches<'_>) -> bool
    ensures { result ≡ is_stray (rows_of (found_of words.now)) }
{
    flag_in(words, "write") || flag_in(words, "doubted") || words.get_str("M").is_some()
}

#[tactic(auto, using(crate::proofs::Matched::rows))]
fn applied_in<'a>(words: &ArgMatches<'a>) -> Option<Asked<'a>>
    ensures { option_map asked_view result ≡ applied_in (rows_of (found_of words.now)) }
{
    let site = spelled_32(words.get_str("SITE|BOOK")?)?;
    let document = words.get_str("DOC")?;
    let plan = words.get_str("PLAN")?;
    let key = words.get_str("FLAG|REQUEST")?;
    Some(Asked::Apply {
        document,
        plan,
        key,
        site,
        strict: is_strict(words),
        floats: has_floats(words),
    })
}

#[tactic(auto, using(crate::proofs::Matched::rows))]
fn keep_in<'a>(words: &ArgMatches<'a>) -> Option<Asked<'a>>
    ensures { option_map asked_view result ≡ keep_in (rows_of (found_of words.now)) }
{
    let document = words.get_str("DOC")?;
    let plan = words.get_str("PLAN")?;
    let request = words.get_str("FLAG|REQUEST")?;
    let book = words.get_str("SITE|BOOK")?;
    let refine = refine_in(words)?;
    Some(Asked::Keep {
        document,
        plan,
        request,
        book,
        write: flag_in(words, "write"),
        refine,
        strict: refuses_doubts(words),
        floats: has_floats(words),
    })
}

#[tactic(auto, using(crate::proofs::Matched::rows))]
fn drive_in<'a>(words: &ArgMatches<'a>) -> Option<Asked<'a>>
    ensures { option_map asked_view result ≡ drive_in (rows_of (found_of words.now)) }
{
    let document = words.get_str("DOC")?;
    let asks = words.get_str("ASKS")?;
    let workers = spelled_16(words.get_str("WORKERS")?)?;
    let book = words.get_str("BOOK")?;
    Some(Asked::Drive {
        document,
        asks,
        workers,
        book,
        add: flag_in(words, "add"),
        replace: flag_in(words, "replace"),
        strict: is_strict(words),
        json: is_json(words),
        floats: has_floats(words),
    })
}

#[tactic(auto, using(crate::proofs::Matched::rows))]
fn completions_in<'a>(words: &ArgMatches<'a>) -> Option<Asked<'a>>
    ensures { option_map asked_view result ≡ completions_in (rows_of (found_of words.now)) }
{
    let shell = Shell::named(words.get_str("SHELL")?)?;
    Some(Asked::Completions { shell })
}
