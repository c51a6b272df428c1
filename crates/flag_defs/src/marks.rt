//! From the bytes of a document with floats to the list of its flags, each with its mark.
ghost use Rattle.std.specs.Prelude.{◌≡◌, ◌<◌, ◌≤◌, ℕ, List, true, false, length, map, unwrap_or, if◌then◌else◌, Some, IfOk, IsErrOf, OnOk};
ghost use Rattle.std.specs.BTreeMap.{get_by_text};
ghost use Rattle.std.specs.Cmp.Lexicographic.{slice_cmp};
ghost use Rattle.std.specs.List.Sorted.{IsStrictlySortedBy};
ghost use Rattle.std.specs.Map.{keys_of};
ghost use Rattle.std.specs.Ordering.{nat_cmp};
ghost use Rattle.std.specs.Str.{bytes_eq, is_utf8};
ghost use Rattle.flag_text.specs.Shape.{is_tidy};
ghost use Rattle.flag_text.specs.View.{view};
ghost use Rattle.spelled_numbers.specs.Marks.{marks_of_text};
ghost use Rattle.spelled_numbers.specs.View.{mark_view};
ghost use Rattle.flag_defs.specs.Document.{FlagsMean, evaluators_in, flags_in, max_bytes};
ghost use Rattle.flag_defs.specs.Entries.{HoldsLimited};
ghost use Rattle.flag_defs.specs.Flag.{entries_view, flag_view, rules_view};
ghost use Rattle.flag_defs.specs.Floats.{MeansWithFloats, entries_floats, floats_of, mark_of, marked, marked_with};
ghost use Rattle.flag_defs.specs.SpelledLaw.{IsMarked, IsSpelled, MayBeMarked};
ghost use Rattle.flag_defs.specs.Spellings.{keep_spelling};

use crate::entries::{of_text, read_document};
use crate::fault::DefFault;
use crate::flag::Flag;
use crate::rules::Rules;
use limits::TEXT_BYTES;
use spelled_numbers::{Document, Mark, read_with_floats};
use std::alloc::{AllocError, Global};
use std::collections::BTreeMap;

/// The flags of a document with floats in the order of their keys, before the limit on the bytes that they are printed in. The
/// refusals are those of `read_entries`, in the same order, and so is the memory that they take.
pub(crate) fn read_entries_with_floats(
    alloc: Global,
    bytes: &[u8],
) -> Result<Vec<(String, Flag)>, DefFault>
    ensures means { HoldsLimited (MeansWithFloats bytes.now) result }
    ensures floats { IfOk result (λ v. entries_floats v.items ≡ marked (marks_of_text bytes.now) (entries_view v.items)) }
    ensures rising { IfOk result (λ v. IsStrictlySortedBy (slice_cmp nat_cmp) (keys_of (entries_view v.items))) }
    ensures large { max_bytes < length bytes.now → IsErrOf result DefFault.TooLarge }
    ensures no_text { length bytes.now ≤ max_bytes → is_utf8 bytes.now ≡ false → IsErrOf result DefFault.NotJson }
{
    match read_with_floats(alloc, bytes, TEXT_BYTES) {
        Ok(document) => entries_of(alloc, document),
        Err(fault) => Err(of_text(fault)),
    }
}

fn entries_of(alloc: Global, document: Document) -> Result<Vec<(String, Flag)>, DefFault>
    requires tidy { is_tidy (view document.tree) ≡ true }
    requires marks { IsMarked (view document.tree) (map mark_view document.marks.items) }
    ensures means { HoldsLimited (FlagsMean (evaluators_in (view document.tree)) (flags_in (view document.tree))) result }
    ensures floats { IfOk result (λ v. entries_floats v.items ≡ marked (map mark_view document.marks.items) (entries_view v.items)) }
    ensures rising { IfOk result (λ v. IsStrictlySortedBy (slice_cmp nat_cmp) (keys_of (entries_view v.items))) }
{
    let Document { tree, marks } = document;
    let flags = read_document(alloc, tree)?;
    let marked = mark_all(alloc, flags, marks)?;
    Ok(marked)
}

/// The same flags, each with what the last mark of its key says. The condition is that the variants of those which get a mark are the
/// spelling of floats.
fn mark_all(
    alloc: Global,
    flags: Vec<(String, Flag)>,
    marks: Vec<Mark>,
) -> Result<Vec<(String, Flag)>, AllocError>
    requires { MayBeMarked (map mark_view marks.items) (entries_view flags.items) }
    ensures value { IfOk result (λ v. entries_view v.items ≡ entries_view flags.items) }
    ensures floats { IfOk result (λ v. entries_floats v.items ≡ marked (map mark_view marks.items) (entries_view flags.items)) }
{
    let last = last_of_each(alloc, marks)?;
    let mut all = Vec::with_capacity(alloc, flags.len())?;
    for (key, flag) in flags {
        let has_floats = mark_of(&last, key.as_str());
        all.push((key, with_mark(flag, has_floats)))?;
    }
    Ok(all)
}

/// The last mark of each key.
fn last_of_each(alloc: Global, marks: Vec<Mark>) -> Result<BTreeMap<String, bool>, AllocError>
    ensures { IfOk result (λ m. (key : List ℕ) → unwrap_or (get_by_text m key) false ≡ mark_of key (map mark_view marks.items)) }
{
    let mut last = BTreeMap::new(alloc);
    for mark in marks {
        insert(&mut last, mark)?;
    }
    Ok(last)
}

fn insert(last: &mut BTreeMap<String, bool>, mark: Mark) -> Result<(), AllocError>
    ensures { OnOk result ((key : List ℕ) → get_by_text last.new key ≡ (if bytes_eq (mark_view mark).0 key then Some mark.has_floats else get_by_text last.old key)) }
{
    let Mark { key, has_floats } = mark;
    last.insert(key, has_floats)?;
    Ok(())
}

fn mark_of(last: &BTreeMap<String, bool>, key: &str) -> bool
    ensures { result ≡ unwrap_or (get_by_text last.now key.now) false }
{
    last.get(key).copied().unwrap_or(false)
}

/// The same flag, which has floats where this says so and it is not broken.
fn with_mark(flag: Flag, has_floats: bool) -> Flag
    requires { IsSpelled (flag_view flag) (marked_with (flag_view flag) has_floats) }
    ensures value { flag_view result ≡ flag_view flag }
    ensures floats { floats_of result ≡ marked_with (flag_view flag) has_floats }
{
    let Flag { rules } = flag;
    match rules {
        Some(rules) => Flag {
            rules: Some(marked_rules(rules, has_floats)),
        },
        None => Flag { rules: None },
    }
}

fn marked_rules(rules: Rules, has_floats: bool) -> Rules
    requires { keep_spelling has_floats (rules_view rules).variants ≡ true }
    ensures value { rules_view result ≡ rules_view rules }
    ensures floats { result.has_floats ≡ has_floats }
{
    let Rules {
        enabled,
        variants,
        default_variant,
        targeting,
        ..
    } = rules;
    Rules {
        enabled,
        variants,
        default_variant,
        targeting,
        has_floats,
    }
}
