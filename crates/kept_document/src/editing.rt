//! The document with a rule in the place of items of one of its lists.
ghost use Rattle.std.specs.Prelude.{◌≡◌, ◌≤◌, ◌∷◌, ◌++◌, [], ℕ, List, length, take, drop, false, IfOk, IfSome, OnOk, MatchOption};
ghost use Rattle.text_spans.specs.Path.{index as item};
ghost use Rattle.text_spans.specs.View.{IsFound, path_of};
ghost use Rattle.kept_document.specs.Kept.{IsKept, IsMark, entries_text};

use crate::buckets::push_entries;
use bucket_core::Rule;
use std::alloc::{AllocError, Global};
use text_spans::{Span, Step, find};

/// The document with the rule's entries in place of the items of the list at this path, from index `first` up to index
/// `last`; none where these items do not stand there.
pub(crate) fn edited(
    alloc: Global,
    document: &str,
    list: Vec<Step<'_>>,
    first: usize,
    last: usize,
    rule: &Rule,
) -> Result<Option<Vec<u8>>, AllocError>
    ensures { IfOk result (λ o. MatchOption o ((kept : List ℕ) → ¬ IsKept document.now (path_of list.entry.items) first last rule.now kept)
        (λ v. IsKept document.now (path_of list.entry.items) first last rule.now v.items)) }
{
    let mut list = list;
    let Some(one) = item_span(alloc, document, &mut list, first)? else {
        return Ok(None);
    };
    let Some(other) = item_span(alloc, document, &mut list, last)? else {
        return Ok(None);
    };
    let Some(mark) = mark_behind(alloc, document, &mut list, one, first, last)? else {
        return Ok(None);
    };
    Ok(Some(joined(alloc, document.as_bytes(), one.start, mark, rule, other.end)?))
}

/// The bytes up to one of them, the rule's entries, and the bytes from another on.
fn joined(
    alloc: Global,
    bytes: &[u8],
    start: usize,
    mark: &[u8],
    rule: &Rule,
    end: usize,
) -> Result<Vec<u8>, AllocError>
    requires { (start ≤ length bytes.now) × (end ≤ length bytes.now) }
    ensures { IfOk result (λ v. v.items ≡ take start bytes.now ++ (entries_text mark.now false rule.now ++ drop end bytes.now)) }
{
    // Called for what its contract says: no weight is above the largest total.
    let _total = rule.total();
    let mut kept = Vec::new(alloc);
    kept.extend_from_slice(&bytes[..start])?;
    push_entries(alloc, &mut kept, mark, rule)?;
    kept.extend_from_slice(&bytes[end..])?;
    Ok(kept)
}

/// What stands between each two buckets: what stands between the first two, or a comma where there is but one; none where
/// the second does not stand behind the first. `one` are the bytes of the first.
fn mark_behind<'a>(
    alloc: Global,
    document: &'a str,
    list: &mut Vec<Step<'_>>,
    one: Span,
    first: usize,
    last: usize,
) -> Result<Option<&'a [u8]>, AllocError>
    requires { one.end ≤ length document.now }
    ensures mark { IfOk result (λ o. MatchOption o ((mark : List ℕ) → ¬ IsMark document.now (path_of list.old.items) first last (take one.end document.now) mark)
        (λ m. IsMark document.now (path_of list.old.items) first last (take one.end document.now) m.now)) }
{
    if first >= last {
        return Ok(Some(b","));
    }
    match item_span(alloc, document, list, first + 1)? {
        Some(next) => Ok(document.as_bytes().get(one.end..next.start)),
        None => Ok(None),
    }
}

/// The bytes of the item at an index of the list at this path, if it has one.
fn item_span(
    alloc: Global,
    document: &str,
    list: &mut Vec<Step<'_>>,
    index: usize,
) -> Result<Option<Span>, AllocError>
    ensures found { IfOk result (IsFound document.now (path_of list.old.items ++ item index ∷ [])) }
    ensures bounds { IfOk result (λ o. IfSome o (λ s. (s.start ≤ s.end) × (s.end ≤ length document.now))) }
    ensures same { OnOk result (path_of list.new.items ≡ path_of list.old.items) }
{
    list.push(Step::Index(index))?;
    let span = find(alloc, document, list.as_slice())?;
    let _index = list.pop();
    Ok(span)
}
