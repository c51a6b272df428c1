//! The entries of a text that is a list of literal buckets, token by token.
ghost use Rattle.std.specs.Prelude.{◌≡◌, ◌<◌, length, Some, IfOk, IfSome};
ghost use Rattle.json.specs.Json.{value, items};
ghost use Rattle.serde_json.specs.Read.{converted};
ghost use Rattle.rule_text.specs.Listed.{bucket_in, buckets_in, weight_in, Closes, IsListed};
ghost use Rattle.rule_text.specs.Lent.{lent_entry, lent_view};

use crate::lent::LentEntry;
use crate::number::number;
use json::{Reader, Scratch, Token};
use std::alloc::{AllocError, Global};

/// The entries of a JSON text that is a list of literal buckets. Of any other text there may be none.
pub(crate) fn listed<'a>(
    alloc: Global,
    text: &'a str,
    scratch: &'a mut Scratch,
) -> Result<Option<Vec<LentEntry<'a>>>, AllocError>
    ensures { IfOk result (λ o. IfSome o (λ v. IsListed text.now (lent_view v.items))) }
{
    let mut reader = Reader::new(text, scratch)?;
    let Some(Token::BeginArray) = reader.next() else {
        return Ok(None);
    };
    let found = entries(alloc, &mut reader)?;
    if reader.next().is_some() {
        return Ok(None);
    }
    Ok(found)
}

/// The entries of buckets, and the end of their list.
fn entries<'a>(
    alloc: Global,
    reader: &mut Reader<'a>,
) -> Result<Option<Vec<LentEntry<'a>>>, AllocError>
    ensures { IfOk result (λ o. IfSome o (λ v. converted buckets_in (items (value 126) (length reader.old) reader.old)
        ≡ Some (lent_view v.items, reader.new))) }
{
    let mut found = Vec::new(alloc);
    'entries: while !reader.take_end_array() {
        let Some(next) = entry(reader) else {
            return Ok(None);
        };
        found.push(next)?;
    }
    Ok(Some(found))
}

/// The name and the weight of a literal bucket.
fn entry<'a>(reader: &mut Reader<'a>) -> Option<LentEntry<'a>>
    ensures value { IfSome result (λ e. converted bucket_in (value 126 reader.old) ≡ Some (lent_entry e, reader.new)) }
    ensures shorter { IfSome result (λ _. length reader.new < length reader.old) }
{
    let Some(Token::BeginArray) = reader.next() else {
        return None;
    };
    let Some(Token::String(name)) = reader.next() else {
        return None;
    };
    match closing_weight(reader) {
        Some(weight) => Some((name, weight)),
        None => None,
    }
}

/// The weight behind a name, 1 where it is left out, and the end of the bucket.
fn closing_weight(reader: &mut Reader<'_>) -> Option<u64>
    ensures { IfSome result (λ weight. Closes reader.old weight reader.new) }
{
    if reader.take_end_array() {
        return Some(1);
    }
    let Some(Token::Number(text)) = reader.next() else {
        return None;
    };
    let weight = weight(text)?;
    if !reader.take_end_array() {
        return None;
    }
    Some(weight)
}

/// A weight.
fn weight(text: &str) -> Option<u64>
    ensures { IfSome result (λ weight. weight_in text.now ≡ Some weight) }
{
    match number(text) {
        Some((weight, _)) => weight,
        None => None,
    }
}
