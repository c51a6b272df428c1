//! Texts of values: `cat`, `substr`, `starts_with`, `ends_with`, and `in` of a text.
ghost use Rattle.std.specs.Prelude.{◌≡◌, ℤ, ◌++◌, chars, IfOk, OnOk, length, map, option_map, option_and_then, nat_eq, string_bytes, flat_map, encode_utf8_all};
ghost use Rattle.std.specs.List.{starts_with, ends_with};
ghost use Rattle.flag_text.specs.Outcome.{GivesUnless};
ghost use Rattle.flag_text.specs.Shape.{text};
ghost use Rattle.logic_values.specs.declared.fault.EvalFault.TheVariants.{WantOfMemory};
ghost use Rattle.logic_values.specs.Text.{piece, part, part_result, part_to_end, part_of_length, made, start_of, end_of, characters_between, both_texts, occurs_in};
ghost use Rattle.logic_values.specs.Views.{seen_view, value_view};

use crate::fault::EvalFault;
use crate::number::number_of;
use crate::seen::Seen;
use crate::value::Value;
use std::alloc::{AllocError, Global};

/// The most bytes of a text that is made.
pub const MOST_BYTES: usize = 65_536;

/// `cat`: the pieces of all values, one after another.
pub fn joined(alloc: Global, values: &[Value]) -> Result<String, EvalFault>
    ensures exact { GivesUnless WantOfMemory string_bytes result (made (flat_map piece (map value_view values.now))) }
{
    let text = pieces(alloc, values)?;
    if text.len() > MOST_BYTES {
        return Err(EvalFault::TextTooLong);
    }
    Ok(text)
}

fn pieces(alloc: Global, values: &[Value]) -> Result<String, AllocError>
    ensures { IfOk result (λ s. string_bytes s ≡ flat_map piece (map value_view values.now)) }
{
    let mut text = String::new(alloc);
    for value in values {
        push_piece(&mut text, value.seen())?;
    }
    Ok(text)
}

/// Adds what the value adds to a text: null, lists and objects add nothing.
fn push_piece(text: &mut String, value: Seen) -> Result<(), AllocError>
    ensures { OnOk result (string_bytes text.new ≡ string_bytes text.old ++ piece (seen_view value.entry)) }
{
    match value {
        Seen::Bool(true) => text.push_str("true"),
        Seen::Bool(false) => text.push_str("false"),
        Seen::Whole(n) => write!(text, "{n}"),
        Seen::Text(content) => text.push_str(content),
        _ => Ok(()),
    }
}

/// Whether the second text is the beginning of the first, by bytes; false unless both are texts.
pub fn starts_with(value: Seen, front: Seen) -> bool
    ensures { result ≡ both_texts (starts_with nat_eq) (seen_view value.entry) (seen_view front.entry) }
{
    match (value, front) {
        (Seen::Text(value), Seen::Text(front)) => value.as_bytes().starts_with(front.as_bytes()),
        _ => false,
    }
}

/// Whether the second text is the end of the first, by bytes; false unless both are texts.
pub fn ends_with(value: Seen, back: Seen) -> bool
    ensures { result ≡ both_texts (ends_with nat_eq) (seen_view value.entry) (seen_view back.entry) }
{
    match (value, back) {
        (Seen::Text(value), Seen::Text(back)) => value.as_bytes().ends_with(back.as_bytes()),
        _ => false,
    }
}

/// Where a part of so many characters starts: from the front, or from the back where the number is negative.
fn start_of(length: usize, start: i64) -> usize
    ensures { result ≡ start_of length start }
{
    let distance = start.unsigned_abs() as usize;
    if start >= 0 {
        length.min(distance)
    } else {
        length.saturating_sub(distance)
    }
}

/// Where it ends: by its length from its start, or so many before the end where the number is negative.
fn end_of(length: usize, start: usize, count: i64) -> usize
    ensures { result ≡ end_of length start count }
{
    let distance = count.unsigned_abs() as usize;
    if count >= 0 {
        length.min(start.saturating_add(distance))
    } else {
        start.max(length.saturating_sub(distance))
    }
}

/// The characters from one place up to another.
fn characters_between(
    alloc: Global,
    text: &str,
    start: usize,
    end: usize,
) -> Result<String, AllocError>
    ensures { IfOk result (λ s. string_bytes s ≡ encode_utf8_all (characters_between (chars text.now) start end)) }
{
    text.chars()
        .skip(start)
        .take(end.saturating_sub(start))
        .collect(alloc)
}

/// `substr`: the characters (Unicode scalar values) of the `cat` text of the first value from a start on, of a length
/// or to the end. Start and length are numbers; a negative one counts from the back.
pub fn part(alloc: Global, values: &[Value]) -> Result<String, EvalFault>
    ensures exact { GivesUnless WantOfMemory (λ s. text (string_bytes s)) result (part (map value_view values.now)) }
{
    match values {
        [] => Err(EvalFault::Arithmetic),
        [_] => Err(EvalFault::Arithmetic),
        [value, start] => part_to_end(alloc, value.seen(), number_of(start.seen())),
        [value, start, count, ..] => {
            let start = number_of(start.seen());
            part_of_length(alloc, value.seen(), start, number_of(count.seen()))
        }
    }
}

fn part_to_end(alloc: Global, value: Seen, start: Option<i64>) -> Result<String, EvalFault>
    ensures exact { GivesUnless WantOfMemory (λ s. text (string_bytes s)) result (part_result (option_map (part_to_end (chars (piece (seen_view value.entry)))) start)) }
{
    let Some(start) = start else {
        return Err(EvalFault::Arithmetic);
    };
    match value {
        Seen::Text(text) => Ok(text_to_end(alloc, text, start)?),
        _ => {
            let content = content_of(alloc, value)?;
            Ok(text_to_end(alloc, content.as_str(), start)?)
        }
    }
}

fn text_to_end(alloc: Global, text: &str, start: i64) -> Result<String, AllocError>
    ensures { IfOk result (λ s. string_bytes s ≡ encode_utf8_all (part_to_end (chars text.now) start)) }
{
    let length = character_count(text);
    characters_between(alloc, text, start_of(length, start), length)
}

fn part_of_length(
    alloc: Global,
    value: Seen,
    start: Option<i64>,
    count: Option<i64>,
) -> Result<String, EvalFault>
    ensures exact { GivesUnless WantOfMemory (λ s. text (string_bytes s)) result
        (part_result (option_and_then (λ from. option_map (part_of_length (chars (piece (seen_view value.entry))) from) count) start)) }
{
    let (Some(start), Some(count)) = (start, count) else {
        return Err(EvalFault::Arithmetic);
    };
    match value {
        Seen::Text(text) => Ok(text_of_length(alloc, text, start, count)?),
        _ => {
            let content = content_of(alloc, value)?;
            Ok(text_of_length(alloc, content.as_str(), start, count)?)
        }
    }
}

fn text_of_length(alloc: Global, text: &str, start: i64, count: i64) -> Result<String, AllocError>
    ensures { IfOk result (λ s. string_bytes s ≡ encode_utf8_all (part_of_length (chars text.now) start count)) }
{
    let length = character_count(text);
    let start = start_of(length, start);
    characters_between(alloc, text, start, end_of(length, start, count))
}

/// The `cat` text of one value.
fn content_of(alloc: Global, value: Seen) -> Result<String, AllocError>
    ensures { IfOk result (λ s. string_bytes s ≡ piece (seen_view value.entry)) }
{
    let mut content = String::new(alloc);
    push_piece(&mut content, value)?;
    Ok(content)
}

/// Whether the first text occurs in the second; false unless both are texts.
pub(crate) fn occurs_in(part: Seen, value: Seen) -> bool
    ensures { result ≡ both_texts occurs_in (seen_view part.entry) (seen_view value.entry) }
{
    match (part, value) {
        (Seen::Text(part), Seen::Text(value)) => is_within(part, value),
        _ => false,
    }
}

fn is_within(part: &str, content: &str) -> bool
    ensures { result ≡ occurs_in part.now content.now }
{
    content.contains(part)
}

fn character_count(content: &str) -> usize
    ensures { result ≡ length (chars content.now) }
{
    content.chars().count()
}
