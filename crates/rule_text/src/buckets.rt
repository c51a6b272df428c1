//! The literal buckets that a JSON text is a list of, with no tree in between.
ghost use Rattle.std.specs.Prelude.{◌≡◌, ◌≢◌, length, cond, Err, IfOk, IfErr, option_map, Some, None};
ghost use Rattle.json.specs.Json.{value, items, parse_map};
ghost use Rattle.serde_json.specs.Data.{Data};
ghost use Rattle.serde_json.specs.Read.{converted, max_depth, of_items, of_json, read};
ghost use Rattle.flag_text.specs.Reading.{if_json, if_whole, items_shape, shape_of};
ghost use Rattle.rule_text.specs.Buckets.{GivesEntries, buckets_in, found_in, found_of, or_bad_rule, so_far, with_bucket};
ghost use Rattle.rule_text.specs.Lent.{lent_view};
ghost use Rattle.rule_text.specs.declared.fault.RuleTextFault.TheVariants.{Text};
ghost use Rattle.flag_text.specs.declared.fault.TextFault.TheVariants as texts;

use crate::fault::RuleTextFault;
use crate::lent::LentEntry;
use crate::look::look;
use crate::part::{Extent, part_from, read_item};
use bucket_core::RuleFault;
use flag_text::{JSON_LEVELS, TextFault};
use json::{Reader, Scratch, Token};
use std::alloc::{AllocError, Global};

/// What was found in a text: its literal buckets, where it is a list of them alone, and its extent.
type Found<'a> = (Option<Vec<LentEntry<'a>>>, Extent);

/// The names and weights of a JSON text that is a list of literal buckets. It is looked at before an entry is kept.
///
/// Refusals, in this order: `NotJson`, `TooDeep`, `NotWhole`, `BadRule`.
pub(crate) fn read_buckets<'a>(
    alloc: Global,
    text: &'a str,
    scratch: &'a mut Scratch,
) -> Result<Vec<LentEntry<'a>>, RuleTextFault>
    ensures exact { GivesEntries result (buckets_in (if_whole (if_json (read text.now)))) }
    ensures kind { result ≢ Err (Text texts.TooLarge) }
{
    let count = look(alloc, text, scratch)?;
    let mut reader = Reader::new(text, scratch)?;
    let (found, extent) = read_whole(alloc, &mut reader, count)?;
    if reader.next().is_some() {
        return Err(RuleTextFault::Text(TextFault::NotJson));
    }
    judged(found, extent)
}

/// What was found, or what a text with it is refused for.
fn judged<'a>(
    found: Option<Vec<LentEntry<'a>>>,
    extent: Extent,
) -> Result<Vec<LentEntry<'a>>, RuleTextFault>
    ensures exact { GivesEntries result (cond extent.deep (Err (Text texts.TooDeep)) (cond extent.other (Err (Text texts.NotWhole)) (or_bad_rule (option_map (λ v. lent_view v.items) found.entry)))) }
    ensures kind { result ≢ Err (Text texts.TooLarge) }
{
    if extent.deep {
        return Err(RuleTextFault::Text(TextFault::TooDeep));
    }
    if extent.other {
        return Err(RuleTextFault::Text(TextFault::NotWhole));
    }
    found.ok_or(RuleTextFault::Rule(RuleFault::BadRule))
}

/// Reads the value of a text, with room for so many buckets.
fn read_whole<'a>(
    alloc: Global,
    reader: &mut Reader<'a>,
    count: usize,
) -> Result<Found<'a>, TextFault>
    ensures ok { IfOk result (λ f. (d : Data) × (converted of_json (value max_depth reader.old) ≡ Some (d, reader.new)) × ((option_map (λ v. lent_view v.items) f.0, f.1) ≡ found_in (shape_of d))) }
    ensures err { result ≡ Err TextFault.NotJson → converted of_json (value max_depth reader.old) ≡ None }
    ensures kind { IfErr result (λ e. e ≢ TextFault.WantOfMemory → e ≡ TextFault.NotJson) }
{
    let token = reader.next().ok_or(TextFault::NotJson)?;
    if let Token::BeginArray = token {
        return read_list(alloc, reader, count);
    }
    let part = part_from(alloc, token, reader, JSON_LEVELS)?;
    Ok((None, part.extent))
}

/// Reads the items of the list that a text is, and its end, with room for so many buckets.
fn read_list<'a>(
    alloc: Global,
    reader: &mut Reader<'a>,
    count: usize,
) -> Result<Found<'a>, TextFault>
    ensures ok { IfOk result (λ f. parse_map (λ ds. found_of (items_shape ds)) (converted of_items (items (value 126) (length reader.old) reader.old)) ≡ Some ((option_map (λ v. lent_view v.items) f.0, f.1), reader.new)) }
    ensures err { result ≡ Err TextFault.NotJson → converted of_items (items (value 126) (length reader.old) reader.old) ≡ None }
    ensures kind { IfErr result (λ e. e ≢ TextFault.WantOfMemory → e ≡ TextFault.NotJson) }
{
    let mut found = Vec::with_capacity(alloc, count)?;
    let mut is_rule = true;
    let mut extent = Extent::none();
    'buckets: while !reader.take_end_array() {
        let (bucket, item_extent) = read_item(alloc, reader, JSON_LEVELS - 1)?;
        is_rule = keep(&mut found, is_rule, bucket)?;
        extent = extent.and(item_extent);
    }
    Ok((found_if(is_rule, found), extent.around(JSON_LEVELS - 1)))
}

/// Keeps a bucket behind those that were found, while each item is one.
fn keep<'a>(
    found: &mut Vec<LentEntry<'a>>,
    is_rule: bool,
    bucket: Option<LentEntry<'a>>,
) -> Result<bool, AllocError>
    ensures { IfOk result (λ b. so_far b (lent_view found.new.items) ≡ with_bucket (so_far is_rule (lent_view found.old.items)) (option_map (λ e. (e.0.now, e.1)) bucket.entry)) }
{
    match bucket {
        Some(entry) if is_rule => {
            found.push(entry)?;
            Ok(true)
        }
        _ => Ok(false),
    }
}

/// The buckets that were found, where each item was one.
fn found_if<'a>(is_rule: bool, found: Vec<LentEntry<'a>>) -> Option<Vec<LentEntry<'a>>>
    ensures { option_map (λ v. lent_view v.items) result ≡ so_far is_rule (lent_view found.entry.items) }
{
    if is_rule { Some(found) } else { None }
}
