//! A look at a JSON text before anything of it is kept: of how many literal buckets it is a list, or what it is refused
//! for.
ghost use Rattle.std.specs.Prelude.{◌≡◌, ◌≢◌, false, length, cond, Option, Err, IfOk, IfErr, Some, None};
ghost use Rattle.std.specs.Option.{is_some};
ghost use Rattle.json.specs.Json.{value, items, parse_map};
ghost use Rattle.serde_json.specs.Data.{Data};
ghost use Rattle.serde_json.specs.Read.{converted, max_depth, of_items, of_json, read};
ghost use Rattle.flag_text.specs.Reading.{if_json, if_whole, items_shape, shape_of};
ghost use Rattle.bucket_core.specs.Rule.{Entries};
ghost use Rattle.rule_text.specs.Buckets.{buckets_in, found_in, found_of, or_bad_rule};
ghost use Rattle.rule_text.specs.Reading.{is_want};
ghost use Rattle.rule_text.specs.declared.fault.RuleTextFault.TheVariants.{Text};
ghost use Rattle.flag_text.specs.declared.fault.TextFault.TheVariants as texts;

use crate::fault::RuleTextFault;
use crate::part::{Extent, part_from, read_item};
use bucket_core::RuleFault;
use flag_text::{JSON_LEVELS, TextFault};
use json::{Reader, Scratch, Token};
use std::alloc::Global;

/// What a text is to a rule.
#[derive(Clone, Copy)]
struct Outline {
    /// Whether it is a list of literal buckets alone.
    is_rule: bool,
    /// How many of its items are literal buckets.
    count: usize,
    extent: Extent,
}

/// Of how many literal buckets a JSON text is a list, or what it is refused for. It keeps nothing of the text but the
/// names of an object's members while it reads the object.
pub(crate) fn look(alloc: Global, text: &str, scratch: &mut Scratch) -> Result<usize, RuleTextFault>
    ensures refused { IfErr result (λ e. is_want e ≡ false → buckets_in (if_whole (if_json (read text.now))) ≡ Err e) }
    ensures kind { result ≢ Err (Text texts.TooLarge) }
{
    let mut reader = Reader::new(text, scratch)?;
    let seen = look_whole(alloc, &mut reader)?;
    if reader.next().is_some() {
        return Err(RuleTextFault::Text(TextFault::NotJson));
    }
    judged(seen)
}

/// How many buckets were seen, or what a text with them is refused for.
fn judged(seen: Outline) -> Result<usize, RuleTextFault>
    ensures refused { IfErr result (λ e. (found : Option Entries) → is_some found ≡ seen.is_rule
        → cond seen.extent.deep (Err (Text texts.TooDeep)) (cond seen.extent.other (Err (Text texts.NotWhole)) (or_bad_rule found)) ≡ Err e) }
    ensures kind { result ≢ Err (Text texts.TooLarge) }
{
    if seen.extent.deep {
        return Err(RuleTextFault::Text(TextFault::TooDeep));
    }
    if seen.extent.other {
        return Err(RuleTextFault::Text(TextFault::NotWhole));
    }
    if seen.is_rule {
        Ok(seen.count)
    } else {
        Err(RuleTextFault::Rule(RuleFault::BadRule))
    }
}

/// Looks at the value of a text.
fn look_whole(alloc: Global, reader: &mut Reader<'_>) -> Result<Outline, TextFault>
    ensures ok { IfOk result (λ seen. (d : Data) × (found : Option Entries) × (converted of_json (value max_depth reader.old) ≡ Some (d, reader.new)) × ((found, seen.extent) ≡ found_in (shape_of d)) × (is_some found ≡ seen.is_rule)) }
    ensures err { result ≡ Err TextFault.NotJson → converted of_json (value max_depth reader.old) ≡ None }
    ensures kind { IfErr result (λ e. e ≢ TextFault.WantOfMemory → e ≡ TextFault.NotJson) }
{
    let token = reader.next().ok_or(TextFault::NotJson)?;
    if let Token::BeginArray = token {
        return look_list(alloc, reader);
    }
    let part = part_from(alloc, token, reader, JSON_LEVELS)?;
    Ok(Outline {
        is_rule: false,
        count: 0,
        extent: part.extent,
    })
}

/// Looks at the items of the list that a text is, and at its end.
fn look_list(alloc: Global, reader: &mut Reader<'_>) -> Result<Outline, TextFault>
    ensures ok { IfOk result (λ seen. (found : Option Entries) × (parse_map (λ ds. found_of (items_shape ds)) (converted of_items (items (value 126) (length reader.old) reader.old)) ≡ Some ((found, seen.extent), reader.new)) × (is_some found ≡ seen.is_rule)) }
    ensures err { result ≡ Err TextFault.NotJson → converted of_items (items (value 126) (length reader.old) reader.old) ≡ None }
    ensures kind { IfErr result (λ e. e ≢ TextFault.WantOfMemory → e ≡ TextFault.NotJson) }
{
    let mut is_rule = true;
    let mut count = 0usize;
    let mut extent = Extent::none();
    'buckets: while !reader.take_end_array() {
        let (bucket, item_extent) = read_item(alloc, reader, JSON_LEVELS - 1)?;
        is_rule &= bucket.is_some();
        count = count.saturating_add(1);
        extent = extent.and(item_extent);
    }
    Ok(Outline {
        is_rule,
        count,
        extent: extent.around(JSON_LEVELS - 1),
    })
}
