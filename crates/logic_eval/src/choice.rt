//! Which name a site gives its input.
ghost use Rattle.std.specs.Prelude.{◌≡◌, ◌<◌, ◌^◌, ◌++◌, map, option_map, IfOk, IfSome, Some, string_bytes};
ghost use Rattle.std.specs.Arc.{arc_value};
ghost use Rattle.std.specs.Option.{option_map_or};
ghost use Rattle.std.specs.Str.{bytes_eq};
ghost use Rattle.bucket_core.specs.Reading.{weight_of, bucket_with};
ghost use Rattle.bucket_core.specs.Rule.{Entries, at, total_weight};
ghost use Rattle.flag_text.specs.Outcome.{GivesUnless};
ghost use Rattle.flag_text.specs.Shape.{null, text};
ghost use Rattle.logic_values.specs.declared.fault.EvalFault.TheVariants.{WantOfMemory};
ghost use Rattle.logic_eval.specs.Budget.{Follows};
ghost use Rattle.logic_eval.specs.Fractional.{entries_of, buckets_of, input_result, decided};
ghost use Rattle.logic_values.specs.Text.{made};
ghost use Rattle.logic_eval.specs.Views.{progress, default_view, input_view, weighted_variant_view};
ghost use Rattle.logic_values.specs.Views.{seen_view, value_view};

use crate::fractional::{Input, WeightedVariant};
use crate::hashed::{HashInput, hashed, shared};
use crate::meter::{Meter, Reached};
use crate::scope::Subject;
use bucket_core::scale;
use logic_values::text::MOST_BYTES;
use logic_values::{EvalFault, Seen, Value, copy};
use std::alloc::{AllocError, Global};
use std::sync::Arc;

const MAX_TOTAL: u64 = bucket_core::MAX_TOTAL as u64;

/// What the site gives: the name at the input's point, or null.
pub(crate) fn decide<'a>(
    meter: &mut Meter,
    site: u32,
    input: Input,
    shares: &[WeightedVariant<'a>],
    subject: Subject,
) -> Result<Value<'a>, EvalFault>
    ensures exact { Follows value_view (progress meter.old) (progress meter.new) result (decided site (input_view (default_view subject.entry) input.entry) (map weighted_variant_view shares.now)) }
{
    let Some(total) = total_of(shares) else {
        return Err(EvalFault::BadBuckets);
    };
    if total == 0 {
        return Ok(Value::Null);
    }
    let Some(input) = input_of(meter.alloc, &mut meter.default, &input, subject)? else {
        return Ok(Value::Null);
    };
    let HashInput { text: input, hash } = input;
    let chosen = chosen(meter.alloc, share_at(shares, scale(total, hash)))?;
    meter.reached.push(Reached { site, input, total })?;
    Ok(chosen)
}

// The name of the share, or null.
fn chosen<'a>(alloc: Global, share: Option<&WeightedVariant<'a>>) -> Result<Value<'a>, AllocError>
    ensures { IfOk result (λ v. value_view v ≡ option_map_or (λ s. (weighted_variant_view s.now).0) share.entry null) }
{
    match share {
        Some(WeightedVariant::Literal(name, _)) => Ok(Value::Name(name)),
        Some(WeightedVariant::Computed(name, _)) => copy(alloc, name),
        None => Ok(Value::Null),
    }
}

// What is hashed, where there is something.
pub(crate) fn input_of(
    alloc: Global,
    default: &mut Option<HashInput>,
    input: &Input,
    subject: Subject,
) -> Result<Option<HashInput>, EvalFault>
    ensures exact { GivesUnless WantOfMemory (option_map (λ h. string_bytes (arc_value h.text))) result (input_result (input_view (default_view subject.entry) input.now)) }
{
    match input {
        Input::Given(value) => match value.seen() {
            Seen::Text(text) => {
                let text = Arc::new(alloc, String::from_str(alloc, text)?)?;
                Ok(Some(hashed(text)))
            }
            _ => Ok(None),
        },
        Input::Default => match subject.key {
            Some(key) => Ok(Some(default_input(alloc, default, subject.flag, key)?)),
            None => Ok(None),
        },
    }
}

// The default input, unless it is too long. It is made and hashed once, however many sites it reaches.
fn default_input(
    alloc: Global,
    default: &mut Option<HashInput>,
    flag: &str,
    key: &str,
) -> Result<HashInput, EvalFault>
    ensures exact { GivesUnless WantOfMemory (λ h. string_bytes (arc_value h.text)) result (made (flag.now ++ key.now)) }
{
    if flag.len() + key.len() > MOST_BYTES {
        return Err(EvalFault::TextTooLong);
    }
    if let Some(input) = default {
        if is_joined(input.text.as_str(), flag, key) {
            return Ok(shared(input)?);
        }
    }
    let input = hashed(Arc::new(alloc, joined(alloc, flag, key)?)?);
    *default = Some(shared(&input)?);
    Ok(input)
}

fn is_joined(text: &str, flag: &str, key: &str) -> bool
    ensures { result ≡ bytes_eq text.now (flag.now ++ key.now) }
{
    match text.as_bytes().strip_prefix(flag.as_bytes()) {
        Some(rest) => rest == key.as_bytes(),
        None => false,
    }
}

fn joined(alloc: Global, flag: &str, key: &str) -> Result<String, AllocError>
    ensures { IfOk result (λ s. string_bytes s ≡ flag.now ++ key.now) }
{
    let mut text = String::with_capacity(alloc, flag.len() + key.len())?;
    text.push_str(flag)?;
    text.push_str(key)?;
    Ok(text)
}

// The total weight, where each name is a text, each weight is a whole number from 0 to 2^31-1 and the total is one.
fn total_of(shares: &[WeightedVariant]) -> Option<u32>
    ensures value { result ≡ option_map total_weight (buckets_of (map weighted_variant_view shares.now)) }
    ensures small { IfSome result (λ n. n < 2 ^ 31) }
{
    let mut total: u64 = 0;
    for share in shares {
        let (_, weight) = entry_of(share)?;
        total += weight;
        if total > MAX_TOTAL {
            return None;
        }
    }
    Some(total as u32)
}

// The share at a point of the entries.
fn share_at<'s, 'a>(
    shares: &'s [WeightedVariant<'a>],
    point: u32,
) -> Option<&'s WeightedVariant<'a>>
    ensures { (r : Entries) → entries_of (map weighted_variant_view shares.now) ≡ Some r → option_map (λ s. (weighted_variant_view s.now).0) result ≡ option_map text (at r point) }
{
    let mut left = point as u64;
    for share in shares {
        let (_, weight) = entry_of(share)?;
        if left < weight {
            return Some(share);
        }
        left -= weight;
    }
    None
}

// A name that is a text, and a weight.
fn entry_of<'s, 'a>(share: &'s WeightedVariant<'a>) -> Option<(&'s str, u64)>
    ensures value { option_map (λ e. (e.0.now, e.1)) result ≡ bucket_with (weight_of (weighted_variant_view share.now).1) (weighted_variant_view share.now).0 }
    ensures small { IfSome result (λ e. e.1 < 2 ^ 31) }
{
    match share {
        WeightedVariant::Literal(name, weight) => {
            if *weight <= MAX_TOTAL {
                Some((name, *weight))
            } else {
                None
            }
        }
        WeightedVariant::Computed(name, weight) => match (name.seen(), weight_of(weight.seen())) {
            (Seen::Text(name), Some(weight)) => Some((name, weight)),
            _ => None,
        },
    }
}

// A whole number from 0 to 2^31-1.
fn weight_of(value: Seen) -> Option<u64>
    ensures value { result ≡ weight_of (seen_view value.entry) }
    ensures small { IfSome result (λ n. n < 2 ^ 31) }
{
    match value {
        Seen::Whole(weight) if 0 <= weight && weight <= MAX_TOTAL as i64 => Some(weight as u64),
        _ => None,
    }
}
