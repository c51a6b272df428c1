//! Which name a site gives its input, where all its buckets are literal.
ghost use Rattle.std.specs.Prelude.{◌≡◌, ◌<◌, length};
ghost use Rattle.std.specs.Option.{option_map_or};
ghost use Rattle.bucket_core.specs.Rule.{Entries, at, ends_from, entry_at, total_weight};
ghost use Rattle.flag_text.specs.Shape.{null, text};
ghost use Rattle.logic_ast.specs.View.{bucket_view, buckets_view};
ghost use Rattle.logic_eval.specs.Budget.{Follows};
ghost use Rattle.logic_eval.specs.Fractional.{by_input};
ghost use Rattle.logic_eval.specs.Literal.{AreEnds, entries_in, literal_name};
ghost use Rattle.logic_eval.specs.Views.{progress, default_view, input_view};
ghost use Rattle.logic_values.specs.Views.{value_view};

use crate::choice::input_of;
use crate::fractional::Input;
use crate::hashed::HashInput;
use crate::meter::{Meter, Reached};
use crate::scope::Subject;
use bucket_core::scale;
use logic_ast::{Bucket, Node};
use logic_values::{EvalFault, Value};

/// What the site gives: the name at the input's point, found among the cumulative weights by halving, or null.
pub(crate) fn decide_literal<'a>(
    meter: &mut Meter,
    site: u32,
    input: Input,
    buckets: &'a Vec<Bucket<Node>>,
    ends: &[u32],
    subject: Subject,
) -> Result<Value<'a>, EvalFault>
    requires ends { AreEnds (buckets_view buckets.now.items) ends.now }
    requires some { 0 < length ends.now }
    ensures exact { Follows value_view (progress meter.old) (progress meter.new) result (by_input site (input_view (default_view subject.entry) input.entry) (entries_in (buckets_view buckets.now.items))) }
{
    let total = total_of(ends);
    if total == 0 {
        return Ok(Value::Null);
    }
    let Some(input) = input_of(meter.alloc, &mut meter.default, &input, subject)? else {
        return Ok(Value::Null);
    };
    let HashInput { text: input, hash } = input;
    let name = name_at(buckets, ends, scale(total, hash));
    meter.reached.push(Reached { site, input, total })?;
    Ok(name)
}

// The sum of all weights, the last of the cumulative ones.
fn total_of(ends: &[u32]) -> u32
    requires { 0 < length ends.now }
    ensures { (r : Entries) → ends.now ≡ ends_from 0 r → result ≡ total_weight r }
{
    ends[ends.len() - 1]
}

// The name at a point.
fn name_at<'a>(buckets: &'a Vec<Bucket<Node>>, ends: &[u32], point: u32) -> Value<'a>
    requires ends { AreEnds (buckets_view buckets.now.items) ends.now }
    requires point { point < total_weight (entries_in (buckets_view buckets.now.items)) }
    ensures { value_view result ≡ option_map_or text (at (entries_in (buckets_view buckets.now.items)) point) null }
{
    name_of(&buckets[entry_at(ends, point)])
}

// The entry that holds a point, the first whose cumulative weight exceeds it.
fn entry_at(ends: &[u32], point: u32) -> usize
    ensures { (r : Entries) → ends.now ≡ ends_from 0 r → result ≡ entry_at r point }
{
    ends.partition_point(|end| *end <= point)
}

// The name of a literal bucket.
fn name_of(bucket: &Bucket<Node>) -> Value<'_>
    ensures { value_view result ≡ literal_name (bucket_view bucket.now) }
{
    match bucket {
        Bucket::Literal(name, _) => Value::Name(name),
        Bucket::Computed(_, _) => Value::Null,
    }
}
