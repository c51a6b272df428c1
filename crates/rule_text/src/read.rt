//! From the bytes of a text to a rule.
ghost use Rattle.std.specs.Prelude.{◌≡◌, ◌≢◌, ◌<◌, ◌≤◌, ◌↔◌, false, length, Err, IfOk, IsErrOf};
ghost use Rattle.std.specs.Str.{is_utf8};
ghost use Rattle.serde_json.specs.Read.{read};
ghost use Rattle.flag_text.specs.Reading.{if_json, if_whole};
ghost use Rattle.flag_text.specs.declared.fault.TextFault.TheVariants as texts;
ghost use Rattle.rule_text.specs.Reading.{of_tree, rule_of_text, GivesUnlessShort};

use crate::buckets::read_buckets;
use crate::fault::RuleTextFault;
use crate::lent::rule_of;
use crate::listed::listed;
use bucket_core::Rule;
use flag_text::TextFault;
use json::Scratch;
use simdutf8::basic;
use std::alloc::Global;

/// A text with more lists than this is looked at before an entry is kept, which costs a second reading of its tokens: the entries
/// of fewer take some 100 MB beside a text of 64 MiB.
const MANY_LISTS: usize = 1 << 22;

/// The rule that the bytes of a JSON text stand for: a list of literal buckets, each a list of a name, or of a name and
/// a weight from 0 to 2147483647, which is 1 where it is left out. `max` is the most bytes that are read.
///
/// Refusals, in this order: those of `flag_text`'s `read_tree`, then those of `bucket_core`'s `read_rule`. `TooLarge`,
/// and `NotJson` of bytes that are not UTF-8, take no memory. No tree is made: the cost is three passes over the bytes, 40 bytes
/// for each entry while they are read and 20 in the rule, a copy of each name, mostly one however many entries have it, and a
/// search for each name of an object's member.
pub fn read_rule_text(alloc: Global, bytes: &[u8], max: usize) -> Result<Rule, RuleTextFault>
    ensures exact { GivesUnlessShort result (rule_of_text bytes.now max) }
    ensures large { IsErrOf result (RuleTextFault.Text texts.TooLarge) ↔ (max < length bytes.now) }
    ensures no_text { length bytes.now ≤ max → is_utf8 bytes.now ≡ false → IsErrOf result (RuleTextFault.Text texts.NotJson) }
{
    if bytes.len() > max {
        return Err(RuleTextFault::Text(TextFault::TooLarge));
    }
    match basic::from_utf8(bytes) {
        Ok(text) => rule_in(alloc, text),
        Err(_) => Err(RuleTextFault::Text(TextFault::NotJson)),
    }
}

/// The rule that a JSON text stands for. A list of literal buckets alone is read without a thought of what else it may be.
pub(crate) fn rule_in(alloc: Global, text: &str) -> Result<Rule, RuleTextFault>
    ensures exact { GivesUnlessShort result (of_tree (if_whole (if_json (read text.now)))) }
    ensures kind { result ≢ Err (RuleTextFault.Text texts.TooLarge) }
{
    if !has_many_lists(text) {
        let mut scratch = Scratch::new(alloc);
        if let Some(entries) = listed(alloc, text, &mut scratch)? {
            return rule_of(alloc, entries);
        }
    }
    let mut scratch = Scratch::new(alloc);
    let buckets = read_buckets(alloc, text, &mut scratch)?;
    rule_of(alloc, buckets)
}

/// Whether a text may have more lists than `MANY_LISTS`: each begins with a bracket.
fn has_many_lists(text: &str) -> bool {
    text.as_bytes().iter().filter(|b| **b == b'[').count() > MANY_LISTS
}
