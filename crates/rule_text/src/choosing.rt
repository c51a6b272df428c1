//! What the rule of a text gives a hash input, with no copy of the rule's names.
ghost use Rattle.std.specs.Prelude.{◌≡◌, ◌≢◌, ◌<◌, ◌≤◌, ◌↔◌, false, length, Some, Err, IfOk, IsErrOf};
ghost use Rattle.std.specs.Str.{is_utf8};
ghost use Rattle.serde_json.specs.Read.{read};
ghost use Rattle.bucket_core.specs.Reading.{rule_of_entries};
ghost use Rattle.bucket_core.specs.Rule.{at, total_weight};
ghost use Rattle.bucket_core.specs.declared.fault.RuleFault.{RuleFault as Fault};
ghost use Rattle.flag_text.specs.Reading.{if_json, if_whole};
ghost use Rattle.flag_text.specs.declared.fault.TextFault.TheVariants as texts;
ghost use Rattle.rule_text.specs.Choosing.{GivesChoice, choice_by, choice_of, choice_view};
ghost use Rattle.rule_text.specs.Lent.{lent_view};
ghost use Rattle.rule_text.specs.Reading.{of_rule, of_tree, rule_of_text};

use crate::fault::RuleTextFault;
use crate::lent::{LentEntry, rule_total};
use crate::listed::listed;
use crate::read::rule_in;
use bucket_core::{Rule, point};
use flag_text::TextFault;
use json::Scratch;
use simdutf8::basic;
use std::alloc::{AllocError, Global};

/// What a rule gives a hash input.
#[derive(Debug, Drop)]
pub struct Choice {
    /// The input's point, below the rule's total.
    pub point: u32,
    /// The name at the point.
    pub variant: String,
}

/// What the rule that the bytes of a JSON text stand for gives a hash input: as `choose` of the rule that
/// [`read_rule_text`](crate::read_rule_text) reads, which is refused as there. Cost: a pass over the bytes for their encoding,
/// one over the tokens, and 24 bytes for each entry; of a list that has anything but literal buckets, that of the rule.
pub fn choose_in_text(
    alloc: Global,
    bytes: &[u8],
    max: usize,
    key: &str,
) -> Result<Choice, RuleTextFault>
    ensures exact { GivesChoice result (choice_of key.now (rule_of_text bytes.now max)) }
    ensures large { IsErrOf result (RuleTextFault.Text texts.TooLarge) ↔ (max < length bytes.now) }
    ensures no_text { length bytes.now ≤ max → is_utf8 bytes.now ≡ false → IsErrOf result (RuleTextFault.Text texts.NotJson) }
{
    if bytes.len() > max {
        return Err(RuleTextFault::Text(TextFault::TooLarge));
    }
    match basic::from_utf8(bytes) {
        Ok(text) => choice_in(alloc, text, key),
        Err(_) => Err(RuleTextFault::Text(TextFault::NotJson)),
    }
}

/// What the rule that a JSON text stands for gives a hash input.
fn choice_in(alloc: Global, text: &str, key: &str) -> Result<Choice, RuleTextFault>
    ensures exact { GivesChoice result (choice_of key.now (of_tree (if_whole (if_json (read text.now))))) }
    ensures kind { result ≢ Err (RuleTextFault.Text texts.TooLarge) }
{
    let mut scratch = Scratch::new(alloc);
    match listed(alloc, text, &mut scratch)? {
        Some(entries) => choice_among(alloc, entries.as_slice(), key),
        None => {
            let rule = rule_in(alloc, text)?;
            Ok(choice_by(alloc, &rule, key)?)
        }
    }
}

/// What a rule gives a hash input.
fn choice_by(alloc: Global, rule: &Rule, key: &str) -> Result<Choice, AllocError>
    ensures { IfOk result (λ c. choice_view c ≡ choice_by key.now rule.now) }
{
    let point = point(rule.total(), key);
    Ok(Choice {
        point,
        variant: String::from_str(alloc, rule.variant_at(point))?,
    })
}

/// What the rule of these entries gives a hash input.
fn choice_among(
    alloc: Global,
    entries: &[LentEntry<'_>],
    key: &str,
) -> Result<Choice, RuleTextFault>
    ensures exact { GivesChoice result (choice_of key.now (of_rule (rule_of_entries (lent_view entries.now)))) }
    ensures refused { (e : Fault) → rule_of_entries (lent_view entries.now) ≡ Err e → IsErrOf result (RuleTextFault.Rule e) }
    ensures kind { result ≢ Err (RuleTextFault.Text texts.TooLarge) }
{
    let point = point(rule_total(entries)?, key);
    Ok(Choice {
        point,
        variant: String::from_str(alloc, name_at(entries, point))?,
    })
}

/// The name at a point below the total.
fn name_at<'a>(entries: &[LentEntry<'a>], point: u32) -> &'a str
    requires { point < total_weight (lent_view entries.now) }
    ensures { at (lent_view entries.now) point ≡ Some result.now }
{
    let mut rest = u64::from(point);
    for (name, weight) in entries {
        if rest < *weight {
            return name;
        }
        rest -= *weight;
    }
    unreachable!()
}
