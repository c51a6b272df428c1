//! Entries whose names lie in a text, and the rule of them.
ghost use Rattle.std.specs.Prelude.{◌≡◌, ◌≢◌, Ok, Err, IfOk, IfErr, IsErrOf};
ghost use Rattle.bucket_core.specs.Reading.{rule_of_entries};
ghost use Rattle.bucket_core.specs.Rule.{IsRuleTotal, total_weight};
ghost use Rattle.bucket_core.specs.declared.fault.RuleFault.{RuleFault as Fault};
ghost use Rattle.flag_text.specs.declared.fault.TextFault.TheVariants as texts;
ghost use Rattle.rule_text.specs.Lent.{lent_view};
ghost use Rattle.rule_text.specs.Reading.{of_rule, GivesUnlessShort};

use crate::fault::RuleTextFault;
use crate::names::numbered;
use bucket_core::{MAX_TOTAL, Rule, RuleFault};
use std::alloc::Global;

/// A name, where it lies in its text or in what its escapes were replaced in, and a weight.
pub(crate) type LentEntry<'a> = (&'a str, u64);

/// The rule of these entries. Its weights are refused before it takes memory.
pub(crate) fn rule_of(alloc: Global, entries: Vec<LentEntry<'_>>) -> Result<Rule, RuleTextFault>
    ensures exact { GivesUnlessShort result (of_rule (rule_of_entries (lent_view entries.entry.items))) }
    ensures refused { (e : Fault) → rule_of_entries (lent_view entries.entry.items) ≡ Err e → IsErrOf result (RuleTextFault.Rule e) }
    ensures kind { result ≢ Err (RuleTextFault.Text texts.TooLarge) }
{
    rule_total(entries.as_slice())?;
    let (names, places) = numbered(alloc, entries)?;
    Ok(Rule::of_places(alloc, names, places)?)
}

/// The total of the rule of these entries. It is refused with `NoWeight` where it is 0, with `TooHeavy` above 2147483647.
pub(crate) fn rule_total(entries: &[LentEntry<'_>]) -> Result<u32, RuleFault>
    ensures total { IfOk result (λ total. total ≡ total_weight (lent_view entries.now)) }
    ensures allowed { IfOk result IsRuleTotal }
    ensures rule { IfOk result (λ _. rule_of_entries (lent_view entries.now) ≡ Ok (lent_view entries.now)) }
    ensures refused { IfErr result (λ e. rule_of_entries (lent_view entries.now) ≡ Err e) }
{
    let total = total_of(entries);
    if total == 0 {
        return Err(RuleFault::NoWeight);
    }
    if total > u128::from(MAX_TOTAL) {
        return Err(RuleFault::TooHeavy);
    }
    Ok(total as u32)
}

/// The sum of the weights, which is exact.
fn total_of(entries: &[LentEntry<'_>]) -> u128
    ensures { result ≡ total_weight (lent_view entries.now) }
{
    let mut sum = 0u128;
    for (_, weight) in entries {
        sum += u128::from(*weight);
    }
    sum
}
