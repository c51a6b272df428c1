//! The rules that two documents have at the site of a page.
ghost use Rattle.std.specs.Prelude.{◌≡◌, ◌≢◌, IfOk};
ghost use Rattle.bucket_core.specs.Reading.{rule_of_entries};
ghost use Rattle.bucket_core.specs.Rule.{entries_view};
ghost use Rattle.flag_text.specs.Outcome.{GivesUnless};
ghost use Rattle.flag_defs.specs.Flags.{flags_view};
ghost use Rattle.logic_ast.specs.Expr.{view};
ghost use Rattle.rule_switches.specs.Rules.{by_weight, none, rule_in, rule_on, rules_on, rules_view};

use crate::fault::NoRule;
use crate::page_edit::{Edit, Side};
use book_core::Page;
use bucket_core::Rule;
use flag_defs::Flags;
use logic_ast::{Expr, Site, site};
use std::alloc::{AllocError, Global};

/// The rules of both documents at the site of a page, or why there is none.
#[derive(Drop)]
pub enum Rules {
    /// Before the edit and after it.
    Both(Rule, Rule),
    /// The first document that has none, and why.
    None(Side, NoRule),
}

/// The rules of both documents at the site of a page. Want of memory is its one fault.
#[tactic(auto, using(crate::proofs::PagePlaced::lacks_old, crate::proofs::PagePlaced::lacks_new))]
pub fn rules_on(alloc: Global, edit: Edit<'_>, page: &Page) -> Result<Rules, AllocError>
    ensures { IfOk result (λ r. rules_view r ≡ rules_on (flags_view edit.entry.old.now) (flags_view edit.entry.new.now) page.now) }
{
    let before = match rule_on(alloc, edit.old, page) {
        Ok(rule) => rule,
        Err(reason) => return no_rule(Side::Old, reason),
    };
    match rule_on(alloc, edit.new, page) {
        Ok(after) => Ok(Rules::Both(before, after)),
        Err(reason) => no_rule(Side::New, reason),
    }
}

/// A document without a rule, where that is known.
fn no_rule(side: Side, reason: NoRule) -> Result<Rules, AllocError>
    ensures rules { IfOk result (λ r. rules_view r ≡ none side reason) }
    ensures known { IfOk result (λ r. reason ≢ NoRule.WantOfMemory) }
{
    match reason {
        NoRule::WantOfMemory => Err(AllocError),
        _ => Ok(Rules::None(side, reason)),
    }
}

/// The rule of a document at the site of a page, or the first reason why there is none.
#[tactic(auto, unfolding(crate::specs::Rules::rule_on))]
fn rule_on(alloc: Global, flags: &Flags, page: &Page) -> Result<Rule, NoRule>
    ensures { GivesUnless NoRule.WantOfMemory (λ r. r) result (rule_on (flags_view flags.now) page.now) }
{
    let Some(flag) = flags.get(page.flag.as_str()) else {
        return Err(NoRule::NoFlag);
    };
    let Some(targeting) = flag.targeting() else {
        return Err(NoRule::NoSite);
    };
    rule_in(alloc, targeting, page)
}

/// The rule of a targeting at the site of a page.
fn rule_in(alloc: Global, targeting: &Expr, page: &Page) -> Result<Rule, NoRule>
    ensures { GivesUnless NoRule.WantOfMemory (λ r. r) result (rule_in page.now (view targeting.now)) }
{
    let other = Page::of(alloc, page.flag.as_str(), targeting, page.site)?;
    if *page != other {
        return Err(NoRule::OtherExpression);
    }
    let Site { entries, .. } = site(alloc, targeting, page.site)?;
    rule_of(alloc, entries)
}

/// The rule of literal entries, where their weights make one.
fn rule_of(alloc: Global, entries: Vec<(String, u64)>) -> Result<Rule, NoRule>
    ensures { GivesUnless NoRule.WantOfMemory (λ r. r) result (by_weight (rule_of_entries (entries_view entries.items))) }
{
    match Rule::make(alloc, entries) {
        Ok(rule) => Ok(rule),
        Err(fault) => Err(NoRule::from(fault)),
    }
}
