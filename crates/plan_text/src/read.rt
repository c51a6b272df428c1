//! From the bytes of a plan file to the answer that it holds.
ghost use Rattle.std.specs.Prelude.{◌≡◌, ◌<◌, ◌≤◌, ◌↔◌, ◌^◌, false, IfOk, IsErrOf, length, map, option_map};
ghost use Rattle.std.specs.Str.{is_utf8};
ghost use Rattle.flag_text.specs.Outcome.{GivesUnless};
ghost use Rattle.flag_text.specs.View.{view, items_view};
ghost use Rattle.bucket_core.specs.Rule.{entries_view, names_view};
ghost use Rattle.transport_core.specs.Certificate.{alpha_view, beta_view};
ghost use Rattle.plan_text.specs.Answer.{planned_view};
ghost use Rattle.plan_text.specs.PlanFile.{max_plan, plan_members, canonical_rule, items_in, alpha_in, beta_in, cost_in, rule_in, names_in, emit_in, set_in, planned_of, IsWhole, if_plan, answer_of};

use crate::fault::PlanFileFault;
use crate::form::{Form, form_in, has_rule_member};
use crate::order::{alpha_rises, beta_rises, names_rise};
use crate::plain::{COSTS, plain_of};
use crate::planned::Planned;
use crate::rows::{read_alpha, read_beta, read_entries, read_names};
use bucket_core::{Rule, RuleFault};
use flag_text::Tree;
use limits::FILE_BYTES;
use member_names::read_named;
use std::alloc::Global;
use transport_core::{Certificate, Cut, CutKind};

const PLAN_MEMBERS: &[&str] = &["alpha", "beta", "cost", "none", "plan", "rule", "side"];

/// The answer that the bytes of a plan file hold: a canonical rule with its certificate, whose groups and names rise
/// strictly, or a set of names that rise strictly. What is read may be printed. It takes time linear in the bytes; a file
/// that was printed of a rule is read without a tree, and members of other names take no memory.
///
/// It refuses more than 67108864 bytes with `TooLarge`, and then all else with `BadPlan`. The first, and the second of bytes
/// that are not UTF-8, take no memory.
pub fn read_planned(alloc: Global, bytes: &[u8]) -> Result<Planned, PlanFileFault>
    ensures exact { GivesUnless PlanFileFault.WantOfMemory planned_view result (answer_of bytes.now) }
    ensures large { IsErrOf result PlanFileFault.TooLarge ↔ (max_plan < length bytes.now) }
    ensures no_text { length bytes.now ≤ max_plan → is_utf8 bytes.now ≡ false → IsErrOf result PlanFileFault.BadPlan }
    ensures whole { IfOk result (λ p. IsWhole (planned_view p)) }
{
    if let Some(planned) = plain_of(alloc, bytes)? {
        return Ok(planned);
    }
    let tree = read_named(alloc, bytes, FILE_BYTES, plan_members())?;
    planned_of(alloc, &tree)
}

/// The names of the members that are looked at.
fn plan_members() -> &'static [&'static str]
    ensures { map (λ n. n.now) result.now ≡ plan_members }
{
    PLAN_MEMBERS
}

fn planned_of(alloc: Global, tree: &Tree) -> Result<Planned, PlanFileFault>
    ensures { GivesUnless PlanFileFault.WantOfMemory planned_view result (if_plan (planned_of (view tree.now))) }
{
    match form_in(tree) {
        None => Err(PlanFileFault::BadPlan),
        Some(Form::Rule) => emit_in(alloc, tree),
        Some(Form::Set(kind)) => set_in(alloc, tree, kind),
    }
}

fn emit_in(alloc: Global, tree: &Tree) -> Result<Planned, PlanFileFault>
    ensures { GivesUnless PlanFileFault.WantOfMemory planned_view result (if_plan (emit_in (view tree.now))) }
{
    let alpha = alpha_in(alloc, tree)?;
    let beta = beta_in(alloc, tree)?;
    let cost = cost_in(tree).ok_or(PlanFileFault::BadPlan)?;
    let rule = rule_in(alloc, tree)?;
    Ok(Planned::Emit(rule, Certificate { alpha, beta, cost }))
}

fn set_in(alloc: Global, tree: &Tree, kind: CutKind) -> Result<Planned, PlanFileFault>
    ensures { GivesUnless PlanFileFault.WantOfMemory planned_view result (if_plan (set_in kind (view tree.now))) }
{
    if has_rule_member(tree) {
        return Err(PlanFileFault::BadPlan);
    }
    let names = names_in(alloc, tree)?;
    Ok(Planned::NoneExists(Cut { kind, names }))
}

/// The items of the list of this name.
pub(crate) fn items_in<'a>(tree: &'a Tree, name: &str) -> Option<&'a [Tree]>
    ensures { option_map (λ ts. items_view ts.now) result ≡ items_in name.now (view tree.now) }
{
    tree.member(name)?.as_list()
}

fn alpha_in(alloc: Global, tree: &Tree) -> Result<Vec<(String, u32, i64)>, PlanFileFault>
    ensures { GivesUnless PlanFileFault.WantOfMemory (λ v. alpha_view v.items) result (if_plan (alpha_in (view tree.now))) }
{
    let Some(items) = items_in(tree, "alpha") else {
        return Err(PlanFileFault::BadPlan);
    };
    let alpha = read_alpha(alloc, items)?;
    if alpha_rises(alpha.as_slice()) {
        Ok(alpha)
    } else {
        Err(PlanFileFault::BadPlan)
    }
}

fn beta_in(alloc: Global, tree: &Tree) -> Result<Vec<(String, i64)>, PlanFileFault>
    ensures { GivesUnless PlanFileFault.WantOfMemory (λ v. beta_view v.items) result (if_plan (beta_in (view tree.now))) }
{
    let Some(items) = items_in(tree, "beta") else {
        return Err(PlanFileFault::BadPlan);
    };
    let beta = read_beta(alloc, items)?;
    if beta_rises(beta.as_slice()) {
        Ok(beta)
    } else {
        Err(PlanFileFault::BadPlan)
    }
}

/// The cost, below 2^53.
pub(crate) fn cost_in(tree: &Tree) -> Option<u64>
    ensures { result ≡ cost_in (view tree.now) }
{
    match tree.member("cost") {
        Some(Tree::Whole(cost)) if 0 <= *cost && *cost < COSTS as i64 => Some(*cost as u64),
        _ => None,
    }
}

fn rule_in(alloc: Global, tree: &Tree) -> Result<Rule, PlanFileFault>
    ensures { GivesUnless PlanFileFault.WantOfMemory (λ r. r) result (if_plan (rule_in (view tree.now))) }
{
    let Some(items) = items_in(tree, "rule") else {
        return Err(PlanFileFault::BadPlan);
    };
    canonical_rule(alloc, read_entries(alloc, items)?)
}

/// The rule of entries that make one, in its one shape.
fn canonical_rule(alloc: Global, entries: Vec<(String, u64)>) -> Result<Rule, PlanFileFault>
    ensures { GivesUnless PlanFileFault.WantOfMemory (λ r. r) result (if_plan (canonical_rule (entries_view entries.items))) }
{
    match Rule::make(alloc, entries) {
        Ok(rule) => {
            if rule.is_canonical() {
                Ok(rule)
            } else {
                Err(PlanFileFault::BadPlan)
            }
        }
        Err(RuleFault::WantOfMemory) => Err(PlanFileFault::WantOfMemory),
        Err(_) => Err(PlanFileFault::BadPlan),
    }
}

fn names_in(alloc: Global, tree: &Tree) -> Result<Vec<String>, PlanFileFault>
    ensures { GivesUnless PlanFileFault.WantOfMemory (λ v. names_view v.items) result (if_plan (names_in (view tree.now))) }
{
    let Some(items) = items_in(tree, "none") else {
        return Err(PlanFileFault::BadPlan);
    };
    let names = read_names(alloc, items)?;
    if names_rise(names.as_slice()) {
        Ok(names)
    } else {
        Err(PlanFileFault::BadPlan)
    }
}
