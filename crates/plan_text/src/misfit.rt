//! What keeps a tree from being a plan, and where.
ghost use Rattle.std.specs.Prelude.{◌≡◌, ◌<◌, ◌^◌, is_some, option_map, option_copied};
ghost use Rattle.std.specs.Cmp.Lexicographic.{slice_cmp};
ghost use Rattle.std.specs.Ordering.{nat_cmp};
ghost use Rattle.flag_text.specs.Readers.{as_object, as_text, as_whole};
ghost use Rattle.flag_text.specs.View.{view, items_view};
ghost use Rattle.transport_core.specs.Groups.{group_cmp};
ghost use Rattle.plan_text.specs.Misfit.{lent, list_name, is_list_of, is_group_row, is_bucket, is_formed, is_read, is_in_order, is_free, group_of, row_name, next, precedes, stands_apart, first_failing, faulty_in, weight_or_none, weights_of, total_fault, total_fault_in, unless, has_list, has_number, member_fault_of_rule, member_fault_of, shape_fault_of, rule_fault_of, content_fault_of, misfit_of};
ghost use Rattle.plan_text.specs.PlanFile.{entry_of};

use crate::form::{Form, form_in, has, has_rule_member};
use crate::order::is_group_before;
use crate::read::{cost_in, items_in};
use crate::rows::{alpha_of, beta_of, entry_of};
use bucket_core::MAX_TOTAL;
use flag_text::Tree;

/// A list of a plan file.
#[derive(Clone, Copy, Debug, PartialEq, Eq)]
pub enum PlanList {
    Names,
    Alpha,
    Beta,
    Buckets,
}

impl PlanList {
    /// The name of the member that it is.
    pub fn name(self) -> &'static str
        ensures { result.now ≡ list_name self }
    {
        match self {
            PlanList::Names => "none",
            PlanList::Alpha => "alpha",
            PlanList::Beta => "beta",
            PlanList::Buckets => "rule",
        }
    }
}

/// What is wrong with an item of a list.
#[derive(Clone, Copy, Debug, PartialEq, Eq)]
pub enum ItemFault {
    /// It is not of its form: a name in `none`, `[name, number, number]` in `alpha`, `[name, number]` in `beta`, and
    /// `[name, number]` or `[name]` in `rule`.
    Misshapen,
    /// The count of a group is not from 0 to 4294967295, or a weight is missing or not from 0 to 2147483647.
    OutOfRange,
    /// It does not come before the next item; in `rule`, its weight is 0 or the next has the same name.
    OutOfOrder,
}

/// What keeps a tree from being a plan. Places are counted from 0.
#[derive(Clone, Copy, Debug, PartialEq, Eq)]
pub enum Misfit {
    /// It is no object.
    NoObject,
    /// The member `plan` is no whole number.
    Plan,
    /// The member of this name is no list.
    NoList(PlanList),
    /// The member `cost` is no whole number.
    Cost,
    /// The item of this list at this place has this fault.
    Item(ItemFault, PlanList, usize),
    /// The member `plan` is neither 1 nor, beside `"side":"under"`, 2.
    UnknownForm,
    /// A member of a rule stands beside a set of names.
    RuleMember,
    /// The cost is not from 0 to 9007199254740991.
    CostRange,
    /// The sum of the weights is 0.
    NoWeight,
    /// The sum of the weights is above 2147483647.
    TooHeavy,
}

impl Misfit {
    /// The first misfit of a tree: a member that is missing or of another kind, or else an item that is not of its form, or
    /// else what the numbers and the order of its items break. There is none exactly where the tree is a plan. It takes time
    /// linear in the items, and no memory.
    pub fn of(tree: &Tree) -> Option<Misfit>
        ensures exact { result ≡ misfit_of (view tree.now) }
    {
        member_fault(tree)
            .or(shape_fault(tree))
            .or(content_fault(tree, form_in(tree)))
    }
}

/// The first member that is missing or of another kind.
fn member_fault(tree: &Tree) -> Option<Misfit>
    ensures { result ≡ member_fault_of (view tree.now) }
{
    let members = if has(tree, "none") {
        unlisted(tree, PlanList::Names)
    } else {
        member_fault_of_rule(tree)
    };
    unless(is_object(tree), Misfit::NoObject)
        .or(unless(has_number(tree, "plan"), Misfit::Plan))
        .or(members)
}

fn member_fault_of_rule(tree: &Tree) -> Option<Misfit>
    ensures { result ≡ member_fault_of_rule (view tree.now) }
{
    unlisted(tree, PlanList::Alpha)
        .or(unlisted(tree, PlanList::Beta))
        .or(unless(has_number(tree, "cost"), Misfit::Cost))
        .or(unlisted(tree, PlanList::Buckets))
}

/// The first item that is not of its form.
fn shape_fault(tree: &Tree) -> Option<Misfit>
    ensures { result ≡ shape_fault_of (view tree.now) }
{
    faulty_in(tree, PlanList::Names, ItemFault::Misshapen)
        .or(faulty_in(tree, PlanList::Alpha, ItemFault::Misshapen))
        .or(faulty_in(tree, PlanList::Beta, ItemFault::Misshapen))
        .or(faulty_in(tree, PlanList::Buckets, ItemFault::Misshapen))
}

/// What else keeps a tree from being what it says that it holds.
fn content_fault(tree: &Tree, form: Option<Form>) -> Option<Misfit>
    ensures { result ≡ content_fault_of (view tree.now) form }
{
    match form {
        None => Some(Misfit::UnknownForm),
        Some(Form::Rule) => rule_fault(tree),
        Some(Form::Set(_)) => {
            if has_rule_member(tree) {
                Some(Misfit::RuleMember)
            } else {
                faulty_in(tree, PlanList::Names, ItemFault::OutOfOrder)
            }
        }
    }
}

/// What else keeps a tree from being a rule with its certificate.
fn rule_fault(tree: &Tree) -> Option<Misfit>
    ensures { result ≡ rule_fault_of (view tree.now) }
{
    faulty_in(tree, PlanList::Alpha, ItemFault::OutOfRange)
        .or(faulty_in(tree, PlanList::Alpha, ItemFault::OutOfOrder))
        .or(faulty_in(tree, PlanList::Beta, ItemFault::OutOfOrder))
        .or(unless(cost_in(tree).is_some(), Misfit::CostRange))
        .or(faulty_in(tree, PlanList::Buckets, ItemFault::OutOfRange))
        .or(total_fault_in(tree))
        .or(faulty_in(tree, PlanList::Buckets, ItemFault::OutOfOrder))
}

fn unless(is_so: bool, misfit: Misfit) -> Option<Misfit>
    ensures { result ≡ unless is_so misfit }
{
    if is_so { None } else { Some(misfit) }
}

fn unlisted(tree: &Tree, list: PlanList) -> Option<Misfit>
    ensures { result ≡ unless (has_list list (view tree.now)) (Misfit.NoList list) }
{
    unless(has_list(tree, list), Misfit::NoList(list))
}

fn is_object(tree: &Tree) -> bool
    ensures { result ≡ is_some (as_object (view tree.now)) }
{
    tree.as_object().is_some()
}

fn has_list(tree: &Tree, list: PlanList) -> bool
    ensures { result ≡ has_list list (view tree.now) }
{
    items_in(tree, list.name()).is_some()
}

fn has_number(tree: &Tree, name: &str) -> bool
    ensures { result ≡ has_number name.now (view tree.now) }
{
    match tree.member(name) {
        Some(value) => value.as_whole().is_some(),
        None => false,
    }
}

/// The first item of a list that has this fault.
fn faulty_in(tree: &Tree, list: PlanList, fault: ItemFault) -> Option<Misfit>
    ensures { result ≡ faulty_in fault list (view tree.now) }
{
    let items = items_in(tree, list.name())?;
    Some(Misfit::Item(fault, list, first_faulty(items, list, fault)?))
}

fn first_faulty(items: &[Tree], list: PlanList, fault: ItemFault) -> Option<usize>
    ensures { result ≡ first_failing (is_free fault list) 0 (items_view items.now) }
{
    let mut place = 0usize;
    let mut rest = items;
    while let [item, others @ ..] = rest {
        if !is_free(item, others, list, fault) {
            return Some(place);
        }
        rest = others;
        place += 1;
    }
    None
}

/// Whether an item, before the rest of its list, does not have this fault.
fn is_free(item: &Tree, rest: &[Tree], list: PlanList, fault: ItemFault) -> bool
    ensures { result ≡ is_free fault list (view item.now) (items_view rest.now) }
{
    match fault {
        ItemFault::Misshapen => is_formed(item, list),
        ItemFault::OutOfRange => is_read(item, list),
        ItemFault::OutOfOrder => is_in_order(item, rest, list),
    }
}

fn is_formed(item: &Tree, list: PlanList) -> bool
    ensures { result ≡ is_formed list (view item.now) }
{
    match list {
        PlanList::Names => item.as_text().is_some(),
        PlanList::Alpha => is_list_of_group(item),
        PlanList::Beta => beta_of(item).is_some(),
        PlanList::Buckets => is_list_of_bucket(item),
    }
}

fn is_list_of_group(item: &Tree) -> bool
    ensures { result ≡ is_list_of is_group_row (view item.now) }
{
    match item {
        Tree::List(parts) => is_group_row(parts.as_slice()),
        _ => false,
    }
}

fn is_group_row(parts: &[Tree]) -> bool
    ensures { result ≡ is_group_row (items_view parts.now) }
{
    match parts {
        [] => false,
        [_] => false,
        [_, _] => false,
        [name, count, n] => is_text(name) && is_number(count) && is_number(n),
        [_, _, _, _, ..] => false,
    }
}

fn is_list_of_bucket(item: &Tree) -> bool
    ensures { result ≡ is_list_of is_bucket (view item.now) }
{
    match item {
        Tree::List(parts) => is_bucket(parts.as_slice()),
        _ => false,
    }
}

fn is_bucket(parts: &[Tree]) -> bool
    ensures { result ≡ is_bucket (items_view parts.now) }
{
    match parts {
        [] => false,
        [name] => is_text(name),
        [name, weight] => is_text(name) && is_number(weight),
        [_, _, _, ..] => false,
    }
}

fn is_text(tree: &Tree) -> bool
    ensures { result ≡ is_some (as_text (view tree.now)) }
{
    tree.as_text().is_some()
}

fn is_number(tree: &Tree) -> bool
    ensures { result ≡ is_some (as_whole (view tree.now)) }
{
    tree.as_whole().is_some()
}

/// Whether an item has its numbers.
fn is_read(item: &Tree, list: PlanList) -> bool
    ensures { result ≡ is_read list (view item.now) }
{
    match list {
        PlanList::Names => item.as_text().is_some(),
        PlanList::Alpha => alpha_of(item).is_some(),
        PlanList::Beta => beta_of(item).is_some(),
        PlanList::Buckets => entry_of(item).is_some(),
    }
}

/// Whether an item stands well before the rest of its list.
fn is_in_order(item: &Tree, rest: &[Tree], list: PlanList) -> bool
    ensures { result ≡ is_in_order list (view item.now) (items_view rest.now) }
{
    match rest {
        [] => match list {
            PlanList::Buckets => stands_apart(entry_of(item), None),
            PlanList::Names | PlanList::Alpha | PlanList::Beta => true,
        },
        [next, ..] => match list {
            PlanList::Names => name_precedes(item.as_text(), next.as_text()),
            PlanList::Alpha => group_precedes(group_of(item), group_of(next)),
            PlanList::Beta => name_precedes(row_name(item), row_name(next)),
            PlanList::Buckets => stands_apart(entry_of(item), entry_of(next)),
        },
    }
}

fn group_of(item: &Tree) -> Option<(&str, u32)>
    ensures { option_map lent result ≡ group_of (view item.now) }
{
    let (name, count, _) = alpha_of(item)?;
    Some((name, count))
}

fn row_name(item: &Tree) -> Option<&str>
    ensures { option_copied result ≡ row_name (view item.now) }
{
    let (name, _) = beta_of(item)?;
    Some(name)
}

fn name_precedes(name: Option<&str>, next: Option<&str>) -> bool
    ensures { result ≡ precedes (slice_cmp nat_cmp) (option_copied name.entry) (option_copied next.entry) }
{
    match name {
        None => true,
        Some(name) => match next {
            None => true,
            Some(next) => name < next,
        },
    }
}

fn group_precedes(group: Option<(&str, u32)>, next: Option<(&str, u32)>) -> bool
    ensures { result ≡ precedes group_cmp (option_map lent group.entry) (option_map lent next.entry) }
{
    match group {
        None => true,
        Some((name, count)) => match next {
            None => true,
            Some((other, number)) => is_group_before(name, count, other, number),
        },
    }
}

/// Whether an entry has a weight above 0, and the next, if there is one, another name.
fn stands_apart(entry: Option<(&str, u64)>, next: Option<(&str, u64)>) -> bool
    ensures { result ≡ stands_apart (option_map lent entry.entry) (option_map lent next.entry) }
{
    match entry {
        None => true,
        Some((name, weight)) => match next {
            None => weight > 0,
            Some((other, _)) => weight > 0 && other != name,
        },
    }
}

fn total_fault_in(tree: &Tree) -> Option<Misfit>
    ensures { result ≡ total_fault_in (view tree.now) }
{
    total_fault(items_in(tree, "rule")?)
}

/// What keeps the sum of the weights from being that of a rule.
fn total_fault(items: &[Tree]) -> Option<Misfit>
    ensures { result ≡ total_fault (weights_of (items_view items.now)) }
{
    let mut total = 0u64;
    for item in items {
        total += weight_or_none(item);
        if total > u64::from(MAX_TOTAL) {
            return Some(Misfit::TooHeavy);
        }
    }
    unless(total > 0, Misfit::NoWeight)
}

fn weight_or_none(item: &Tree) -> u64
    ensures value { result ≡ weight_or_none (entry_of (view item.now)) }
    ensures small { result < 2 ^ 31 }
{
    match entry_of(item) {
        Some((_, weight)) => weight,
        None => 0,
    }
}
