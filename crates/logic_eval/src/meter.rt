//! The units that an evaluation may still cost, and what it has reached.
ghost use Rattle.std.specs.Prelude.{◌≡◌, codes, if◌then◌else◌, map, string_bytes};
ghost use Rattle.std.specs.Str.{bytes_eq};
ghost use Rattle.flag_text.specs.Shape.{object};
ghost use Rattle.flag_text.specs.View.{view, items_of, items_view, members_view};
ghost use Rattle.logic_eval.specs.Budget.{Follows};
ghost use Rattle.logic_eval.specs.Run.{spends};
ghost use Rattle.logic_eval.specs.Scope.{size, items_size, members_size, others_size};
ghost use Rattle.logic_values.specs.Objects.{with_flagd};
ghost use Rattle.logic_eval.specs.Views.{progress, place_view, scope_view};
ghost use Rattle.logic_values.specs.Views.{value_view};

use crate::find::Place;
use crate::hashed::HashInput;
use crate::scope::Scope;
use flag_text::Tree;
use logic_values::{EvalFault, Root, Value};
use std::alloc::Global;
use std::sync::Arc;

/// A site that an evaluation reached.
#[derive(Debug, Drop)]
pub struct Reached {
    /// The number of the site, in preorder from 0.
    pub site: u32,
    /// The hash input: the sites that the default one reaches share it.
    pub input: Arc<String>,
    /// The total weight of the site's rule.
    pub total: u32,
}

/// The state of an evaluation.
#[derive(Drop)]
pub(crate) struct Meter {
    /// The allocator of what is made.
    pub(crate) alloc: Global,
    /// The units that it may still cost.
    pub(crate) left: u64,
    /// The sites that it reached so far, in their order.
    pub(crate) reached: Vec<Reached>,
    /// The default hash input, once a site was reached by it.
    pub(crate) default: Option<HashInput>,
}

impl Meter {
    /// Takes so many units from what is left.
    pub(crate) fn pay(&mut self, units: u64) -> Result<(), EvalFault>
        ensures exact { Follows (λ u. u) (progress self.old) (progress self.new) result (spends units) }
    {
        if units > self.left {
            return Err(EvalFault::TooLong);
        }
        self.left -= units;
        Ok(())
    }
}

/// Takes the size of a value from what is left: 1, 1 more for each 64 bytes of a text, and the sizes of the parts.
#[cycle(pay)]
pub(crate) fn pay_for(meter: &mut Meter, tree: &Tree) -> Result<(), EvalFault>
    ensures exact { Follows (λ u. u) (progress meter.old) (progress meter.new) result (spends (size (view tree.now))) }
{
    match tree {
        Tree::Text(text) => meter.pay(1 + text.len() as u64 / 64),
        Tree::List(items) => {
            meter.pay(1)?;
            pay_for_items(meter, items)
        }
        Tree::Object(members) => {
            meter.pay(1)?;
            pay_for_members(meter, members)
        }
        _ => meter.pay(1),
    }
}

#[cycle(pay)]
fn pay_for_items(meter: &mut Meter, items: &Vec<Tree>) -> Result<(), EvalFault>
    ensures exact { Follows (λ u. u) (progress meter.old) (progress meter.new) result (spends (items_size (items_view items.now.items))) }
{
    for item in items {
        pay_for(meter, item)?;
    }
    Ok(())
}

#[cycle(pay)]
fn pay_for_members(meter: &mut Meter, members: &Vec<(String, Tree)>) -> Result<(), EvalFault>
    ensures exact { Follows (λ u. u) (progress meter.old) (progress meter.new) result (spends (members_size (members_view members.now.items))) }
{
    for (_, member) in members {
        pay_for(meter, member)?;
    }
    Ok(())
}

/// Takes the size of a value from what is left, wherever it stands.
#[cycle(pay_for_value)]
pub(crate) fn pay_for_value(meter: &mut Meter, value: &Value) -> Result<(), EvalFault>
    ensures exact { Follows (λ u. u) (progress meter.old) (progress meter.new) result (spends (size (value_view value.now))) }
{
    match value {
        Value::Lent(tree) => pay_for(meter, tree),
        Value::Given(part) => pay_for(meter, part.tree),
        Value::Name(name) => meter.pay(1 + name.len() as u64 / 64),
        Value::Text(text) => meter.pay(1 + text.len() as u64 / 64),
        Value::Items(items) => {
            meter.pay(1)?;
            pay_for_values(meter, items)
        }
        Value::Context(root) => pay_for_root(meter, *root),
        Value::Fold(so_far, current) => {
            meter.pay(1)?;
            pay_for_value(meter, so_far)?;
            pay_for_value(meter, current)
        }
        Value::Null | Value::Bool(_) | Value::Whole(_) => meter.pay(1),
    }
}

#[cycle(pay_for_value)]
fn pay_for_values(meter: &mut Meter, values: &Vec<Value>) -> Result<(), EvalFault>
    ensures exact { Follows (λ u. u) (progress meter.old) (progress meter.new) result (spends (items_size (items_of (map value_view values.now.items)))) }
{
    for value in values {
        pay_for_value(meter, value)?;
    }
    Ok(())
}

/// Takes the size of the value at a place from what is left.
pub(crate) fn pay_for_place(meter: &mut Meter, place: Place) -> Result<(), EvalFault>
    ensures exact { Follows (λ u. u) (progress meter.old) (progress meter.new) result (spends (size (place_view place.entry))) }
{
    match place {
        Place::Lent(tree) => pay_for(meter, tree),
        Place::Given(part) => pay_for(meter, part.tree),
        Place::Held(value) => pay_for_value(meter, value),
    }
}

/// Takes the size of a scope, as a value, from what is left.
pub(crate) fn pay_for_scope(meter: &mut Meter, scope: Scope) -> Result<(), EvalFault>
    ensures exact { Follows (λ u. u) (progress meter.old) (progress meter.new) result (spends (size (scope_view scope.entry))) }
{
    match scope {
        Scope::Root(root) => pay_for_root(meter, root),
        Scope::Item(value) => pay_for_value(meter, value),
        Scope::Fold(so_far, current) => {
            meter.pay(1)?;
            pay_for_value(meter, so_far)?;
            pay_for_value(meter, current)
        }
    }
}

fn pay_for_root(meter: &mut Meter, root: Root) -> Result<(), EvalFault>
    ensures exact { Follows (λ u. u) (progress meter.old) (progress meter.new) result (spends (size (with_flagd (view root.entry.flagd.now) (object (members_view root.entry.members.now))))) }
{
    meter.pay(1)?;
    pay_for(meter, root.flagd)?;
    pay_for_others(meter, root.members)
}

// The context's member `$flagd` is no part of the scope.
fn pay_for_others(meter: &mut Meter, members: &[(String, Tree)]) -> Result<(), EvalFault>
    ensures exact { Follows (λ u. u) (progress meter.old) (progress meter.new) result (spends (others_size (codes "$flagd") (members_view members.now))) }
{
    for (key, member) in members {
        pay_for_other(meter, key, member)?;
    }
    Ok(())
}

fn pay_for_other(meter: &mut Meter, name: &String, member: &Tree) -> Result<(), EvalFault>
    ensures exact { Follows (λ u. u) (progress meter.old) (progress meter.new) result (spends (if bytes_eq (string_bytes name.now) (codes "$flagd") then 0 else size (view member.now))) }
{
    if name.as_str() == "$flagd" {
        return Ok(());
    }
    pay_for(meter, member)
}
