//! The walk over an expression, node by node.
ghost use Rattle.std.specs.Prelude.{◌≡◌, ◌||◌, not, IfOk, map, drop};
ghost use Rattle.logic_ast.specs.Sites.{preorder, preorder_in, preorder_in_by, preorder_in_buckets};
ghost use Rattle.logic_ast.specs.View.{node_view, nodes_view, boxed_view, buckets_view};
ghost use Rattle.logic_eval.specs.Evaluated.{Evaluates, by_meaning_of, bucket_meanings_of, conditional_meanings_of, meaning_of, meanings_of, operand_of, operands_of, tested_meaning_of, tested_meanings_of, tested_operation, truth_meanings_of};
ghost use Rattle.logic_eval.specs.Evaluation.{input, pairs, part_of};
ghost use Rattle.logic_eval.specs.Literal.{AreSummed};
ghost use Rattle.logic_eval.specs.Operators.{values, asked, compares, operated, conditional, first_of_truth, strict, over, over_items, over_from_start, start, mapped, kept, occurs, reduced};
ghost use Rattle.logic_values.specs.Views.{value_view};
ghost use Rattle.logic_eval.specs.Views.{scope_view, default_view, input_view, weighted_variant_view};

use crate::apply::apply;
use crate::choice::decide;
use crate::fractional::{Input, WeightedVariant};
use crate::literal::decide_literal;
use crate::meter::{Meter, pay_for};
use crate::scope::{Scope, Subject, ends_at};
use crate::variable::{variable, variable_or_decimal};
use logic_ast::{Bucket, Node, Operator};
use logic_values::truth::is_true;
use logic_values::{EvalFault, Value, copy, items_of};
use smallvec::SmallVec;
use std::alloc::{AllocError, Global};

/// The value of a node in a scope, paid from what the meter has left: what is reached is added to what was reached before.
///
/// `eval` starts it at the root of an expression, in the root scope and with the whole budget. The subject has the cumulative
/// weights of the node's sites: of the functions below it is the same.
#[cycle(evaluate)]
#[tactic(auto, using(crate::proofs::Within::in_list, crate::proofs::Within::in_operation, crate::proofs::Within::in_by, crate::proofs::Within::in_buckets, crate::proofs::Within::own_ends))]
pub(crate) fn evaluate_node<'s, 'a>(
    meter: &mut Meter,
    node: &'a Node,
    scope: Scope<'s, 'a>,
    subject: Subject<'a>,
) -> Result<Value<'a>, EvalFault>
    requires { AreSummed subject (preorder (node_view node.now)) }
    ensures exact { Evaluates value_view meter.old meter.new result (meaning_of subject.entry node.now (scope_view scope.entry)) }
{
    match node {
        Node::Literal(tree) => {
            pay_for(meter, tree)?;
            Ok(Value::Lent(tree))
        }
        Node::List(items) => {
            meter.pay(1)?;
            let values = evaluate_all(meter, items, false, scope, subject)?;
            Ok(Value::Items(listed(meter.alloc, values)?))
        }
        Node::Operation(operator, arguments) => {
            meter.pay(1)?;
            operate(meter, arguments, *operator, scope, subject)
        }
        Node::Fractional { site, by, buckets } => {
            meter.pay(1)?;
            let input = input(meter, by, scope, subject)?;
            let ends = ends_at(subject, *site);
            if !ends.is_empty() {
                return decide_literal(meter, *site, input, buckets, ends, subject);
            }
            let shares = shares(meter, buckets, scope, subject)?;
            decide(meter, *site, input, shares.as_slice(), subject)
        }
    }
}

// The value of a node that is compared or tested: `var`, `and` and `or` may give a decimal there.
#[cycle(evaluate)]
#[tactic(auto, using(crate::proofs::Within::in_operation))]
fn evaluate_operand<'s, 'a>(
    meter: &mut Meter,
    node: &'a Node,
    scope: Scope<'s, 'a>,
    subject: Subject<'a>,
) -> Result<Value<'a>, EvalFault>
    requires { AreSummed subject (preorder (node_view node.now)) }
    ensures exact { Evaluates value_view meter.old meter.new result (operand_of subject.entry node.now (scope_view scope.entry)) }
{
    match node {
        Node::Operation(operator, arguments) => {
            meter.pay(1)?;
            operate_tested(meter, arguments, *operator, scope, subject)
        }
        _ => evaluate_node(meter, node, scope, subject),
    }
}

// An operator on its arguments, whose value is compared or tested.
#[cycle(evaluate)]
fn operate_tested<'s, 'a>(
    meter: &mut Meter,
    arguments: &'a Vec<Node>,
    operator: Operator,
    scope: Scope<'s, 'a>,
    subject: Subject<'a>,
) -> Result<Value<'a>, EvalFault>
    requires { AreSummed subject (preorder_in (nodes_view arguments.now.items)) }
    ensures exact { Evaluates value_view meter.old meter.new result (tested_operation operator (default_view subject.entry) (nodes_view arguments.now.items) (scope_view scope.entry)) }
{
    match operator {
        Operator::Var => {
            let values = evaluate_all(meter, arguments, false, scope, subject)?;
            variable_or_decimal(meter, scope, values)
        }
        Operator::And => first_of_truth(meter, arguments, false, true, scope, subject),
        Operator::Or => first_of_truth(meter, arguments, true, true, scope, subject),
        _ => operate(meter, arguments, operator, scope, subject),
    }
}

/// The value of a node that is compared or tested, or of one that is not.
#[cycle(evaluate)]
pub(crate) fn evaluate_operand_if<'s, 'a>(
    meter: &mut Meter,
    node: &'a Node,
    tested: bool,
    scope: Scope<'s, 'a>,
    subject: Subject<'a>,
) -> Result<Value<'a>, EvalFault>
    requires { AreSummed subject (preorder (node_view node.now)) }
    ensures exact { Evaluates value_view meter.old meter.new result (tested_meaning_of tested subject.entry node.now (scope_view scope.entry)) }
{
    if tested {
        evaluate_operand(meter, node, scope, subject)
    } else {
        evaluate_node(meter, node, scope, subject)
    }
}

// The values of all, from the left: where they are compared or tested, or where they are not.
#[cycle(evaluate)]
#[tactic(auto, using(crate::proofs::Within::in_nodes))]
fn evaluate_all<'s, 'a>(
    meter: &mut Meter,
    nodes: &'a Vec<Node>,
    tested: bool,
    scope: Scope<'s, 'a>,
    subject: Subject<'a>,
) -> Result<SmallVec<Value<'a>, 3>, EvalFault>
    requires { AreSummed subject (preorder_in (nodes_view nodes.now.items)) }
    ensures exact { Evaluates (λ vs. map value_view vs.items) meter.old meter.new result (values (tested_meanings_of tested subject.entry nodes.now.items) (scope_view scope.entry)) }
{
    let mut values = SmallVec::new(meter.alloc);
    for node in nodes {
        let value = evaluate_operand_if(meter, node, tested, scope, subject)?;
        values.push(value)?;
    }
    Ok(values)
}

// The values as a list.
fn listed<'a>(alloc: Global, values: SmallVec<Value<'a>, 3>) -> Result<Vec<Value<'a>>, AllocError>
    ensures { IfOk result (λ v. map value_view v.items ≡ map value_view values.entry.items) }
{
    let mut items = Vec::with_capacity(alloc, values.len())?;
    for value in values {
        items.push(value)?;
    }
    Ok(items)
}

// An operator on its arguments.
#[cycle(evaluate)]
fn operate<'s, 'a>(
    meter: &mut Meter,
    arguments: &'a Vec<Node>,
    operator: Operator,
    scope: Scope<'s, 'a>,
    subject: Subject<'a>,
) -> Result<Value<'a>, EvalFault>
    requires { AreSummed subject (preorder_in (nodes_view arguments.now.items)) }
    ensures exact { Evaluates value_view meter.old meter.new result (operated operator (asked operator (meanings_of subject.entry arguments.now.items) (operands_of subject.entry arguments.now.items)) (scope_view scope.entry)) }
{
    match operator {
        Operator::If => conditional(meter, arguments, scope, subject),
        Operator::And => first_of_truth(meter, arguments, false, false, scope, subject),
        Operator::Or => first_of_truth(meter, arguments, true, false, scope, subject),
        Operator::Map => over(meter, arguments, Operator::Map, scope, subject),
        Operator::Filter => over(meter, arguments, Operator::Filter, scope, subject),
        Operator::AllOf => over(meter, arguments, Operator::AllOf, scope, subject),
        Operator::SomeOf => over(meter, arguments, Operator::SomeOf, scope, subject),
        Operator::NoneOf => over(meter, arguments, Operator::NoneOf, scope, subject),
        Operator::Reduce => reduce(meter, arguments, scope, subject),
        Operator::Var => {
            let values = evaluate_all(meter, arguments, false, scope, subject)?;
            variable(meter, scope, values)
        }
        _ => {
            let tested = compares(operator);
            let values = evaluate_all(meter, arguments, tested, scope, subject)?;
            apply(meter.alloc, operator, scope, values)
        }
    }
}

/// Whether the operator compares or tests all its arguments.
pub fn compares(operator: Operator) -> bool
    ensures { result ≡ compares operator }
{
    matches!(
        operator,
        Operator::Less
            | Operator::LessOrEqual
            | Operator::Greater
            | Operator::GreaterOrEqual
            | Operator::Equal
            | Operator::NotEqual
            | Operator::StrictEqual
            | Operator::StrictNotEqual
            | Operator::Not
            | Operator::Truth
    )
}

// `if`: pairs of a test and a result, and a last result.
#[cycle(evaluate)]
#[tactic(auto, using(crate::proofs::Within::in_nodes))]
fn conditional<'s, 'a>(
    meter: &mut Meter,
    nodes: &'a Vec<Node>,
    scope: Scope<'s, 'a>,
    subject: Subject<'a>,
) -> Result<Value<'a>, EvalFault>
    requires { AreSummed subject (preorder_in (nodes_view nodes.now.items)) }
    ensures exact { Evaluates value_view meter.old meter.new result (conditional (conditional_meanings_of subject.entry nodes.now.items) (scope_view scope.entry)) }
{
    let pairs = nodes.len() / 2;
    for pair in 0..pairs {
        let value = evaluate_operand(meter, &nodes[2 * pair], scope, subject)?;
        if is_true(value.seen()) {
            return evaluate_node(meter, &nodes[2 * pair + 1], scope, subject);
        }
    }
    if nodes.len() % 2 == 1 {
        return evaluate_node(meter, &nodes[2 * pairs], scope, subject);
    }
    Ok(Value::Null)
}

// `and` looks for a value that counts as false, `or` for one that counts as true: the first, else the last. Where that is compared or tested
// itself, each argument may be a decimal; else only what `and` tests, since that counts as true and so is not its value.
#[cycle(evaluate)]
#[tactic(auto, using(crate::proofs::Within::in_nodes))]
fn first_of_truth<'s, 'a>(
    meter: &mut Meter,
    nodes: &'a Vec<Node>,
    wanted: bool,
    tested: bool,
    scope: Scope<'s, 'a>,
    subject: Subject<'a>,
) -> Result<Value<'a>, EvalFault>
    requires { AreSummed subject (preorder_in (nodes_view nodes.now.items)) }
    ensures exact { Evaluates value_view meter.old meter.new result (first_of_truth wanted (truth_meanings_of wanted tested subject.entry nodes.now.items) (scope_view scope.entry)) }
{
    if nodes.is_empty() {
        return Ok(Value::Null);
    }
    let last = nodes.len() - 1;
    let early = tests_early(wanted, tested);
    for place in 0..last {
        let value = evaluate_operand_if(meter, &nodes[place], early, scope, subject)?;
        if is_true(value.seen()) == wanted {
            return Ok(value);
        }
    }
    evaluate_operand_if(meter, &nodes[last], tested, scope, subject)
}

// Whether `and` or `or` may have a decimal before its last argument.
fn tests_early(wanted: bool, tested: bool) -> bool
    ensures { result ≡ (tested || not wanted) }
{
    tested || !wanted
}

// An operator that runs its second argument over the items of the first.
#[cycle(evaluate)]
#[tactic(auto, using(crate::proofs::Within::in_nodes))]
fn over<'s, 'a>(
    meter: &mut Meter,
    arguments: &'a Vec<Node>,
    operator: Operator,
    scope: Scope<'s, 'a>,
    subject: Subject<'a>,
) -> Result<Value<'a>, EvalFault>
    requires { AreSummed subject (preorder_in (nodes_view arguments.now.items)) }
    ensures exact { Evaluates value_view meter.old meter.new result (over operator (meanings_of subject.entry arguments.now.items) (scope_view scope.entry)) }
{
    if arguments.len() < 2 {
        return Ok(Value::Null);
    }
    let list = evaluate_node(meter, &arguments[0], scope, subject)?;
    let items = items_of(meter.alloc, list)?;
    over_items(meter, &arguments[1], operator, items.as_slice(), subject)
}

#[cycle(evaluate)]
fn over_items<'s, 'a>(
    meter: &mut Meter,
    body: &'a Node,
    operator: Operator,
    items: &'s [Value<'a>],
    subject: Subject<'a>,
) -> Result<Value<'a>, EvalFault>
    requires { AreSummed subject (preorder (node_view body.now)) }
    ensures exact { Evaluates value_view meter.old meter.new result (over_items operator (meaning_of subject.entry body.now) (map value_view items.now)) }
{
    match operator {
        Operator::Map => Ok(Value::Items(mapped(meter, body, items, subject)?)),
        Operator::Filter => Ok(Value::Items(kept(meter, body, items, subject)?)),
        Operator::AllOf => {
            if items.is_empty() {
                return Ok(Value::Bool(false));
            }
            Ok(Value::Bool(!occurs(meter, body, false, items, subject)?))
        }
        Operator::SomeOf => Ok(Value::Bool(occurs(meter, body, true, items, subject)?)),
        Operator::NoneOf => Ok(Value::Bool(!occurs(meter, body, true, items, subject)?)),
        _ => Ok(Value::Null),
    }
}

// `map`: the body's value at each item.
#[cycle(evaluate)]
fn mapped<'s, 'a>(
    meter: &mut Meter,
    body: &'a Node,
    items: &'s [Value<'a>],
    subject: Subject<'a>,
) -> Result<Vec<Value<'a>>, EvalFault>
    requires { AreSummed subject (preorder (node_view body.now)) }
    ensures exact { Evaluates (λ v. map value_view v.items) meter.old meter.new result (mapped (meaning_of subject.entry body.now) (map value_view items.now)) }
{
    let mut values = Vec::new(meter.alloc);
    for item in items {
        let value = evaluate_node(meter, body, Scope::Item(item), subject)?;
        values.push(value)?;
    }
    Ok(values)
}

// `filter`: the items at which the body counts as true.
#[cycle(evaluate)]
fn kept<'s, 'a>(
    meter: &mut Meter,
    body: &'a Node,
    items: &'s [Value<'a>],
    subject: Subject<'a>,
) -> Result<Vec<Value<'a>>, EvalFault>
    requires { AreSummed subject (preorder (node_view body.now)) }
    ensures exact { Evaluates (λ v. map value_view v.items) meter.old meter.new result (kept (meaning_of subject.entry body.now) (map value_view items.now)) }
{
    let mut values = Vec::new(meter.alloc);
    for item in items {
        let value = evaluate_node(meter, body, Scope::Item(item), subject)?;
        if is_true(value.seen()) {
            values.push(copy(meter.alloc, item)?)?;
        }
    }
    Ok(values)
}

// Whether the body counts as true (false) at some item: it stops at the first.
#[cycle(evaluate)]
fn occurs<'s, 'a>(
    meter: &mut Meter,
    body: &'a Node,
    wanted: bool,
    items: &'s [Value<'a>],
    subject: Subject<'a>,
) -> Result<bool, EvalFault>
    requires { AreSummed subject (preorder (node_view body.now)) }
    ensures exact { Evaluates (λ b. b) meter.old meter.new result (occurs wanted (meaning_of subject.entry body.now) (map value_view items.now)) }
{
    for item in items {
        let value = evaluate_node(meter, body, Scope::Item(item), subject)?;
        if is_true(value.seen()) == wanted {
            return Ok(true);
        }
    }
    Ok(false)
}

// `reduce`: the list, then the start value, then the body from item to item.
#[cycle(evaluate)]
#[tactic(auto, using(crate::proofs::Within::in_nodes))]
fn reduce<'s, 'a>(
    meter: &mut Meter,
    arguments: &'a Vec<Node>,
    scope: Scope<'s, 'a>,
    subject: Subject<'a>,
) -> Result<Value<'a>, EvalFault>
    requires { AreSummed subject (preorder_in (nodes_view arguments.now.items)) }
    ensures exact { Evaluates value_view meter.old meter.new result (over_from_start (meanings_of subject.entry arguments.now.items) (scope_view scope.entry)) }
{
    if arguments.len() < 2 {
        return Ok(Value::Null);
    }
    let list = evaluate_node(meter, &arguments[0], scope, subject)?;
    let start = start(meter, arguments, scope, subject)?;
    let items = items_of(meter.alloc, list)?;
    reduced(meter, &arguments[1], start, items.as_slice(), subject)
}

// The start value of `reduce`, null where it is absent.
#[cycle(evaluate)]
#[tactic(auto, using(crate::proofs::Within::in_nodes))]
fn start<'s, 'a>(
    meter: &mut Meter,
    arguments: &'a Vec<Node>,
    scope: Scope<'s, 'a>,
    subject: Subject<'a>,
) -> Result<Value<'a>, EvalFault>
    requires { AreSummed subject (preorder_in (nodes_view arguments.now.items)) }
    ensures exact { Evaluates value_view meter.old meter.new result (start (meanings_of subject.entry (drop 2 arguments.now.items)) (scope_view scope.entry)) }
{
    if arguments.len() < 3 {
        return Ok(Value::Null);
    }
    evaluate_node(meter, &arguments[2], scope, subject)
}

#[cycle(evaluate)]
fn reduced<'s, 'a>(
    meter: &mut Meter,
    body: &'a Node,
    start: Value<'a>,
    items: &'s [Value<'a>],
    subject: Subject<'a>,
) -> Result<Value<'a>, EvalFault>
    requires { AreSummed subject (preorder (node_view body.now)) }
    ensures exact { Evaluates value_view meter.old meter.new result (reduced (meaning_of subject.entry body.now) (value_view start.entry) (map value_view items.now)) }
{
    let mut so_far = start;
    for item in items {
        let next = evaluate_node(meter, body, Scope::Fold(&so_far, item), subject)?;
        so_far = next;
    }
    Ok(so_far)
}

// The input of a site: the value of its bucketing expression, where there is one.
#[cycle(evaluate)]
#[tactic(auto, using(crate::proofs::Within::in_boxed))]
fn input<'s, 'a>(
    meter: &mut Meter,
    by: &'a Option<Box<Node>>,
    scope: Scope<'s, 'a>,
    subject: Subject<'a>,
) -> Result<Input<'a>, EvalFault>
    requires { AreSummed subject (preorder_in_by (boxed_view by.now)) }
    ensures exact { Evaluates (input_view (default_view subject.entry)) meter.old meter.new result (input (default_view subject.entry) (by_meaning_of subject.entry by.now) (scope_view scope.entry)) }
{
    match by {
        None => Ok(Input::Default),
        Some(node) => Ok(Input::Given(evaluate_node(meter, node, scope, subject)?)),
    }
}

// The names and weights, from the left.
#[cycle(evaluate)]
#[tactic(auto, using(crate::proofs::Within::in_name, crate::proofs::Within::in_weight))]
fn shares<'s, 'a>(
    meter: &mut Meter,
    buckets: &'a Vec<Bucket<Node>>,
    scope: Scope<'s, 'a>,
    subject: Subject<'a>,
) -> Result<Vec<WeightedVariant<'a>>, EvalFault>
    requires { AreSummed subject (preorder_in_buckets (buckets_view buckets.now.items)) }
    ensures exact { Evaluates (λ ss. map weighted_variant_view ss.items) meter.old meter.new result (pairs (bucket_meanings_of subject.entry buckets.now.items) (scope_view scope.entry)) }
{
    let mut shares = Vec::with_capacity(meter.alloc, buckets.len())?;
    for bucket in buckets {
        match bucket {
            Bucket::Literal(name, weight) => {
                shares.push(WeightedVariant::Literal(name.as_str(), *weight as u64))?;
            }
            Bucket::Computed(name, weight) => {
                let name = part(meter, name, scope, subject)?;
                let weight = part(meter, weight, scope, subject)?;
                shares.push(WeightedVariant::Computed(name, weight))?;
            }
        }
    }
    Ok(shares)
}

// A name or a weight: a literal is taken as it stands, for no units.
#[cycle(evaluate)]
fn part<'s, 'a>(
    meter: &mut Meter,
    node: &'a Node,
    scope: Scope<'s, 'a>,
    subject: Subject<'a>,
) -> Result<Value<'a>, EvalFault>
    requires { AreSummed subject (preorder (node_view node.now)) }
    ensures exact { Evaluates value_view meter.old meter.new result (part_of (node_view node.now) (meaning_of subject.entry node.now) (scope_view scope.entry)) }
{
    match node {
        Node::Literal(tree) => Ok(Value::Lent(tree)),
        _ => evaluate_node(meter, node, scope, subject),
    }
}
