//! Where an evaluation ends at a number that is not whole.
ghost use Rattle.std.specs.Prelude.{◌≡◌, ◌||◌, not, IfOk, option_map};
ghost use Rattle.logic_ast.specs.Expr.{view as expr_view};
ghost use Rattle.logic_ast.specs.Sites.{preorder, preorder_in, preorder_in_buckets, preorder_in_by};
ghost use Rattle.logic_ast.specs.View.{boxed_view, buckets_view, node_view, nodes_view};
ghost use Rattle.logic_eval.specs.Evaluation.{evaluation_of};
ghost use Rattle.logic_eval.specs.Parts.{AreInspected, inspected};
ghost use Rattle.logic_eval.specs.Views.{situation};
ghost use Rattle.decimal_reads.specs.Course.{course_view};
ghost use Rattle.decimal_reads.specs.Reads.{is_arithmetic, course, course_by, course_in_buckets, courses, read_in, read_in_conditional, read_in_items, read_in_operation, read_in_reduce, read_in_truth, read_view, truth_of};
ghost use Rattle.decimal_reads.specs.Reads as spec;

use crate::course::Course;
use crate::variable::read_by;
use logic_ast::{Bucket, Expr, Node, Operator};
use logic_eval::{Context, EvalFault, Inspection, compares, eval};
use logic_values::seen_tree;
use logic_values::truth::is_true;
use std::alloc::{AllocError, Global};

/// A number of a context that is not whole, at which an evaluation ended.
#[derive(Drop)]
pub struct DecimalRead {
    /// The way to the number from the whole context, as `var` spells it: `order.items.0`.
    pub way: String,
    /// Its spelling in the context.
    pub spelling: Vec<u8>,
}

/// The number of the context at which the evaluation of a targeting ends: one that is not whole, which a variable gives where it is neither
/// compared nor tested, or can't be, or the first such number in a list or an object that a variable gives.
///
/// None where the evaluation gives a value, or ends for another reason. It fails only where memory runs out. What comes before such a number
/// is evaluated once more for each level of the targeting that it stands in.
pub fn ended_at(
    alloc: Global,
    expr: &Expr,
    context: &Context,
) -> Result<Option<DecimalRead>, AllocError>
    ensures exact { IfOk result (λ r. option_map read_view r ≡ spec.ended_at (expr_view expr.now) (situation context.now)) }
{
    if ends_arithmetically(alloc, expr, context)? {
        read_in(alloc, &Inspection::of(expr, context), expr.root(), false)
    } else {
        Ok(None)
    }
}

/// Whether an evaluation ends for the sake of a number.
fn ends_arithmetically(alloc: Global, expr: &Expr, context: &Context) -> Result<bool, AllocError>
    ensures { IfOk result (λ b. b ≡ is_arithmetic (evaluation_of (expr_view expr.now) (situation context.now))) }
{
    match eval(alloc, expr, context) {
        Ok((_value, _reached)) => Ok(false),
        Err(EvalFault::WantOfMemory) => Err(AllocError),
        Err(fault) => Ok(fault == EvalFault::Arithmetic),
    }
}

#[cycle(read)]
#[tactic(auto, using(logic_eval::proofs::Within::in_list, logic_eval::proofs::Within::in_operation, logic_eval::proofs::Within::in_by, logic_eval::proofs::Within::in_buckets))]
fn read_in(
    alloc: Global,
    inspection: &Inspection,
    node: &Node,
    tested: bool,
) -> Result<Option<DecimalRead>, AllocError>
    requires known { AreInspected inspection.now (preorder (node_view node.now)) }
    ensures { IfOk result (λ r. option_map read_view r ≡ read_in tested (inspected inspection.now) (node_view node.now)) }
{
    match node {
        Node::Literal(_) => Ok(None),
        Node::List(items) => Ok(courses(alloc, inspection, items, false)?.reading()),
        Node::Operation(operator, arguments) => {
            read_in_operation(alloc, inspection, *operator, arguments, tested)
        }
        Node::Fractional { by, buckets, .. } => match course_by(alloc, inspection, by)? {
            Course::Ends(reading) => Ok(reading),
            Course::GoesOn => Ok(course_in_buckets(alloc, inspection, buckets)?.reading()),
        },
    }
}

#[cycle(read)]
fn read_in_operation(
    alloc: Global,
    inspection: &Inspection,
    operator: Operator,
    arguments: &Vec<Node>,
    tested: bool,
) -> Result<Option<DecimalRead>, AllocError>
    requires known { AreInspected inspection.now (preorder_in (nodes_view arguments.now.items)) }
    ensures { IfOk result (λ r. option_map read_view r ≡ read_in_operation operator tested (inspected inspection.now) (nodes_view arguments.now.items)) }
{
    match operator {
        Operator::If => read_in_conditional(alloc, inspection, arguments),
        Operator::And => read_in_truth(alloc, inspection, arguments, false, tested),
        Operator::Or => read_in_truth(alloc, inspection, arguments, true, tested),
        Operator::Map => read_in_items(alloc, inspection, arguments),
        Operator::Filter => read_in_items(alloc, inspection, arguments),
        Operator::AllOf => read_in_items(alloc, inspection, arguments),
        Operator::SomeOf => read_in_items(alloc, inspection, arguments),
        Operator::NoneOf => read_in_items(alloc, inspection, arguments),
        Operator::Reduce => read_in_reduce(alloc, inspection, arguments),
        Operator::Var => match courses(alloc, inspection, arguments, false)? {
            Course::Ends(reading) => Ok(reading),
            Course::GoesOn => read_by(alloc, inspection, arguments, tested),
        },
        _ => Ok(courses(alloc, inspection, arguments, compares(operator))?.reading()),
    }
}

/// The course of an evaluation after a part: a literal ends none.
#[cycle(read)]
fn course(
    alloc: Global,
    inspection: &Inspection,
    node: &Node,
    tested: bool,
) -> Result<Course, AllocError>
    requires known { AreInspected inspection.now (preorder (node_view node.now)) }
    ensures { IfOk result (λ c. course_view c ≡ course tested (inspected inspection.now) (node_view node.now)) }
{
    if let Node::Literal(_) = node {
        return Ok(Course::GoesOn);
    }
    match truth_of(alloc, inspection, node, tested)? {
        Some(_) => Ok(Course::GoesOn),
        None => Ok(Course::Ends(read_in(alloc, inspection, node, tested)?)),
    }
}

/// Whether what a part gives counts as true; none where the evaluation ends in it.
fn truth_of(
    alloc: Global,
    inspection: &Inspection,
    node: &Node,
    tested: bool,
) -> Result<Option<bool>, AllocError>
    requires known { AreInspected inspection.now (preorder (node_view node.now)) }
    ensures { IfOk result (λ t. t ≡ truth_of tested (inspected inspection.now) (node_view node.now)) }
{
    match inspection.eval(alloc, node, tested) {
        Ok((value, _reached)) => Ok(Some(is_true(seen_tree(&value)))),
        Err(EvalFault::WantOfMemory) => Err(AllocError),
        Err(_) => Ok(None),
    }
}

#[cycle(read)]
#[tactic(auto, using(logic_eval::proofs::Within::in_nodes))]
fn courses(
    alloc: Global,
    inspection: &Inspection,
    nodes: &Vec<Node>,
    tested: bool,
) -> Result<Course, AllocError>
    requires known { AreInspected inspection.now (preorder_in (nodes_view nodes.now.items)) }
    ensures { IfOk result (λ c. course_view c ≡ courses tested (inspected inspection.now) (nodes_view nodes.now.items)) }
{
    for node in nodes {
        if let Course::Ends(reading) = course(alloc, inspection, node, tested)? {
            return Ok(Course::Ends(reading));
        }
    }
    Ok(Course::GoesOn)
}

/// `if`: pairs of a test and a result, and a last result.
#[cycle(read)]
#[tactic(auto, using(logic_eval::proofs::Within::in_nodes))]
fn read_in_conditional(
    alloc: Global,
    inspection: &Inspection,
    nodes: &Vec<Node>,
) -> Result<Option<DecimalRead>, AllocError>
    requires known { AreInspected inspection.now (preorder_in (nodes_view nodes.now.items)) }
    ensures { IfOk result (λ r. option_map read_view r ≡ read_in_conditional (inspected inspection.now) (nodes_view nodes.now.items)) }
{
    let pairs = nodes.len() / 2;
    for pair in 0..pairs {
        let test = &nodes[2 * pair];
        match truth_of(alloc, inspection, test, true)? {
            Some(true) => return read_in(alloc, inspection, &nodes[2 * pair + 1], false),
            Some(false) => (),
            None => return read_in(alloc, inspection, test, true),
        }
    }
    if nodes.len() % 2 == 1 {
        return read_in(alloc, inspection, &nodes[2 * pairs], false);
    }
    Ok(None)
}

/// `and` looks for a value that counts as false, `or` for one that counts as true.
#[cycle(read)]
#[tactic(auto, using(logic_eval::proofs::Within::in_nodes))]
fn read_in_truth(
    alloc: Global,
    inspection: &Inspection,
    nodes: &Vec<Node>,
    wanted: bool,
    tested: bool,
) -> Result<Option<DecimalRead>, AllocError>
    requires known { AreInspected inspection.now (preorder_in (nodes_view nodes.now.items)) }
    ensures { IfOk result (λ r. option_map read_view r ≡ read_in_truth wanted tested (inspected inspection.now) (nodes_view nodes.now.items)) }
{
    if nodes.is_empty() {
        return Ok(None);
    }
    let last = nodes.len() - 1;
    let early = tests_early(wanted, tested);
    for place in 0..last {
        let node = &nodes[place];
        match truth_of(alloc, inspection, node, early)? {
            Some(truth) if truth == wanted => return Ok(None),
            Some(_) => (),
            None => return read_in(alloc, inspection, node, early),
        }
    }
    read_in(alloc, inspection, &nodes[last], tested)
}

/// Whether `and` or `or` may have such a number before its last argument.
fn tests_early(wanted: bool, tested: bool) -> bool
    ensures { result ≡ (tested || not wanted) }
{
    tested || !wanted
}

/// The list that `map` and its like go over.
#[cycle(read)]
#[tactic(auto, using(logic_eval::proofs::Within::in_nodes))]
fn read_in_items(
    alloc: Global,
    inspection: &Inspection,
    arguments: &Vec<Node>,
) -> Result<Option<DecimalRead>, AllocError>
    requires known { AreInspected inspection.now (preorder_in (nodes_view arguments.now.items)) }
    ensures { IfOk result (λ r. option_map read_view r ≡ read_in_items (inspected inspection.now) (nodes_view arguments.now.items)) }
{
    if arguments.len() < 2 {
        return Ok(None);
    }
    read_in(alloc, inspection, &arguments[0], false)
}

/// The list of `reduce`, then its start value.
#[cycle(read)]
#[tactic(auto, using(logic_eval::proofs::Within::in_nodes))]
fn read_in_reduce(
    alloc: Global,
    inspection: &Inspection,
    arguments: &Vec<Node>,
) -> Result<Option<DecimalRead>, AllocError>
    requires known { AreInspected inspection.now (preorder_in (nodes_view arguments.now.items)) }
    ensures { IfOk result (λ r. option_map read_view r ≡ read_in_reduce (inspected inspection.now) (nodes_view arguments.now.items)) }
{
    if arguments.len() < 2 {
        return Ok(None);
    }
    match course(alloc, inspection, &arguments[0], false)? {
        Course::Ends(reading) => Ok(reading),
        Course::GoesOn if arguments.len() > 2 => read_in(alloc, inspection, &arguments[2], false),
        Course::GoesOn => Ok(None),
    }
}

/// The bucketing expression of a site.
#[cycle(read)]
#[tactic(auto, using(logic_eval::proofs::Within::in_boxed))]
fn course_by(
    alloc: Global,
    inspection: &Inspection,
    by: &Option<Box<Node>>,
) -> Result<Course, AllocError>
    requires known { AreInspected inspection.now (preorder_in_by (boxed_view by.now)) }
    ensures { IfOk result (λ c. course_view c ≡ course_by (inspected inspection.now) (boxed_view by.now)) }
{
    match by {
        None => Ok(Course::GoesOn),
        Some(node) => course(alloc, inspection, node, false),
    }
}

/// The names and weights of its buckets.
#[cycle(read)]
#[tactic(auto, using(logic_eval::proofs::Within::in_name, logic_eval::proofs::Within::in_weight))]
fn course_in_buckets(
    alloc: Global,
    inspection: &Inspection,
    buckets: &Vec<Bucket<Node>>,
) -> Result<Course, AllocError>
    requires known { AreInspected inspection.now (preorder_in_buckets (buckets_view buckets.now.items)) }
    ensures { IfOk result (λ c. course_view c ≡ course_in_buckets (inspected inspection.now) (buckets_view buckets.now.items)) }
{
    for bucket in buckets {
        if let Bucket::Computed(name, weight) = bucket {
            if let Course::Ends(reading) = course(alloc, inspection, name, false)? {
                return Ok(Course::Ends(reading));
            }
            if let Course::Ends(reading) = course(alloc, inspection, weight, false)? {
                return Ok(Course::Ends(reading));
            }
        }
    }
    Ok(Course::GoesOn)
}
