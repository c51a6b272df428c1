//! The evaluation of an expression whose value is asked for as a text or a boolean alone.
ghost use Rattle.std.specs.Prelude.{◌≡◌, IfOk, map};
ghost use Rattle.flag_text.specs.Outcome.{GivesUnless};
ghost use Rattle.flag_text.specs.View.{view as tree_view};
ghost use Rattle.logic_ast.specs.Expr.{view};
ghost use Rattle.logic_eval.specs.Scalar.{FollowsScalar, scalar_in, scalar_of};
ghost use Rattle.logic_eval.specs.Evaluation.{evaluation_of, meaning};
ghost use Rattle.logic_eval.specs.Scope.{flagd as flagd_of, default_input, root_scope};
ghost use Rattle.logic_eval.specs.Views.{progress, reach_view, situation};
ghost use Rattle.logic_values.specs.Views.{value_view};
ghost use Rattle.logic_values.specs.declared.fault.EvalFault.TheVariants.{WantOfMemory};

use crate::context::Context;
use crate::evaluation::MOST_UNITS;
use crate::meter::{Meter, Reached};
use crate::nodes::evaluate_node;
use flag_text::Tree;
use logic_ast::Expr;
use logic_values::{EvalFault, Value};
use std::alloc::{AllocError, Global};

/// What the expression evaluates to in the context, and the sites that were reached, as [`eval`](crate::eval) gives them where
/// the value is null, a boolean or a text. An empty list stands for any other value, of which nothing is copied.
///
/// It is refused as `eval` is.
pub fn eval_scalar(
    alloc: Global,
    expr: &Expr,
    context: &Context,
) -> Result<(Tree, Vec<Reached>), EvalFault>
    ensures { GivesUnless WantOfMemory (λ r. (tree_view r.0, map reach_view r.1.items)) result (scalar_of (evaluation_of (view expr.now) (situation context.now))) }
{
    let flagd = context.make_flagd(alloc)?;
    let mut meter = Meter {
        alloc,
        left: MOST_UNITS,
        reached: Vec::new(alloc),
        default: None,
    };
    let tree = evaluated(&mut meter, expr, context, &flagd)?;
    let Meter { reached, .. } = meter;
    Ok((tree, reached))
}

// The scalar that an expression gives at the root scope.
fn evaluated<'a>(
    meter: &mut Meter,
    expr: &'a Expr,
    context: &'a Context<'a>,
    flagd: &'a Tree,
) -> Result<Tree, EvalFault>
    requires { tree_view flagd.now ≡ flagd_of (situation context.now) }
    ensures exact { FollowsScalar (progress meter.old) (progress meter.new) result (meaning (default_input (situation context.now)) (view expr.now) (root_scope (situation context.now))) }
{
    let subject = context.subject(expr);
    let value = evaluate_node(meter, expr.root(), context.scope(flagd), subject)?;
    Ok(scalar(meter.alloc, value)?)
}

fn scalar(alloc: Global, value: Value) -> Result<Tree, AllocError>
    ensures { IfOk result (λ t. tree_view t ≡ scalar_in (value_view value.entry)) }
{
    match value {
        Value::Lent(tree) => scalar_tree(alloc, tree),
        Value::Given(part) => scalar_tree(alloc, part.tree),
        Value::Name(name) => Ok(Tree::Text(String::from_str(alloc, name)?)),
        Value::Null => Ok(Tree::Null),
        Value::Bool(b) => Ok(Tree::Bool(b)),
        Value::Text(text) => Ok(Tree::Text(text)),
        Value::Whole(_) => Ok(Tree::List(Vec::new(alloc))),
        Value::Items(_) => Ok(Tree::List(Vec::new(alloc))),
        Value::Context(_) => Ok(Tree::List(Vec::new(alloc))),
        Value::Fold(..) => Ok(Tree::List(Vec::new(alloc))),
    }
}

fn scalar_tree(alloc: Global, tree: &Tree) -> Result<Tree, AllocError>
    ensures { IfOk result (λ t. tree_view t ≡ scalar_in (tree_view tree.now)) }
{
    match tree {
        Tree::Null => Ok(Tree::Null),
        Tree::Bool(b) => Ok(Tree::Bool(*b)),
        Tree::Text(text) => Ok(Tree::Text(text.clone()?)),
        Tree::Whole(_) => Ok(Tree::List(Vec::new(alloc))),
        Tree::Other => Ok(Tree::List(Vec::new(alloc))),
        Tree::List(_) => Ok(Tree::List(Vec::new(alloc))),
        Tree::Object(_) => Ok(Tree::List(Vec::new(alloc))),
    }
}
