//! The evaluation of an expression.
ghost use Rattle.std.specs.Prelude.{◌≡◌, true, IfOk, length, map};
ghost use Rattle.std.specs.List.{All};
ghost use Rattle.flag_text.specs.Outcome.{GivesUnless};
ghost use Rattle.flag_text.specs.Shape.{is_whole};
ghost use Rattle.flag_text.specs.View.{view as tree_view};
ghost use Rattle.logic_ast.specs.Expr.{view};
ghost use Rattle.logic_values.specs.declared.fault.EvalFault.TheVariants.{WantOfMemory};
ghost use Rattle.logic_eval.specs.Budget.{Follows};
ghost use Rattle.logic_eval.specs.Evaluation.{evaluation_of, meaning};
ghost use Rattle.logic_eval.specs.Laws.{IsOfSite};
ghost use Rattle.logic_eval.specs.Scope.{flagd as flagd_of, default_input, root_scope};
ghost use Rattle.logic_ast.specs.Sites.{sites};
ghost use Rattle.logic_eval.specs.Views.{progress, reach_view, situation};

use crate::context::Context;
use crate::meter::{Meter, Reached};
use crate::nodes::evaluate_node;
use flag_text::Tree;
use logic_ast::Expr;
use logic_values::EvalFault;
use std::alloc::Global;

/// The units that an evaluation may cost.
pub(crate) const MOST_UNITS: u64 = 100_000;

/// What the expression evaluates to in the context, and the sites that were reached, in the order of
/// evaluation.
///
/// Refused, in the order of evaluation: `Arithmetic` where a number is missing, out of range or
/// divided by 0, where `var` gives what a number that is not whole stands in, unless it is a decimal that is compared or tested, or where
/// a decimal, or a text that is compared with one, is beyond the limits of exact numbers; `BadBuckets` where the buckets of a site are no
/// entries of a rule; `TextTooLong` where a text that is made has more than 65,536 bytes; and `TooLong` where what came before costs
/// more than 100,000 units. `WantOfMemory` may come at any step.
///
/// It takes about as many steps as units, but for the buckets of a site of which one is computed, which are walked, and for a
/// path inside an object that the expression holds, whose members are looked at one by one. In the context a member is found by
/// halving, and so is the bucket of a site whose buckets are all literal. The default hash input is made and hashed once, and
/// compared at each further site that it reaches.
pub fn eval(
    alloc: Global,
    expr: &Expr,
    context: &Context,
) -> Result<(Tree, Vec<Reached>), EvalFault>
    ensures exact { GivesUnless WantOfMemory (λ r. (tree_view r.0, map reach_view r.1.items)) result (evaluation_of (view expr.now) (situation context.now)) }
    ensures whole { IfOk result (λ r. is_whole (tree_view r.0) ≡ true) }
    ensures reached { IfOk result (λ r. All (IsOfSite (view expr.now)) (map reach_view r.1.items)) }
    ensures unreached { sites (view expr.now) ≡ 0 → IfOk result (λ r. length r.1.items ≡ 0) }
{
    let flagd = context.make_flagd(alloc)?;
    let mut meter = Meter {
        alloc,
        left: MOST_UNITS,
        reached: Vec::new(alloc),
        default: None,
    };
    let tree = evaluated(&mut meter, expr, context, &flagd)?;
    let Meter { reached, .. } = meter;
    Ok((tree, reached))
}

// The value of an expression at the root scope.
fn evaluated<'a>(
    meter: &mut Meter,
    expr: &'a Expr,
    context: &'a Context<'a>,
    flagd: &'a Tree,
) -> Result<Tree, EvalFault>
    requires { tree_view flagd.now ≡ flagd_of (situation context.now) }
    ensures exact { Follows tree_view (progress meter.old) (progress meter.new) result (meaning (default_input (situation context.now)) (view expr.now) (root_scope (situation context.now))) }
{
    let subject = context.subject(expr);
    let value = evaluate_node(meter, expr.root(), context.scope(flagd), subject)?;
    Ok(value.into_tree(meter.alloc)?)
}
