//! Parts of an expression, evaluated by themselves.
ghost use Rattle.std.specs.Prelude.{◌≡◌, false, IfOk, map, option_map};
ghost use Rattle.flag_text.specs.Outcome.{GivesUnless};
ghost use Rattle.flag_text.specs.View.{view};
ghost use Rattle.logic_ast.specs.View.{node_view};
ghost use Rattle.logic_eval.specs.Budget.{Follows};
ghost use Rattle.logic_eval.specs.Evaluated.{tested_meaning};
ghost use Rattle.logic_eval.specs.Scope.{default_input, find_text, flagd as flagd_of, root_scope};
ghost use Rattle.logic_eval.specs.Views.{default_view, progress, reach_view, situation};
ghost use Rattle.logic_values.specs.Truth.{is_empty_text};
ghost use Rattle.logic_values.specs.declared.fault.EvalFault.TheVariants.{WantOfMemory};

use crate::context::Context;
use crate::evaluation::MOST_UNITS;
use crate::find::part_in;
use crate::meter::{Meter, Reached};
use crate::nodes::evaluate_operand_if;
use crate::scope::Subject;
use flag_text::Tree;
use logic_ast::{Expr, Node};
use logic_values::{EvalFault, Value};
use std::alloc::{AllocError, Global};

/// An expression in a context, of which parts are evaluated by themselves: each by its nodes, with the whole budget.
#[derive(Clone, Copy)]
pub struct Inspection<'a> {
    context: &'a Context<'a>,
    subject: Subject<'a>,
    pub ghost keyed: { default_view subject ≡ default_input (situation context.now) },
}

impl<'a> Inspection<'a> {
    ghost use Rattle.logic_ast.specs.Expr.{view as expr_view};
    ghost use Rattle.logic_ast.specs.Sites.{preorder};
    ghost use Rattle.logic_eval.specs.Parts.{AreInspected, given_by, inspected};

    /// The parts of this expression can be evaluated in this context.
    pub fn of(expr: &'a Expr, context: &'a Context<'a>) -> Inspection<'a>
        ensures situation { inspected result ≡ situation context.entry.now }
        ensures known { AreInspected result (preorder (expr_view expr.entry.now)) }
    {
        Inspection {
            context,
            subject: context.subject(expr),
        }
    }

    /// What a node of the expression gives at the root scope, with the sites that it reached: where it is compared or tested, as an argument of
    /// `<` or the first of `if` is, or where it is not. It is refused as an expression is by [`eval`](crate::eval).
    pub fn eval(
        &self,
        alloc: Global,
        node: &Node,
        tested: bool,
    ) -> Result<(Tree, Vec<Reached>), EvalFault>
        requires known { AreInspected self.now (preorder (node_view node.now)) }
        ensures exact { GivesUnless WantOfMemory (λ r. (view r.0, map reach_view r.1.items)) result (given_by tested (node_view node.now) (inspected self.now)) }
    {
        let flagd = self.context.make_flagd(alloc)?;
        let mut meter = Meter {
            alloc,
            left: MOST_UNITS,
            reached: Vec::new(alloc),
            default: None,
        };
        let tree = self.evaluated(&mut meter, node, tested, &flagd)?;
        let Meter { reached, .. } = meter;
        Ok((tree, reached))
    }

    // The same, paid from what the meter has left.
    fn evaluated(
        &self,
        meter: &mut Meter,
        node: &Node,
        tested: bool,
        flagd: &Tree,
    ) -> Result<Tree, EvalFault>
        requires flagd { view flagd.now ≡ flagd_of (inspected self.now) }
        requires known { AreInspected self.now (preorder (node_view node.now)) }
        ensures exact { Follows view (progress meter.old) (progress meter.new) result (tested_meaning tested (default_input (inspected self.now)) (node_view node.now) (root_scope (inspected self.now))) }
    {
        let scope = self.context.scope(flagd);
        let value = evaluate_operand_if(meter, node, tested, scope, self.subject)?;
        Ok(value.into_tree(meter.alloc)?)
    }

    /// What stands in place of a member `$flagd` of the context.
    pub fn flagd(&self, alloc: Global) -> Result<Tree, AllocError>
        ensures { IfOk result (λ t. view t ≡ flagd_of (inspected self.now)) }
    {
        self.context.make_flagd(alloc)
    }

    /// What a path that is not empty finds in the root scope, as `var` follows it: in the context, or in this `$flagd`.
    pub fn found<'s>(&'s self, flagd: &'s Tree, path: &str) -> Option<&'s Tree>
        requires flagd { view flagd.now ≡ flagd_of (inspected self.now) }
        requires path { is_empty_text path.now ≡ false }
        ensures { option_map (λ t. view t.now) result ≡ find_text (root_scope (inspected self.entry.now)) path.now }
    {
        let part = part_in(self.context.root(flagd), path)?;
        Some(part.tree)
    }

    /// The root scope: the members of the context, with `$flagd` in its place.
    pub fn whole(&self, alloc: Global) -> Result<Tree, AllocError>
        ensures { IfOk result (λ t. view t ≡ root_scope (inspected self.now)) }
    {
        let flagd = self.context.make_flagd(alloc)?;
        Value::Context(self.context.root(&flagd)).into_tree(alloc)
    }
}
