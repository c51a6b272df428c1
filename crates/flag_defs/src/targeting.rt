//! The expression of a flag's targeting.
ghost use Rattle.std.specs.Prelude.{◌≡◌, Option, Some, option_map, IfOk};
ghost use Rattle.flag_text.specs.View.{view as tree_view, members_view};
ghost use Rattle.logic_ast.specs.Expr.{view};
ghost use Rattle.logic_ast.specs.Expression.{Expression};
ghost use Rattle.flag_defs.specs.Definition.{or_null, targeting_of, HasTargeting};
ghost use Rattle.flag_defs.specs.Targeting.{IsGoodTargeting};
ghost use Rattle.flag_defs.specs.Weighing.{HasWeighed};

use crate::forecast::is_nothing;
use flag_references::{Evaluators, expand};
use flag_text::Tree;
use logic_ast::{Expr, into_expr};
use std::alloc::{AllocError, Global};

/// The most levels of the form of a targeting that can be read: one more than its expression may have, since a literal
/// bucket is a list that is not counted.
const MAX_LEVELS: usize = limits::EXPRESSION_LEVELS as usize + 1;

/// The expression of a flag's targeting, with its references replaced, where it has one. The condition is that the targeting
/// does not break the flag, and that all targetings of the document were weighed and found light. It fails only where
/// memory runs out.
pub(crate) fn read_targeting(
    alloc: Global,
    targeting: Option<Tree>,
    evaluators: &Evaluators<'_>,
) -> Result<Option<Expr>, AllocError>
    requires weighed { HasWeighed (members_view evaluators.now) (or_null (option_map tree_view targeting)) }
    requires good { IsGoodTargeting (members_view evaluators.now) (or_null (option_map tree_view targeting)) }
    ensures { IfOk result (λ e. HasTargeting (members_view evaluators.now) (or_null (option_map tree_view targeting)) (option_map view e)) }
{
    match targeting {
        Some(tree) => read_tree(alloc, tree, evaluators),
        None => Ok(None),
    }
}

/// The same of a tree. The references are replaced where they stand, and nothing else of it is copied.
fn read_tree(
    alloc: Global,
    tree: Tree,
    evaluators: &Evaluators<'_>,
) -> Result<Option<Expr>, AllocError>
    requires weighed { HasWeighed (members_view evaluators.now) (tree_view tree) }
    requires good { IsGoodTargeting (members_view evaluators.now) (tree_view tree) }
    ensures { IfOk result (λ e. HasTargeting (members_view evaluators.now) (tree_view tree) (option_map view e)) }
{
    let mut form = tree;
    expand(alloc, &mut form, evaluators, MAX_LEVELS)?;
    read_form(alloc, form)
}

/// The expression of a targeting without references, where it has one.
fn read_form(alloc: Global, form: Tree) -> Result<Option<Expr>, AllocError>
    requires good { (e : Option Expression) × (targeting_of (tree_view form) ≡ Some e) }
    ensures { IfOk result (λ e. targeting_of (tree_view form) ≡ Some (option_map view e)) }
{
    if is_nothing(&form) {
        return Ok(None);
    }
    let expression = into_expr(alloc, form)?;
    Ok(Some(expression))
}
