//! What an evaluation is given beside the expression.
ghost use Rattle.std.specs.Prelude.{◌≡◌, ◌<◌, ◌^◌, true, IfOk, IsSome};
ghost use Rattle.flag_text.specs.Readers.{as_object};
ghost use Rattle.flag_text.specs.Shape.{is_tidy, members_are_tidy};
ghost use Rattle.flag_text.specs.View.{view, members_view};

use crate::scope::{Scope, Subject};
use flag_text::{Tree, member_by_halving};
use logic_ast::Expr;
use logic_values::Root;
use std::alloc::{AllocError, Global};

/// The evaluation context, the flag's key and the moment: the last two are seen as `$flagd`.
///
/// It borrows the context and the key. By its type the context's names rise and its whole numbers are in range, and the moment is
/// below 2^53. A number of it may be one that is not whole, which is a fault of the evaluations alone that read it, unless they compare or
/// test it: then it stands in the context as an object of one member, a decimal.
#[derive(Drop)]
pub struct Context<'a> {
    members: &'a [(String, Tree)],
    flag: &'a str,
    moment: u64,
    pub ghost tidy: { members_are_tidy (members_view members.now) ≡ true },
    pub ghost small: { moment < 2 ^ 53 },
}

impl<'a> Context<'a> {
    ghost use Rattle.logic_ast.specs.Expr.{view as expr_view};
    ghost use Rattle.logic_ast.specs.Sites.{preorder};
    ghost use Rattle.logic_eval.specs.Literal.{AreSummed};
    ghost use Rattle.logic_eval.specs.Scope.{flagd, root_scope, default_input};
    ghost use Rattle.logic_eval.specs.Views.{scope_view, default_view, situation};
    ghost use Rattle.logic_values.specs.Views.{root_view};

    /// The context is an object, and the moment is at most 2^53-1.
    pub fn make(context: &'a Tree, flag: &'a str, moment: u64) -> Context<'a>
        requires object { IsSome (as_object (view context.now)) }
        requires tidy { is_tidy (view context.now) ≡ true }
        requires moment { moment < 2 ^ 53 }
        ensures { situation result ≡ record { context = view context.now; flag = flag.now; moment = moment } }
    {
        match context {
            Tree::Object(members) => Context {
                members: members.as_slice(),
                flag,
                moment,
            },
            _ => unreachable!(),
        }
    }

    /// What stands in place of the context's member `$flagd`.
    pub(crate) fn make_flagd(&self, alloc: Global) -> Result<Tree, AllocError>
        ensures { IfOk result (λ t. view t ≡ flagd (situation self.now)) }
    {
        let mut members = Vec::with_capacity(alloc, 2)?;
        let name = String::from_str(alloc, "flagKey")?;
        members.push((name, Tree::Text(String::from_str(alloc, self.flag)?)))?;
        let name = String::from_str(alloc, "timestamp")?;
        members.push((name, Tree::Whole(self.moment as i64)))?;
        Ok(Tree::Object(members))
    }

    /// The scope of the whole expression.
    pub(crate) fn scope<'s>(&'s self, made: &'s Tree) -> Scope<'s, 's>
        requires { view made.now ≡ flagd (situation self.now) }
        ensures { scope_view result ≡ root_scope (situation self.now) }
    {
        Scope::Root(self.root(made))
    }

    /// The members of the context, with what stands in place of `$flagd`.
    pub(crate) fn root<'s>(&'s self, made: &'s Tree) -> Root<'s>
        requires { view made.now ≡ flagd (situation self.now) }
        ensures { root_view result ≡ root_scope (situation self.now) }
    {
        Root {
            members: self.members,
            flagd: made,
        }
    }

    /// What the sites of an expression are decided by.
    #[tactic(auto, unfolding(crate::specs::Literal::AreSummed))]
    pub(crate) fn subject<'s>(&'s self, expr: &'s Expr) -> Subject<'s>
        ensures default { default_view result ≡ default_input (situation self.now) }
        ensures summed { AreSummed result (preorder (expr_view expr.now)) }
    {
        let key = match member_by_halving(self.members, "targetingKey") {
            Some(Tree::Text(key)) => Some(key.as_str()),
            _ => None,
        };
        Subject {
            flag: self.flag,
            key,
            ends: expr.ends(),
        }
    }
}
