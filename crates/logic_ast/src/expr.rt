//! An expression that is well formed, and a site of one.
ghost use Rattle.std.specs.Prelude.{◌≡◌, true};
ghost use Rattle.logic_ast.specs.Ends.{all_ends, ends_view};
ghost use Rattle.logic_ast.specs.Formed.{is_well_formed};
ghost use Rattle.logic_ast.specs.View.{node_view};

use crate::ends::all_ends;
use crate::node::Node;
use std::alloc::{AllocError, Global};

/// An expression that can be read: its operators have as many arguments as they take, its sites are numbered in preorder
/// from 0, and it has at most 10,000 nodes and 100 levels.
#[derive(Drop)]
pub struct Expr {
    pub(crate) root: Node,
    // the cumulative weights of each site, in preorder
    ends: Vec<Vec<u32>>,
    pub ghost well_formed: { is_well_formed (node_view root) ≡ true },
    ghost summed: { ends_view ends.items ≡ all_ends (node_view root) },
}

impl Expr {
    ghost use Rattle.std.specs.Prelude.{IfOk};
    ghost use Rattle.std.specs.List.{All};
    ghost use Rattle.logic_ast.specs.Ends.{HasEnds};
    ghost use Rattle.logic_ast.specs.Expr.{view};
    ghost use Rattle.logic_ast.specs.Sites.{preorder};

    /// The expression that the node at its root makes.
    pub(crate) fn of(alloc: Global, root: Node) -> Result<Expr, AllocError>
        requires { is_well_formed (node_view root) ≡ true }
        ensures { IfOk result (λ e. view e ≡ node_view root) }
    {
        let ends = all_ends(alloc, &root)?;
        Ok(Expr { root, ends })
    }

    /// The node at the root, which has the others below it.
    pub fn root(&self) -> &Node
        ensures value { node_view result.now ≡ view self.now }
        ensures well_formed { is_well_formed (node_view result.now) ≡ true }
    {
        &self.root
    }

    /// The cumulative weights of the sites, by their numbers: at each bucket the sum of the weights up to it and its own, where all
    /// buckets of the site are literal and sum to less than 2^31. Of another site there are none.
    pub fn ends(&self) -> &[Vec<u32>]
        ensures { All (HasEnds (ends_view result.now)) (preorder (view self.now)) }
    {
        self.ends.as_slice()
    }
}

/// A site: its bucketing expression, where it has one, as an expression of its own, and the entries of its buckets.
#[derive(Drop)]
pub struct Site {
    pub by: Option<Expr>,
    pub entries: Vec<(String, u64)>,
}
