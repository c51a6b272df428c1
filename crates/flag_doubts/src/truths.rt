//! What counts as true, where it stands there to be read.
ghost use Rattle.std.specs.Prelude.{◌≡◌};
ghost use Rattle.logic_ast.specs.View.{node_view};
ghost use Rattle.flag_doubts.specs.Outcomes.{literal_truth};

use logic_ast::Node;
use logic_values::seen_tree;
use logic_values::truth::is_true;

/// Whether an expression counts as true, where no evaluation is needed to tell: that of a literal, and a list by whether it has
/// items.
pub fn literal_truth(node: &Node) -> Option<bool>
    ensures { result ≡ literal_truth (node_view node.now) }
{
    match node {
        Node::Literal(tree) => Some(is_true(seen_tree(tree))),
        Node::List(items) => Some(!items.is_empty()),
        _ => None,
    }
}
