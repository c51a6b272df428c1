//! What the definitions of a fault amount to.
ghost use Rattle.std.specs.Prelude.{◌≡◌, List, ℕ, option_map};
ghost use Rattle.flag_text.specs.Shape.{Shape, object, member, no_members};
ghost use Rattle.logic_ast.specs.FirstFault.{first, expression_fault};
ghost use Rattle.logic_ast.specs.Misuse.{misuse_of, fault_of};

/// The fault of an operation is that of the operation itself, and where nothing is wrong with it that of its arguments as a
/// tree of their own: so the first fault in preorder is always that of one operation itself, of a `fractional` too.
pub fn a_fault_is_of_an_operation_itself()
    ensures { (name : List ℕ) (t : Shape) → expression_fault (object (member name t no_members)) ≡ first (option_map fault_of (misuse_of name t)) (expression_fault t) }
{}
