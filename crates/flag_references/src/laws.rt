//! What the definitions of a place amount to.
ghost use Rattle.std.specs.Prelude.{◌≡◌, false, is_some, option_and_then};
ghost use Rattle.flag_text.specs.Shape.{Shape};
ghost use Rattle.logic_ast.specs.FirstFault.{expression_fault};
ghost use Rattle.flag_references.specs.Inlining.{has_reference};
ghost use Rattle.flag_references.specs.Misplaced.{fault_at, misuse_place};

/// In a tree without references there is a place exactly where it has a fault as an expression (`found`). The fault is that
/// of the operation there, and where it lies inside, that of the part as a tree of its own (`same`): so who goes from part to
/// part as the places tell comes to the operation that has the fault.
pub fn a_fault_has_a_place()
    ensures found { (t : Shape) → has_reference t ≡ false → is_some (misuse_place t) ≡ is_some (expression_fault t) }
    ensures same { (t : Shape) → has_reference t ≡ false → expression_fault t ≡ option_and_then (fault_at t) (misuse_place t) }
{}
