//! Evaluation of targeting expressions, with the sites that it reaches.
//!
//! [`eval`] gives the value of an [`Expr`](logic_ast::Expr) in a [`Context`], and each `fractional` operation that was
//! reached, with its hash input and the total weight of its buckets. It pays for each step from a budget of units.
//!
//! ```rust
//! use flag_text::{print_tree, read_tree};
//! use logic_ast::read_expr;
//! use logic_eval::{Context, eval};
//!
//! let targeting = br#"{"map":[["test",""],{"fractional":[{"var":""},["x",5],["y",5]]}]}"#;
//! let expr = read_expr(alloc, &read_tree(alloc, targeting, 1000)?)?;
//! let context = read_tree(alloc, br#"{"targetingKey":"st"}"#, 1000)?;
//! let (value, reached) = eval(alloc, &expr, &Context::make(&context, "te", 0))?;
//! assert!(rt; print_tree(alloc, &value)?.as_str() == r#"["y","x"]"#);
//! assert!(rt; reached.len() == 2 && reached[0].input.as_str() == "test" && reached[0].total == 10);
//! ```
//!
//! It walks the nodes (`nodes`), looks paths up in their scope (`find`), pays from the `meter`, and lets each site choose
//! (`choice`, and `literal` where its buckets are). The values, and the operators on values alone, are `logic_values`'s; a number of the
//! context that is not whole is a value only on its way to an operator that compares or tests it (`exact`, by `logic_values`).
//!
//! Proved, over the definitions in `specs/`: value, reached list and fault are those of `evaluation_of` (`Evaluation`,
//! `Operators`, `Scope`, `Fractional`, `Run`), for every expression and context; the value is whole; what is reached is of the
//! expression's sites. An [`Inspection`] evaluates parts of an expression by themselves (`Parts`). [`eval_scalar`] gives the same of a value that is a text, a boolean or null (`Scalar`).
//! [`a_literal_site_chooses`], [`a_branch_not_taken_is_not_evaluated`], [`decimals_change_nothing_else`] and
//! [`a_rule_that_chooses_alike_changes_nothing_else`] say what the definition amounts to (`Laws`).
#![tactic(auto)]

mod apply;
mod choice;
mod context;
mod evaluation;
mod exact;
mod find;
mod fractional;
mod hashed;
mod inspection;
mod laws;
mod literal;
mod meter;
mod missing;
mod nodes;
mod other;
mod scalar;
mod scope;
mod variable;

pub use context::Context;
pub use evaluation::eval;
pub use find::part_at;
pub use inspection::Inspection;
pub use laws::{
    a_branch_not_taken_is_not_evaluated, a_literal_site_chooses,
    a_rule_that_chooses_alike_changes_nothing_else, decimals_change_nothing_else,
};
pub use logic_values::{EvalFault, Value};
pub use meter::Reached;
pub use nodes::compares;
pub use scalar::eval_scalar;
