//! At which number of a context that is not whole the evaluation of a targeting ends.
//!
//! Such a number is compared and tested by its exact value; wherever else a variable gives it, or a list or an object in which it stands, the
//! evaluation fails. [`ended_at`] finds the number at which it does, with the way to it, for the words that a caller gets in place of a
//! variant.
//!
//! ```rust
//! use decimal_reads::ended_at;
//! use flag_text::read_tree;
//! use logic_ast::read_expr;
//! use logic_eval::Context;
//! use spelled_numbers::read_sent;
//!
//! let targeting = br#"{"if":[{">":[{"var":"cart"},50]},{"in":[7,{"var":"scores"}]},{"+":[{"var":"cart"},1]}]}"#;
//! let expr = read_expr(alloc, &read_tree(alloc, targeting, 1000)?)?;
//! let context = read_sent(alloc, br#"{"cart":52.10,"scores":[7,{"last":7.5}]}"#, 1000)?;
//! let read = ended_at(alloc, &expr, &Context::make(&context, "flag", 0))?.unwrap();
//! assert!(rt; read.way.as_str() == "scores.1.last" && read.spelling.as_slice() == b"7.5".as_slice());
//! ```
//!
//! Proved, over the definitions of `specs/Reads` and `specs/Inside` and those of `logic_eval`: it is the number that the variable gives in which
//! the evaluation ends, whatever its path is computed from, in the branches that the evaluation takes. Of what the variable gives it is the
//! first, items from the first on, members in the order of their names.
#![tactic(auto)]

mod course;
mod reading;
mod variable;
mod way;

pub use reading::{DecimalRead, ended_at};
