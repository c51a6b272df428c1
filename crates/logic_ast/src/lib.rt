//! Expressions: JsonLogic in a whole-number profile, with flagd's `fractional`, `sem_ver`, `starts_with` and `ends_with`.
//!
//! [`read_expr`] reads a tree as an expression, [`into_expr`] reads one that it consumes, and [`write_expr`] writes an
//! expression as a tree. An [`Expr`] is well formed by its type: its operators have as many arguments as they take, its
//! sites (its `fractional` operations) are numbered in preorder, and it has at most 10,000 nodes and 100 levels. [`sites`],
//! [`site`], [`by_text`] and [`replace_site`] work on its sites. A [`Misuse`] is what is wrong with one operation itself.
//!
//! ```rust
//! use flag_text::read_tree;
//! use logic_ast::{by_text, read_expr, sites};
//!
//! let tree = read_tree(alloc, br#"{"fractional":[{"var":"key"},["red",5],["blue",5]]}"#, 1000)?;
//! let expr = read_expr(alloc, &tree)?;
//! assert!(rt; sites(&expr) == 1);
//! assert!(rt; by_text(alloc, &expr, 0)?.is_some_and(|by| by.as_str() == r#"{"var":["key"]}"#));
//! ```
//!
//! Proved, over the definitions in `specs/`: what is read of a tree is `reading` (`Reading`, `FirstFault`, `Size`), with
//! its refusals in their order; a fault is that of the first operation which is wrong in itself (`Misuse`,
//! [`a_fault_is_of_an_operation_itself`]); what is written for an expression is `written` (`Writing`), and reads as it; the
//! n-th site is the n-th in `preorder` (`Sites`); replacing its entries changes them and nothing else.
#![tactic(auto)]

mod check;
mod copy;
mod ends;
mod expr;
mod fault;
mod find;
mod laws;
mod lookup;
mod misuse;
mod node;
mod operator;
mod read;
mod replace;
mod size;
mod write;

pub use expr::{Expr, Site};
pub use fault::LogicFault;
pub use laws::a_fault_is_of_an_operation_itself;
pub use lookup::{by_text, site, sites};
pub use misuse::Misuse;
pub use node::{Bucket, Node};
pub use operator::{Operator, is_fractional};
pub use read::{into_expr, read_expr};
pub use replace::replace_site;
pub use write::write_expr;
