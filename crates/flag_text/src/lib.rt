//! JSON trees whose numbers are whole, their texts, and the places that bytes are written to.
//!
//! A [`Tree`] is what flag documents, contexts, rules, requests and plans are read from. What a
//! contract sees of it is its `Shape` (`specs/Shape.antt`, by `view` of `specs/View.antt`), so two
//! trees with equal shapes are one and the same value to every crate above.
//!
//! ```rust
//! use flag_text::{Tree, print_tree, read_tree};
//!
//! let tree = read_tree(alloc, br#"{"weights":[5, 5],"name":"red"}"#, 1000)?;
//! assert!(rt; tree.member("name").and_then(Tree::as_text) == Some("red"));
//! assert!(rt; print_tree(alloc, &tree)?.as_str() == r#"{"name":"red","weights":[5,5]}"#);
//! ```
//!
//! What is proved:
//! - [`read_tree`] and [`read_doc`] give exactly what `tree_of` and `doc_of` of `specs/Reading.antt`
//!   give of the bytes, each refusal at its place in the order, unless memory runs out. The
//!   definitions stand over `serde_json`'s own definition of a JSON text (RFC 8259).
//! - [`print_tree`] gives `text_of` of `specs/Printing.antt`, which reads back as the same tree;
//!   [`push_text`] adds that of one text to bytes, [`push_string`] and [`push_tree`] add to a text. [`plain_text`] reads a
//!   quoted text without an escape.
//! - The readers of a tree, its test for whole numbers, its levels, its copy and its comparison are
//!   what `specs/Readers.antt` and `specs/Shape.antt` say of its shape.
//! - An [`Outlet`] shows its bytes and whether a write has failed; [`write_whole`] writes all of the
//!   bytes, or a front of them and then says so.
#![tactic(auto)]

mod equal;
mod fault;
mod members;
mod named;
mod number;
mod outlet;
mod plain;
mod print;
mod push;
mod read;
mod readers;
mod tokens;
mod tree;
mod whole;

pub use fault::TextFault;
pub use named::{member_by_halving, position_of};
pub use number::number_tree;
pub use outlet::{Outlet, WriteOutlet, write_whole};
pub use plain::plain_text;
pub use print::print_tree;
pub use push::{push_string, push_text, push_tree};
pub use read::{JSON_LEVELS, TREE_LEVELS, read_doc, read_doc_with, read_tree, whole_tree};
pub use tokens::read_value;
pub use tree::{MAX_WHOLE, Tree, is_in_range};
