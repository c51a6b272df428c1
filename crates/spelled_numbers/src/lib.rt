//! Numbers that keep their spelling: in documents whose variants may be any numbers of JSON, and in what applications send.
//!
//! [`read_with_floats`] reads the text of a flag document as `flag_text` does, but for variants with a number that is not whole:
//! each value of these stands as a text, which is its spelling. So every definition above speaks of flags with text values, and
//! who prints such a value prints the text as it is.
//!
//! ```rust
//! use spelled_numbers::read_with_floats;
//!
//! let text = br#"{"flags":{"ratio":{"state":"ENABLED","variants":{"low":0.5,"high":1}}}}"#;
//! let document = read_with_floats(alloc, text, 1000)?;      // its `low` is the text `0.5`, its `high` the text `1`
//! assert!(rt; document.marks[0].has_floats);
//! ```
//!
//! Proved, over the definitions of `specs/Floats` and `specs/Reading`: which tree the bytes stand for, with each refusal at its
//! place in the order, unless memory runs out, and which flags have such variants (`specs/Marks`); and, as laws, that a document whose
//! numbers are all whole stands for what it always stood for, that no flag of it has such variants, and that each text is the value
//! in whose place it stands, of a number its spelling.
//!
//! # Numbers as an application sends them: `5.0` and `1e3` for whole numbers, as Python, PHP, Ruby, Java and Kotlin print them
//!
//! [`read_sent`] reads a JSON text as `flag_text` does, but for its numbers: one whose decimal value is whole, and in range, is that
//! whole number however it is spelled, by its digits and not by way of a float. Every other number keeps its spelling: it is an object whose
//! one member is `Tree::Other`, and is named by a point and the spelling. No other object of the tree has such a member, and no path of a
//! targeting leads to it.
//!
//! ```rust
//! use flag_text::Tree;
//! use spelled_numbers::read_sent;
//!
//! let tree = read_sent(alloc, br#"{"age":5.0,"latitude":52.10}"#, 1000)?;
//! assert!(rt; tree.member("age").and_then(Tree::as_whole) == Some(5));
//! let latitude = tree.member("latitude").and_then(|number| number.member(".52.10"));
//! assert!(rt; matches!(latitude, Some(Tree::Other)));
//! ```
//!
//! Proved, over the definitions of `specs/Sent`: which tree the bytes stand for, with each refusal at its place in the order, unless
//! memory runs out; and, as a law, that a text whose numbers are all spelled as whole ones in range stands for what it always stood for.
#![tactic(auto)]

mod depth;
mod laws;
mod levels;
mod marks;
mod number;
mod numbers;
mod read;
mod respelling;
mod sent_laws;
mod sent_reading;
mod texts;
mod variants;
mod walk;

pub use laws::{
    floats_change_nothing, numbers_keep_their_spelling, texts_are_their_values,
    whole_flags_have_no_floats,
};
pub use levels::{stands_for_number, without_spelling};
pub use marks::Mark;
pub use read::{Document, read_with_floats};
pub use sent_laws::whole_numbers_stay;
pub use sent_reading::{read_sent, read_sent_tree, read_sent_with, shallow};
