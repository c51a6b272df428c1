//! Where a value stands in the text that it was read from, and the tokens of a text with their places.
//!
//! A path leads from the value of a JSON text to a part of it, by the names of members and the indices of items. [`find`]
//! gives the bytes that the part takes, so that it can be told of, or replaced while all else stays as it is:
//!
//! ```rust
//! let text = r#"{"a": [1, 22, 333]}"#;
//! let span = find(alloc, text, &[Step::Name("a"), Step::Index(1)])?;     // from 10 to 12
//! ```
//!
//! What is proved, over the grammar that `json` states (RFC 8259): the bytes are those of the value at the path, from its
//! first one to its last one (`Stands` of `specs/Path.antt`), where of members of one name the last counts; and there is no
//! answer only where no value stands at the path. There is one such place at most ([`a_value_stands_once`]).
//!
//! # The tokens of a JSON text, each with the place where it stands
//!
//! A [`Cursor`] is what is left of the tokens of a text, as `json` reads them, beside what is left of the text. So it
//! tells where a token stands, and where the value ends that begins there:
//!
//! ```rust
//! let mut cursor = Cursor::new(text, &mut scratch)?;
//! let from = cursor.from_next();      // the text from the next value on
//! cursor.pass_value();
//! let after = cursor.rest;            // the text after it
//! ```
//!
//! Proved, over the grammar that `json` states: [`Cursor::next`] gives the next token, [`Cursor::pass_value`] takes the
//! tokens of the next value, and of the list or object that is open [`Cursor::close`] what is left; and after each of
//! them the text that is left is that of the tokens that are left (`Stand`): it is an end of the text that
//! was left before, and after a value it begins right behind its last byte.
#![tactic(auto)]

mod cursor;
mod finding;
mod laws;
mod lexemes;
mod places;
mod steps;

pub use cursor::Cursor;
pub use finding::{Span, find};
pub use laws::a_value_stands_once;
pub use steps::Step;
