//! Diagnostics of files: lines in words, for the error outlet, on a file or a word that is not what it should be. The answer
//! for programs stands on the other outlet.
//!
//! ```rust
//! use file_diagnostics::of_text;
//! use flag_text::read_tree;
//!
//! let bytes = b"[\"ann\",]";
//! if let Err(fault) = read_tree(alloc, bytes, 1000) {
//!     let lines = of_text(alloc, "keys.json", bytes, 1000, fault)?;
//!     assert!(rt; lines.as_str().starts_with("error: \"keys.json\" is not valid JSON: "));
//! }
//! ```
//!
//! Each function makes the lines of one kind of fault from what is known of it: the path, the bytes, the tree, the names. Crates
//! above write diagnostics of their own with [`Lines`].
//! Proved: the lines of a refusal begin with the path or the word that was refused (`specs/Named.antt`), each broken flag has a
//! line of its own, with its key and the member that its rule is about (`specs/Broken.antt`), and [`Lines`] hand out all that was
//! written, unless memory ran out (`specs/Lines.antt`). The rest of their wording is no one's contract; that there is a diagnostic,
//! and when, is said by the contracts of the commands.
//! Want of memory is the one fault of all: the caller then writes a fixed sentence.
#![tactic(auto)]

mod books;
mod definition_errors;
mod documents;
mod ends;
mod evaluators;
mod files;
mod lines;
mod listing;
mod looks;
mod numbers;
mod parts;
mod plans;
mod quoting;
mod referred;
mod search;
mod tallies;
mod texts;
mod unread;
mod way;

pub use books::{of_book, of_full_book, of_other_file};
pub use definition_errors::of_definition_errors;
pub use documents::of_document;
pub use ends::Ends;
pub use files::{of_long_book, of_rule, of_unreadable, of_unwritable, put_weight_fault};
pub use lines::{Lines, Opening};
pub use listing::{Listed, NameList};
pub use looks::{look_of, look_of_tree};
pub use parts::{Name, Step, Value};
pub use plans::of_plan_file;
pub use quoting::{quoted, quoted_name};
pub use tallies::of_tally;
pub use texts::{of_text, of_word, put_text_fault, tree_or_none};
pub use unread::{of_unread, put_meant};
