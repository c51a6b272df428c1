//! Rules, and lists of keys, straight from the bytes of their files, with no tree in between.
//!
//! ```rust
//! use rule_text::read_rule_text;
//!
//! let rule = read_rule_text(alloc, br#"[["red",50],["blue",50]]"#, 1000)?;
//! assert!(rt; rule.total() == 100 && rule.choose("test") == "blue");
//! ```
//!
//! Proved, over `rule_of_text` of `specs/Reading.antt`: [`read_rule_text`] gives the rule of the tree that `flag_text`
//! reads of the bytes, and each refusal of the text and of the rule in its order. [`choose_in_text`] gives what that rule gives a
//! hash input, and keeps no name but that. What [`read_texts`] finds are the texts of the list that the bytes' tree is.
#![tactic(auto)]

mod buckets;
mod choosing;
mod fault;
mod lent;
mod listed;
mod look;
mod names;
mod number;
mod part;
mod read;
mod texts;

pub use choosing::{Choice, choose_in_text};
pub use fault::RuleTextFault;
pub use read::read_rule_text;
pub use texts::read_texts;
