//! The values of targeting expressions, and the operators on them that need no scope (JsonLogic, flagd).
//!
//! A [`Value`] is lent by the expression or the context, or made by an operator; [`Seen`] is what it shows at its surface. The
//! modules have the operators by subject: [`arithmetic`], [`comparison`], [`lists`], [`text`] and [`version`], and what they
//! rest on, [`number`] and [`truth`]. Each takes values that are already there. `logic_eval`, which walks an expression, calls
//! them, and gives the types here that its callers meet: [`Value`] and [`EvalFault`].
//!
//! Proved, over the definitions in `specs/`: each operator gives what its definition gives of the values (`Arithmetic`,
//! `Comparison`, `Lists`, `Text`, `Version`, `Number`, `Truth`) as they are seen (`Views`, `Objects`), for all values, unless
//! memory runs out; a fault has its number and its name (`Fault`).
//!
//! # Decimals: the numbers of an evaluation context that are not whole, as values of targeting expressions, and how they compare
//!
//! A context that `spelled_numbers` has read has such a number as an object, by which it keeps its spelling. [`is_decimal`] tells whether a
//! value is one, and [`is_readable`] whether it is within the limits of exact numbers. [`less`], [`at_most`], [`equal`] and [`same`] are the
//! comparisons of [`comparison`], but for decimals, which are compared by their exact values with each other, with whole numbers and
//! booleans, and with texts of digits.
//!
//! Proved, over the definitions of `specs/Decimals`, which stand over those of `specs/Decimal`: each gives what its definition gives, for
//! all values. Nothing takes memory, so no clause makes an exception.
//!
//! # Decimal numbers, exactly: no number is rounded, and no float is computed with
//!
//! [`read`] reads a number of JSON, [`read_text`] a text of digits and perhaps a point, and [`order`] compares two numbers.
//!
//! ```rust
//! use logic_values::{order, read, read_text};
//! use std::cmp::Ordering;
//!
//! let cart = read(b"52.10")?;
//! assert!(rt; order(&cart, &read_text(b"52.1")?) == Ordering::Equal);
//! assert!(rt; order(&cart, &read(b"5e1")?) == Ordering::Greater);
//! assert!(rt; order(&cart, &read(b"52.1000000000000000000000000001")?) == Ordering::Less);
//! ```
//!
//! A number has at most 40 significant digits, and its last one an exponent of 10 from -400 to 400: it is kept as these digits and the
//! zeros behind them, in units of 10^-400. So two numbers are compared by their places and then by their digits.
//!
//! Proved, over the definitions of `specs/Decimal`: which number the bytes spell, or the first reason why they spell none; that the
//! order is that of the numbers' units. The law [`numbers_are_rationals`] says what this amounts to: it is the order of the fractions
//! that the numerals spell (`Law`). Nothing takes memory, so no clause makes an exception.
#![tactic(auto)]

pub mod arithmetic;
pub mod comparison;
mod decimal;
mod decimal_fault;
mod decimal_laws;
mod decimals;
mod digits;
mod fault;
pub mod lists;
pub mod number;
mod numeral;
mod ordering;
mod part;
mod root;
mod seen;
mod spelling;
pub mod text;
mod tree;
pub mod truth;
mod value;
pub mod version;

pub use decimal::Decimal;
pub use decimal_fault::DecimalFault;
pub use decimal_laws::numbers_are_rationals;
pub use decimals::{at_most, equal, is_decimal, is_readable, less, same, spelling_of};
pub use fault::EvalFault;
pub use ordering::order;
pub use part::Part;
pub use root::Root;
pub use seen::{Seen, seen_tree};
pub use spelling::{read, read_text};
pub use value::{Value, copy, fold, items_of};
