//! What is doubted of a flag that is read and still hardly meant as it stands, and which flag a later version of its document breaks.
//!
//! A document may be read without a word though a bucket names no variant, weights give nobody a variant, a targeting can never
//! give one, a member of a definition is misspelled, or a key or a member stands twice. [`doubts_of`] tells the first four of one
//! flag, [`repeated_in`] the last of a document's bytes, since a tree keeps one member of a name alone: it walks the tokens by the
//! steps of `member_names`. The same walk tells whether each member of a document and of its definitions is read, where none has
//! to be looked for. [`read_with_names`] walks in a thread of its own while the flags are read.
//!
//! ```rust
//! use flag_doubts::{doubts_of, read_with_names, repeated_in};
//!
//! let doubts = doubts_of(definition, flag);
//! let is_told = doubts.is_any();
//! let twice = repeated_in(alloc, br#"{"flags":{"a":{},"b":{"state":1,"state":2},"a":{}}}"#)?;
//! let keys = &twice.keys;                          // "a"
//! let place = twice.definitions.get("b");          // ".state"
//! let plain = twice.all_read;                      // true
//!
//! let read = read_with_names(&rt, alloc, bytes, false)?;
//! let judged = (&read.flags, &read.names);
//! ```
//!
//! What is proved, over the definitions in `specs/`: what a targeting can result in is read off its literals and operators
//! (`Outcomes`), with the branches of `if`, arguments of `and` and `or` and buckets of `fractional` that no literal test, argument
//! or weight rules out; a weight is one that `bucket_core` reads (`Weights`); each doubt is told exactly where its definition says so (`Doubts`), and without memory;
//! what stands more than once does so in the grammar of `json` (`Doubled`, `Repeated`), which place is told is not proved; and
//! all members are read exactly where it is told so (`AllRead`). What is read in two threads is what each would read alone.
//! [`doubts_are_of_evaluations`] ties this to what `flag_resolve` gives (`Laws`): whatever is evaluated is among what was read
//! off, a targeting that is told of as one that never gives a variant matches for nobody, and each evaluation that reaches
//! weights that are told of faults, or gives null where each is 0.
//!
//! # Regressions: what a later version of a document does to the flags of the one that counts now
//!
//! They are for whoever reads a document again while others ask for its flags.
//!
//! [`regression_in`] gives the first flag that is good now and broken later; or else the first name among the members of the later
//! text, however deep it stands, that is the key of a flag now and of none later. Such a text has the flag still, and in a place
//! where nobody reads it: behind a brace too many, or under a member `flags` that another one of the same name replaces. A flag
//! whose key the later text does not have was taken away on purpose.
//!
//! ```rust
//! use flag_defs::read_flags;
//! use flag_doubts::{Regression, regression_in};
//!
//! let now = read_flags(alloc, br#"{"flags":{"a":{"state":"ENABLED","variants":{"on":true}}}}"#)?;
//! let text = br#"{"flags":{"a":{"state":"ENABLED","variants":{}}}}"#;
//! let later = read_flags(alloc, text)?;
//! let Some(Regression::Broken(key)) = regression_in(alloc, &now, &later, text)? else {
//!     return Err("a flag is broken")?;
//! };
//! assert!(rt; key == "a");
//! ```
//!
//! Proved, over the definitions of `specs/`: it gives just that, and none where there is none (`regression_of`).
#![tactic(auto)]

mod broken;
mod definition;
mod doubled;
mod doubt;
mod doubting;
mod flags;
mod given;
mod laws;
mod lost;
mod reading;
mod regression;
mod repeated;
mod results;
mod truths;
mod weights;

pub use doubt::{Doubt, FlagDoubts};
pub use doubting::doubts_of;
pub use given::{Given, given_by};
pub use laws::doubts_are_of_evaluations;
pub use reading::{ReadDocument, read_with_names};
pub use regression::{Regression, regression_in};
pub use repeated::{Repeated, repeated_in};
pub use results::has_truth;
pub use truths::literal_truth;
pub use weights::{are_too_heavy, are_weightless, is_weightless};
