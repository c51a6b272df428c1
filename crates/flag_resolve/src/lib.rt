//! Resolution of flags, with the reasons and error codes of OpenFeature.
//!
//! [`resolve`] answers what the flag of a key is for a caller who asks for a [`Kind`] of value in an evaluation context:
//! a [`Resolution`] with the value of one of the flag's variants or else the caller's default, OpenFeature's
//! [`Reason`] and [`Code`], and the sites of `fractional` operations that the evaluation reached. It changes nothing, and
//! the same arguments have the same answer.
//!
//! ```rust
//! use flag_defs::read_flags;
//! use flag_resolve::{Kind, print_resolution, resolve};
//! use flag_text::{Tree, read_tree};
//!
//! let document = br#"{"flags":{"te":{"state":"ENABLED","variants":{"red":1,"blue":2},"defaultVariant":"red",
//!     "targeting":{"fractional":[["red",50],["blue",50]]}}}}"#;
//! let flags = read_flags(alloc, document)?;
//! let context = read_tree(alloc, br#"{"targetingKey":"st"}"#, 1000)?;
//! let resolution = resolve(alloc, Some(&flags), "te", Kind::Whole, &Tree::Whole(9), &context, 0)?;
//! assert!(rt; print_resolution(alloc, &resolution)?.as_str()
//!     == r#"{"code":null,"reached":[[0,"test",100]],"reason":"TARGETING_MATCH","value":2,"variant":"blue"}"#);
//! ```
//!
//! Proved, over the definitions of `specs/`: each answer is that of the first of ten cases that applies
//! (`Resolution`), over what `logic_eval` says that an evaluation gives; whatever the case, a code stands with the
//! reason ERROR alone, a value of a variant is of the wanted kind, and another value is the caller's default
//! (`Lawful`); another targeting that is evaluated to the same value changes no more than what is reached (`Alike`);
//! a resolution's value can be printed, and the text of a resolution (`Printing`).
#![tactic(auto)]

mod asked;
mod cases;
mod code;
mod floats;
mod laws;
mod print;
mod reason;
mod resolution;

pub use cases::resolve;
pub use code::Code;
pub use flag_defs::Kind;
pub use floats::{floats_in, is_spelled, resolve_with_floats};
pub use laws::{floats_are_of_their_kind, the_same_value_resolves_alike};
pub use print::{print_resolution, push_resolution, push_resolution_spelled};
pub use reason::Reason;
pub use resolution::Resolution;
