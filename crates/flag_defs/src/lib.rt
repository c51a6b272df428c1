//! Flag documents: the definitions of flags, what they mean with their references to shared evaluators, and how they are printed.
//!
//! [`read_flags`] reads a document, [`print_flags`] writes one. [`Flags`] are flags by their keys, which rise strictly; by
//! their type they keep both limits, and each of them can be printed. A [`Flag`] is broken, or has its state, variants, default
//! variant and targeting; [`definition_errors`] tells why each broken one is.
//!
//! ```rust
//! use flag_defs::{Flag, read_flags};
//!
//! let document = br#"{"flags":{
//!     "off": {"state": "DISABLED", "variants": {"on": true}, "defaultVariant": "on"},
//!     "half": {"state": "ENABLED", "variants": {"a": 1.5}, "defaultVariant": "a"}}}"#;
//! let flags = read_flags(alloc, document)?;
//! assert!(rt; flags.len() == 2 && flags.get("half").is_some_and(Flag::is_broken));
//! assert!(rt; flags.get("off").and_then(Flag::default_variant) == Some("on"));
//! ```
//!
//! What is proved, over the definitions in `specs/`:
//! - [`read_flags`] answers what the bytes mean (`Document`), each refusal at its place in the order, unless memory runs out
//!   (`Entries`). A definition means one thing (`Definition`): it is good with its rules, or broken where there are none. Its
//!   targeting is read with all references replaced (`flag_references`); where a reference names nothing or leads back to
//!   itself, the flag is broken. [`a_document_has_one_meaning`] is the law that makes this exact.
//! - Before a targeting is expanded it is known whether it breaks its flag, and in how many bytes all of them together are
//!   printed at least; whatever expands asks for that sum within the limit (`Targeting`, `Weighing`).
//! - [`print_flags`] writes `printed` (`Document`): keys sorted, targetings inlined, a broken flag as `{}`. What it writes
//!   is a document that means these flags.
//! - [`definition_errors`] tells of each definition the first rule that it breaks (`DefinitionError`). Each reader of a flag gives the part that
//!   it names (`Flag`), and [`Flag::with_site`] the flag with other entries at one site and all else as it was (`Changes`). The
//!   rules of each good flag can be printed and read again (`Rules`).
//! - [`Flags::get`] gives what is looked up, [`Flags::make`] the map of its list, [`Flags::copied`] copies of flags that
//!   others hold, weighed first (`Lent`).
#![tactic(auto)]

mod bounded;
mod copy;
mod definition;
mod definition_error;
mod described;
mod document;
mod entries;
mod fault;
mod find;
mod flag;
mod flags;
mod forecast;
mod kind;
mod laws;
mod lent;
mod make;
mod marks;
mod members;
mod outline;
mod parts;
mod print;
mod printed_bytes;
mod rules;
mod site;
mod sort;
mod spelled;
mod targeting;
mod write;
mod written_bytes;

pub use definition_error::{DefinitionError, definition_errors};
pub use document::{read_flags, read_flags_as, read_flags_with_floats};
pub use fault::DefFault;
pub use flag::Flag;
pub use flags::Flags;
pub use kind::Kind;
pub use laws::{a_document_has_one_meaning, floats_change_nothing, printed_floats_read_back};
pub use print::print_flags;
pub use spelled::{print_flags_with_floats, push_spelled};
