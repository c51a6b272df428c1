//! The metadata of flag documents: what they and their flags say of themselves beside their definitions.
//!
//! [`Metadata`] is read from the bytes of documents, of which the latest is the last. A flag is described by the members of the
//! latest document that has it and by its own, which win over those of the same name.
//!
//! ```rust
//! use flag_metadata::Metadata;
//!
//! let text = br#"{"metadata":{"team":"web","level":1},"flags":{"color":{"metadata":{"level":2.50}}}}"#;
//! let mut metadata = Metadata::none(alloc);
//! let broken = metadata.add(alloc, text)?;
//! let mut out = String::new(alloc);
//! metadata.push_flag(alloc, &mut out, "color")?;
//! assert!(rt; !broken.document && out.as_str() == r#"{"level":2.50,"team":"web"}"#);
//! ```
//!
//! Proved, over the definitions of `specs/`: which members a document and each of its flags have, each with the text of its value,
//! in which a number is spelled as in the document (`Spelled`, `Document`); which are broken, since a value is no boolean, number or
//! text; and the texts that are printed for a flag, and for all documents together (`Merged`). Documents without any have
//! none ([`bare_documents_have_no_metadata`]). Where memory runs out nothing is added.
#![tactic(auto)]

mod document;
mod laws;
mod member;
mod merged;
mod object;
mod read;

pub use document::{Broken, DocumentMetadata};
pub use laws::bare_documents_have_no_metadata;
pub use member::Member;
pub use merged::Metadata;
