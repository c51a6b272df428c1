//! Flags from several documents, by priority.
//!
//! [`Sources`] are named in the order in which they were added; each keeps the document that it last accepted. Their merge
//! has, key by key, the whole entry of the latest added source that has the key: a broken entry of a later source hides a
//! good one of an earlier source, and no entry is mixed of two.
//!
//! ```rust
//! use source_merge::Sources;
//!
//! let mut sources = Sources::new(alloc);
//! sources.add(alloc, "base")?;
//! sources.add(alloc, "team")?;
//! let enabled = br#"{"flags":{"color":{"state":"ENABLED","variants":{"x":"y"},"defaultVariant":"x"}}}"#;
//! sources.set(alloc, "base", enabled)?;
//! sources.set(alloc, "team", br#"{"flags":{"color":{"state":"DISABLED","variants":{"x":"y"}}}}"#)?;
//! assert!(rt; sources.merged(alloc)?.get("color").is_some_and(|color| !color.enabled()));
//! sources.clear("team")?;
//! assert!(rt; sources.merged(alloc)?.get("color").is_some_and(|color| color.enabled()));
//! ```
//!
//! What is proved, over the definitions in `specs/`:
//! - [`Sources::add`], [`Sources::set`] and [`Sources::clear`] leave the sources that the definitions name (`Sources`), or
//!   refuse in their order and leave all as it was. A refused document leaves the last accepted one.
//! - [`Sources::merged`] gives the merge (`Merge`) within the limits of `Flags`, or TooLarge.
//! - [`a_merge_has_the_latest_entries`] is the law that the merge has at each key what the latest source with the key has.
#![tactic(auto)]

mod choice;
mod fault;
mod laws;
mod sources;

pub use fault::SourceFault;
pub use laws::a_merge_has_the_latest_entries;
pub use sources::Sources;
