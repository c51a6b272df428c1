//! What a request of the OpenFeature Remote Evaluation Protocol asks for, and the entity tags that it names.
//!
//! [`Place::of`] says what the path of a request leads to, and [`Place::method`] the one method that is taken there;
//! [`key_in`] reads the key of the flag that a path asks for.
//!
//! Proved, over the definitions of `specs/Request`: all three answers are exact, the key's unless memory runs out; the others take none.
//!
//! # Entity tags of HTTP (RFC 9110, 8.8.3), made of the bytes that they stand for
//!
//! [`opaque_tag`] makes the tag of a representation, [`entity_tag`] spells it as the field `ETag` has it, and [`is_listed`] says
//! whether a field `If-None-Match` names it.
//!
//! Proved, over the definitions of `specs/Tag`: all three answers are exact, those that make a text unless memory runs out.
#![tactic(auto)]

mod key;
mod listed;
mod place;
mod tag;

pub use key::key_in;
pub use listed::is_listed;
pub use place::Place;
pub use tag::{entity_tag, opaque_tag};
