//! The answers of the OpenFeature Remote Evaluation Protocol, below any socket.
//!
//! [`answer_to`] says what a [`Request`] is answered of flags at a moment: an [`Answer`] with its status, its fields, its body,
//! the hash inputs that the evaluations reached, and how many ended with which of the [`Reasons`]. It changes nothing, and the same arguments have the same answer. [`answer_to_with`] reads bodies in room that its caller keeps, and [`answer_with_metadata`] answers with the metadata of documents and flags, too.
//!
//! Proved, over the definitions of `specs/`: the answer is what `Answer` says, over what a flag resolves to (`Evaluation`) for
//! a caller who takes the kind of its variants (`Kind`), unless memory runs out. What evaluates no flag takes no
//! memory. No flag is evaluated for another kind than that of its variants, and the value of a flag with floats is printed by its
//! spelling (`Law`). Where there is no metadata the answers are as before there was any
//! ([`metadata_changes_nothing`]). Of the reasons' numbers nothing is said.
//!
//! # The evaluation context that a request of the OpenFeature Remote Evaluation Protocol carries
//!
//! [`read_context`] reads it from the body of a request: the object that is its member `context`.
//!
//! Proved, over the definitions of `specs/Context`: the context is what the bytes of the body mean, each refusal at its place
//! in the order, unless memory runs out; what takes no memory is answered without any.
//!
//! # The bodies of the answers of the OpenFeature Remote Evaluation Protocol
//!
//! [`status_of`] and [`evaluation_text`] are the status and the text of the body of a flag's evaluation, [`flags_text`] is the text of
//! the body of every flag's, and [`failure_body`] the body of a request for every flag that fails as a whole. Their members are
//! sorted.
//!
//! ```rust
//! use flag_resolve::Code;
//! use flag_text::print_tree;
//! use ofrep_answers::failure_body;
//!
//! let body = failure_body(alloc, None, Code::ParseError, "the body is not valid JSON")?;
//! assert!(rt; print_tree(alloc, &body)?.as_str()
//!     == r#"{"errorCode":"PARSE_ERROR","errorDetails":"the body is not valid JSON"}"#);
//! ```
//!
//! Proved, over the definitions of `specs/`: each body is the tree or text that its definition gives (`Bodies`, `EvaluationBody`), unless
//! memory runs out; a status is exact and takes no memory. Where no value stands as a text that is its spelling, and
//! there is no metadata, the texts are the compact texts of the bodies ([`texts_are_of_bodies`]).
#![tactic(auto)]

mod answer;
mod answers;
mod body_laws;
mod context;
mod context_laws;
mod deep;
mod details;
mod evaluation;
mod evaluation_body;
mod every;
mod failure;
mod fault;
mod kind;
mod laws;
mod near;
mod one;
mod reads;
mod reasons;
mod request;
mod text;
mod way;

pub use answer::{Answer, Content, FlagReached};
pub use answers::{answer_to, answer_to_with, answer_with_metadata};
pub use body_laws::texts_are_of_bodies;
pub use context::{MAX_BODY, read_context, read_context_with};
pub use context_laws::refused_contexts_have_ways;
pub use details::details_in;
pub use evaluation_body::status_of;
pub use failure::{code_of, code_status, details_of, failure_body};
pub use fault::ContextFault;
pub use laws::{floats_are_spelled, metadata_changes_nothing, no_evaluation_mismatches};
pub use reasons::Reasons;
pub use request::Request;
pub use text::{evaluation_text, flags_text};
