//! Rollouts on bytes: for an application that records note lines with the library, and plans a rollout on them in its own process.
//!
//! Each call takes the bytes of the files that the program's command of its name takes, and no file. [`tally`] counts the note
//! lines that are of a request's page, [`plan`] answers the request over the tally, [`verify`] checks an answer, whoever made
//! it, and [`apply`] puts the rule of a right answer into the document, with all else as it was.
//!
//! ```rust
//! use library_rollouts::{apply, plan, tally};
//!
//! tally(alloc, document, request, notes, &mut counts, &mut counts_len)?;
//! let fits = plan(alloc, document, request, &counts[..counts_len], &mut answer, &mut answer_len)?;
//! if fits {
//!     apply(alloc, document, request, &counts[..counts_len], &answer[..answer_len], &mut text, &mut text_len)?;
//! }
//! ```
//!
//! Proved, over the definitions of `specs/`: what is written into the room is the text that the same bytes stand for
//! (`Tally`, `Plan`, `Apply`), or the length that is wanted is told (`Writing`), or the first refusal of the bytes is given, in the
//! order of the files (`Reading`). An answer that is planned over a tally costs all inputs of which so many fall on each point the
//! least, or none fits; [`verify`] accepts exactly what is right (`Verify`). After a refusal nothing else has changed.
#![tactic(auto)]

mod applying;
mod place;
mod planning;
mod refusal;
mod tallying;
mod target;
mod verifying;
mod writing;

pub use applying::apply;
pub use planning::plan;
pub use refusal::RolloutRefusal;
pub use tallying::tally;
pub use verifying::verify;
