//! The commands on rollouts, `plan`, `verify` and `apply`, over whatever files they are given: each is one function from the files
//! and its words to its whole output or its refusal.
//!
//! ```rust
//! use flagops_files::SystemFiles;
//! use flagops_rollouts::plan;
//!
//! let mut files = SystemFiles::new(&rt);
//! match plan(&rt, alloc, &mut files, "flags.json", false, "request.json", "book.jsonl", None, false, false) {
//!     Ok(outcome) => print_all(&rt, outcome.text.as_slice())?,
//!     Err(refused) => print!(rt; "{}", refused.refusal.line(alloc)?)?,
//! }
//! ```
//!
//! A [`RolloutRefusal`] says why a command is refused, and has the line that it is written as.
//!
//! Proved: what a command comes to is what its definition (`specs/Plan.antt`, `Verify`, `Apply`, `Keep`) gives over the files, unless
//! memory ran out. `plan` and `verify` answer on a tally as on the book whose inputs it counts ([`tallies_answer_as_books`]). What
//! is doubted of an answer is told, or refused with `--strict` (`specs/Doubts.antt`), and so is what the printed form of a document
//! leaves out (`specs/Omitted.antt`). What a person is told of a refusal begins with the path or the word that was refused
//! (`specs/Subjects.antt`). How a document is read, as one that may have floats or may not, stands before the files in each definition.
#![tactic(auto)]

mod applying;
mod beside;
mod by_hand;
mod doubts;
mod explained;
mod finer;
mod keep_refusal;
mod keeping;
mod kept;
mod laws;
mod loading;
mod omitted;
mod passed_over;
mod payload;
mod planning;
mod recorded;
mod refusal;
mod standing;
mod verifying;

pub use applying::{applied, apply};
pub use beside::{behind, joined};
pub use doubts::{NotedDoubt, remark_in};
pub use finer::{times_asked, with_points};
pub use keep_refusal::KeepRefusal;
pub use keeping::{keep, put as put_document};
pub use kept::kept_at as document_with_rule;
pub use laws::{printed_plans_are_valid, tallies_answer_as_books, unread_members_are_passed_over};
pub use loading::{load_planned, store};
pub use passed_over::{repeated, unread, unread_in_file, with_more};
pub use payload::verify_items;
pub use planning::{answer as plan_answer, plan};
pub use recorded::{doubt_in_book, doubt_in_evidence};
pub use refusal::{Doubt, Refused, RolloutCall, RolloutRefusal, is_want_of_verify, out_of_memory};
pub use standing::has_rule;
pub use verifying::verify;
