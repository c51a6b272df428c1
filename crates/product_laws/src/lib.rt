//! Laws that join definitions of several crates, of which none knows the others.
//!
//! # That the option `--floats` changes nothing of a document whose numbers are all whole
//!
//! Each law says, over the definitions of the commands: on such documents what a command reports, prints or writes with the option
//! is what it may report without it, and the other way round.
//!
//! # What a rule takes the place of in a document are the items of the list in which the site's buckets stand
//!
//! [`what_is_replaced_is_read`] says, over the definitions of `specs/`: where a document is kept with a rule in the place of a
//! site's buckets, its tree has a list on the way to the site, and the bytes that are replaced begin with those of the list's
//! first bucket and end with those of its last item; by themselves they read as these items (`Replaced`).
//! [`what_is_replaced_with_floats_is_read`] says it of documents that may have floats.
//!
//! # That reading a document with floats changes nothing where its numbers are all whole
//!
//! [`documents_stay`] says, over the definitions of `specs/`, that such a document has one tree and one meaning however it is read,
//! that none of its flags has floats, and that a source takes it alike. [`frames_stay`] says the same of the documents in frames,
//! and [`whole_numbers_stay`] that a rule which is put into such a document makes another one. [`what_is_replaced_with_floats_is_read`] is
//! about documents that do have floats: what a rule takes the place of there reads as items of a list of the document's tree.
//!
//! # What a reader of a stream resolves is what the flags resolve that were sent
//!
//! [`streams_resolve_as_sent`] says, over the definitions of `specs/`: where frames of snapshots are fed, each snapshot that
//! comes out resolves each key, kind, default, context and moment as the first that was framed with its number (`Resolves`).
//!
//! # The bytes at the place of a value read as that value
//!
//! [`the_bytes_of_a_part_read_as_it`] says, over the definitions of `specs/`: where the value at a path stands in a JSON text,
//! its bytes are a JSON text by themselves, and its tree is the part of the text's tree at that path.
//!
//! # A plan made from a finished recording is optimal for the inputs that the workers recorded
//!
//! [`plan_sealed`] ends a shared book and plans on it. Proved, over `Recorded.HoldsOf` of `specs/`: the rule that it gives fits
//! the request and costs the inputs that the seats were told on the page of the request's site, each counted once, the least
//! of all rules that fit; or no rule fits. [`plans_hold_of_what_was_recorded`] says the same of `book_lock::seal` and
//! `rollout::plan` called apart, and of a book that `book_share::drive` gives: its plan is least over the inputs that the asks
//! reached, where no page was full.
//!
//! ```rust
//! use book_lock::{BookName, Seat, SharedBook};
//! use flag_defs::Flags;
//! use plan_text::Planned;
//! use product_laws::plan_sealed;
//!
//! fn planned<L: BookName, R: Threads + Sync>(
//!     rt: &R, alloc: Global, flags: &Flags, book: SharedBook<L>, seats: Vec<Seat<L>>,
//! ) -> Result<Planned, Fail> {
//!     let request = br#"{"plan":1,"flag":"color","totals":{"red":3,"blue":7}}"#;
//!     Ok(plan_sealed(rt, alloc, flags, request, book, seats).map_err(|_| "no plan")?)
//! }
//! ```
#![tactic(auto)]

mod float_laws;
mod kept_laws;
mod laws;
mod part_texts;
mod planning;
mod sealed_plans;
mod stream_laws;

pub use float_laws::{documents_stay, frames_stay, whole_numbers_stay};
pub use kept_laws::{what_is_replaced_is_read, what_is_replaced_with_floats_is_read};
pub use laws::{
    floats_change_no_command, floats_change_no_evaluation, floats_change_no_filter,
    floats_change_no_kept_rule, floats_change_no_picture, floats_change_no_ramp,
    floats_change_no_ramp_remark, floats_change_no_remark, floats_change_no_rollout,
};
pub use part_texts::the_bytes_of_a_part_read_as_it;
pub use planning::{PlanRefused, plan_sealed};
pub use sealed_plans::plans_hold_of_what_was_recorded;
pub use stream_laws::streams_resolve_as_sent;
