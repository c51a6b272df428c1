//! Rollouts from a running service, below its sockets: what is answered of a snapshot, of requests, and of the bytes of log files.
//!
//! A service that answers flag evaluations notes in log files what it has answered. [`record_answer`] tallies what they hold of a
//! site's page, and [`site_counts`] counts what they hold at every site. [`plan_answer`] plans a request on the tally, and says who
//! would switch beside the edit that comes to mind first, and [`check_answer`] checks an answer, whoever made it; [`apply_answer`]
//! checks the plan of a token once more, and puts its rule into the document; [`history_row`] and [`history_answer`] write and tell
//! what was applied. [`document_tag`] is the tag of a snapshot's document. None opens a file or a socket: whoever calls hands over
//! the bytes.
//!
//! ```rust
//! use control_answers::{Snapshot, plan_answer};
//! use note_streams::LogFile;
//!
//! let snapshot = Snapshot { number: 3, document, flags: &flags };
//! let files = [LogFile { name: "worker-1.log", bytes: first }, LogFile { name: "worker-2.log", bytes: second }];
//! let body = plan_answer(alloc, &snapshot, request, files.as_slice())?;
//! ```
//!
//! Proved, over the definitions of `specs/`: each body is the text of what the same snapshot, request
//! and files stand for (`Record`, `Check`, `Plan`, `Apply`), or the first refusal, by the number and the name of the command that
//! refuses so (`Refusal`); what needs no memory is refused even where none is left. A plan is one on just the inputs whose note lines
//! stand in the files, each counted once, and costs these the least of all that fit, or none fits; where the notes are without
//! inputs, on all that have just the hashes of the files, no two of them one ([`answers_plan_the_record`], `Law`). A token is
//! applied to the very document that it was made for, by a plan that is right on what the files hold now, and where nothing is
//! doubted (`Doubts`); then the document has the plan's rule, and is else as it was (`Kept`). So what is checked and what is applied
//! costs just the recorded inputs the least of all that fit ([`right_plans_are_of_the_record`]). Each site is told how many notes the
//! files hold of its page (`SiteCounts`).
//!
//! # What a plan does, beside what it costs
//!
//! Which of the recorded inputs get another variant, how many the edit that comes to mind first would switch, and a picture of that.
//!
//! [`posed`] gives again what was asked of a tally that has been planned, [`effect_of`] what the answer does to the inputs of the
//! tally, and [`picture_of`] draws it.
//!
//! Proved, over the definitions of `specs/`: the switches are those of all inputs of which so many fall on each point, each change of
//! name listed once, beside those of the edit that comes to mind first (`Effect`); the picture has the runs and the switches of these
//! (`Picture`).
#![tactic(auto)]

mod applying;
mod body;
mod changing;
mod checking;
mod counting;
mod doubting;
mod drawing;
mod effect;
mod history;
mod holding;
mod laws;
mod place;
mod planning;
mod posing;
mod question;
mod recording;
mod refusal;
mod snapshot;
mod target;
mod texts;
mod token;

pub use applying::{Applied, apply_answer};
pub use checking::check_answer;
pub use counting::site_counts;
pub use drawing::picture_of;
pub use effect::{Effect, effect_of};
pub use history::{AppliedRow, history_answer, history_row};
pub use holding::{DocumentTag, document_tag};
pub use laws::{answers_plan_the_record, right_plans_are_of_the_record};
pub use planning::plan_answer;
pub use posing::posed;
pub use recording::record_answer;
pub use refusal::ControlRefusal;
pub use snapshot::Snapshot;
