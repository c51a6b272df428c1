//! What stands around a service: the date of its answers, counts of its requests, and a line for each.
//!
//! # Answers that have their date, and of which is counted how long they take
//!
//! A [`Dated`] stands before a service and adds the field `Date` to each of its answers (RFC 9110, 6.6.1). The date is that of the
//! second in which it last looked, so that it is made at most once a second and no answer reads the calendar. It counts how long
//! each answer takes, and adds that up where it looks.
//!
//! Proved, over the definitions of `specs/`: an answer is that of the service with the one field more, which shows the second that
//! is held (`Dates`), and what the service's answers rest on stands as before (`Stands`).
//!
//! # Services whose answers rest on something that stands before they are given
//!
//! A [`Recording`] service says of each of its answers what it rests on, such as a record of it in a log. That stands once it
//! answers, and whatever it answers later. Proved (`proofs/Standing.antt`): after any calls, it stands for each of them.
//!
//! # What a service counts of its connections and requests, as text for Prometheus
//!
//! The workers of a service share a [`Traffic`]: how many requests were answered with each status, how long they took, how many
//! connections are open, and how many were closed for what reason. How long answers take each worker counts for itself, in
//! [`Times`], and adds that up from time to time, so that workers do not hand a number round at each request.
//!
//! ```rust
//! traffic.count_status(431);
//! times.count(Duration::from_micros(180));
//! traffic.add_times(&mut times);
//! traffic.push(&mut text)?;    // # HELP ofrep_requests_total ..
//! ```
//!
//! Proved: that this is safe and takes no memory but for the text. The numbers are for people, and no clause says what they are.
//!
//! # A line of JSON for each request that was answered
//!
//! It says when the request came, its method and path, the status of its answer, how long that took, and the trace that it belongs to,
//! where it names one.
//!
//! A [`LoggedService`] stands around a service and answers just as it does. It keeps the lines of its own until it looks, and then
//! hands them to the [`AccessLines`] of all workers, whose [`WaitingLines`] the program takes and writes. So no answer waits for an
//! output.
//!
//! Proved, over the definitions of `specs/`: a line is `line_of` what was seen of the request; the service's answers, and what they
//! rest on, are those of the one inside; what is taken are all lines that were added, and those that are left out, where memory runs
//! out or more than 16 MB wait, are counted. That a line is written, and what a lock holds, is not.
#![tactic(auto)]

mod access;
mod counts;
mod date;
mod dated;
mod families;
mod line;
mod lines;
mod logged;
mod recording;
mod statuses;
mod times;
mod trace;
mod waiting;

pub use counts::{Closing, Traffic};
pub use date::{date_at, second_of};
pub use dated::Dated;
pub use families::{Kind, begin_family};
pub use lines::AccessLines;
pub use logged::LoggedService;
pub use recording::Recording;
pub use times::Times;
pub use waiting::WaitingLines;
