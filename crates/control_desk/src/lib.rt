//! The desk of a listener for operations: a service that answers the calls on rollouts, and leaves all else to the service behind it.
//!
//! A [`ControlDesk`] is a `Service` of `http_server`. A guard has judged by then who asks (`ofrep_guards`). The desk reads the newest
//! snapshot that its seat knows and, where a call is on what is recorded, the log files of a folder ([`DeskFiles`]), and hands both to
//! `control_answers`. One desk at a time reads and plans, as they share a turn ([`DeskPost`]); what is known of documents beside their
//! flags is set by who publishes these ([`PublishedSources`]), together with what had been published by then.
//!
//! ```rust
//! let post = DeskPost::new(rules);
//! let page = ConsolePage { text: PAGE, policy };
//! let mut desk = ControlDesk::new(rt, alloc, &post, &sources, page, &is_stopping, keys, seat, SystemDeskFiles::new(rt), worker);
//! desk.call(&request, &mut response)?;
//! ```
//!
//! Proved, over the definitions of `specs/`: what is routed where (`Route`); each answer is that of
//! `control_answers` to the call, on the flags of the snapshot that was read and on the bytes of the files that were (`Answers`); these
//! are all files of the folder that are logs, where what it holds is known (`Logs`); and what is applied was found right on them, where
//! the document's file still held the text of that snapshot, and was noted before (`Apply`). Where the desk answers, the service behind
//! it stays as it was.
#![tactic(auto)]

mod applying;
mod asked;
mod calling;
mod desk;
mod files;
mod giving;
mod held;
mod logs;
mod names;
mod obstacles;
mod page;
mod post;
mod refusing;
mod reply;
mod route;
mod rules;
mod serving;
mod sources;
mod system;
mod telling;
mod turn;

pub use desk::ControlDesk;
pub use files::DeskFiles;
pub use page::ConsolePage;
pub use post::DeskPost;
pub use rules::DeskRules;
pub use sources::{PublishedSources, ShownText, SourceText};
pub use system::{DeskPaths, SystemDeskFiles};
