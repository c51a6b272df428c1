//! The threads of the evaluation service: workers that share an address, each with a log of its own where one is kept, and the
//! seats of its stream.
//!
//! [`open_logs`] opens the logs of the workers. [`bind`] listens on an address for the workers, and [`bind_stream`] on a port of
//! this host for the subscribers of the stream. [`work_beside`] runs a worker of `ofrep_worker` on a thread for each [`Post`],
//! over `ofrep_connections`, and serves the stream by `sync_server` on a thread for each of its seats, while its caller goes on
//! with what it has to do beside them; it tells the threads of each snapshot on their [`Board`]. [`bind_admin`] listens for those who
//! ask for operations, whom workers without a log answer on threads of their own, each behind an `AdminGuard` and a `ControlDesk`.
//!
//! What answers rest on is proved there: no byte of an answer is written to a socket before its notes stand in the log of the
//! worker, where it keeps one, and a subscriber is sent whole frames whose numbers rise. Here: where a folder is named each worker
//! keeps a log, of a path of its own; and what a worker does on its thread is turns, each a look for its log and then answers. What
//! files and sockets do with bytes, and that threads run, is not proved.
//!
//! # The console: one page for release engineers, with its style and script in it, and the policy by which a browser takes nothing else
//!
//! Proved, over the definitions of `specs/Page`: the page and its policy are these texts.
#![tactic(auto)]

mod admin;
mod board;
mod logs;
mod posts;
mod source;
mod streams;
mod subscriber;
mod workers;

pub use admin::{AdminPost, Operations, bind_admin};
pub use board::{Board, ConnectionLimits};
pub use logs::{Journal, log_bytes, log_trouble, open_logs};
pub use posts::{Post, bind};
pub use source::{page_html, page_policy};
pub use streams::bind_stream;
pub use workers::work_beside;
