//! Streams of snapshots: the commands `serve`, which publishes flag documents to its subscribers, and `follow`, which prints what
//! it is sent.
//!
//! [`serve`] and [`follow`] take the words after the program's name, of which their own name is the first, and a console,
//! `serve` files too, as `flagops_shell::run` does for every other command. They read the words by `clap` and load the
//! files. [`serve_documents`] and [`follow_port`] do what is asked: they alone are handed the network and threads. What they do is
//! - [`follow_lines`], over any inlet and outlet: the line of each snapshot when it has come, and at the end why;
//! - a thread for each subscriber that runs `serve_stream` over its seat, and the numbers that the publisher puts on a board.
//!
//! ```rust
//! use flag_text::WriteOutlet;
//! use flagops_files::SystemFiles;
//! use flagops_shell::Console;
//! use flagops_streams::serve;
//!
//! let words = ["serve", "8013", "2", "flags.json"];
//! let mut console = Console::new(WriteOutlet::new(rt.stdout()), WriteOutlet::new(rt.stderr()));
//! let status = serve(&rt, words.as_slice(), &mut SystemFiles::new(&rt), &mut console);
//! ```
//!
//! Proved of [`follow_lines`]: what is on the output are the lines of all snapshots that are whole in the bytes read, and a
//! last line that says how these ended, with its status; or a front of that with status 1 where the output failed
//! (`Printed`). Of [`serve_documents`]: its answer is one that the documents make, their number or the refusal of the first that
//! is not accepted, or a refusal of the network, the threads or memory (`Documents`); it is written as one line (`Report`).
//! What was published are the merges of the documents, in order.
//!
//! Proved of the commands, over words and paths (`Ended`): of words with a mistake, that it is told; of `serve`, that the output
//! is one line, which the documents at these paths make, and which one where a file can't be read, and that files are only read;
//! of `follow`, that the output is the lines of the snapshots of some stream and how it ended, or that nobody listens.
//!
//! What is told a person on the error outlet changes nothing of this. Where there is a refusal, it is told why (`Why`); else
//! nothing is told but that documents will be refused and that subscribers come and go, by `serve`, and that nothing came, by
//! `follow` (`Told`). A document is told of by the path of its file.
#![tactic(auto)]

mod arrivals;
mod asked;
mod board;
mod disconnected;
mod documents;
mod follow_command;
mod following;
mod loading;
mod news;
mod numbers;
mod parting;
mod refusal;
mod remark;
mod report;
mod serve_command;
mod serving;
mod standard;
mod subscriber;
mod timed;
mod timely;
mod usage;
mod words;

pub use documents::{Documents, merge_next};
pub use follow_command::follow;
pub use following::{follow_lines, follow_port};
pub use loading::{Unloaded, loaded};
pub use refusal::Refusal;
pub use remark::{say, say_refused};
pub use report::{refuse, write_line};
pub use serve_command::serve;
pub use serving::serve_documents;
pub use standard::open_standard;
