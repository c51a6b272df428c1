//! The command `ofrep`: flag documents answered to clients of the OpenFeature Remote Evaluation Protocol, over HTTP.
//!
//! [`ofrep`] takes the words after the program's name, of which its own name is the first, files and two outlets. It reads the
//! words by `clap`, loads the documents as `serve` does, opens the logs and listens; workers of `ofrep_service` then answer from
//! the current snapshot, while the documents are read again and what they have become is published.
//!
//! ```rust
//! use flag_text::WriteOutlet;
//! use flagops_files::SystemFiles;
//! use flagops_service::ofrep;
//!
//! let words = ["ofrep", "--log", "log", "flags.json"];
//! let mut out = WriteOutlet::new(rt.stdout());
//! let mut err = WriteOutlet::new(rt.stderr());
//! let status = ofrep(&rt, words.as_slice(), &mut SystemFiles::new(&rt), &mut out, &mut err);
//! ```
//!
//! Proved, over the definitions in `specs/`: of words with a mistake, that it is told; else that the output is one line, the
//! number of the documents that the words name or a refusal, and which one the documents at these paths make. A refusal is told
//! on the error outlet too.
#![tactic(auto)]

mod asked;
mod boards;
mod command;
mod describing;
mod document_texts;
mod host;
mod keys;
mod log_news;
mod merging;
mod preparing;
mod remembering;
mod reporting;
mod rereading;
mod resident;
mod sizes;
mod stop;
mod taking;
mod telling;
mod unbound;
mod usage;
mod watched;
mod watching;
mod words;

pub use command::ofrep;
pub use host::Host;
