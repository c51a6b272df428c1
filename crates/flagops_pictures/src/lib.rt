//! The commands that draw the plan of a rollout: `picture` one plan, `picture --ramp` those of its steps, and `plan --picture` the
//! plan that it prints.
//!
//! [`Picturing`], [`PicturingRamp`] and [`Planning`] are commands with their words, which `flagops_shell::run` reads by `clap`, does
//! and reports. `picture` loads what a rollout is asked over and the plan, checks it as `verify` does, and prints its picture as SVG;
//! `picture --ramp` does so with the answers to steps, as `verify-ramp` does; `plan --picture` prints what `plan` prints, and
//! replaces a file whole by the picture of it. What is doubted of an answer that is drawn is told beside its picture. What was
//! recorded is a book or a tally of the request's page, as the file has it (`flagops_files::Evidence`).
//!
//! ```rust
//! use flag_text::WriteOutlet;
//! use flagops_files::SystemFiles;
//! use flagops_pictures::Picturing;
//! use flagops_shell::{Console, run};
//!
//! let words = ["picture", "flags.json", "request.json", "book.jsonl", "plan.json"];
//! let mut console = Console::new(WriteOutlet::new(rt.stdout()), WriteOutlet::new(rt.stderr()));
//! let status = run::<_, _, _, Picturing<'_>, _, _>(&rt, words.as_slice(), &mut SystemFiles::new(&rt), &mut console);
//! ```
//!
//! Proved of each command (`specs/Commands.antt`): over files whose bytes are known it comes to what the files at the paths make
//! (`Pictured`, `Ramps`, `Planning`), unless memory ran out; a file that could not be read or written is what it is refused for; only
//! `plan --picture` changes a file, the one that it is to write, and only where the plan is printed; and a person is told of a refusal by
//! the file or the word that was refused, of `picture` and `plan --picture` by the first that was (`Diagnostics`). `flagops_shell` has
//! what is then written. A picture on a tally is one on the book whose inputs it counts ([`tallies_draw_as_books`]).
#![tactic(auto)]

mod asked;
mod checking;
mod command;
mod doubts;
mod drawing;
mod laws;
mod loading;
mod planning;
mod ramps;
mod usage;
mod words;

pub use asked::{Picturing, PicturingRamp, Planning};
pub use laws::tallies_draw_as_books;
