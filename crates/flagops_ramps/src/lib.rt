//! The commands on a rollout in steps: `ramp` plans each step on the rule that the step before left, `verify-ramp` checks the
//! answers apart from the planner, and `apply --step` gives the document with the rule that a step left; with `--keep` nothing
//! else of its text is changed, and the answers from that step on have to be right for the document.
//!
//! [`Ramping`], [`Verifying`], [`Applying`] and [`Keeping`] are commands with their words, which `flagops_shell::run` reads by `clap`, does and
//! reports. What they do with the files that they load is `ramp`. [`load_answers`] loads and judges the answers
//! that a command takes, also one that draws them.
//!
//! ```rust
//! use flag_text::WriteOutlet;
//! use flagops_files::SystemFiles;
//! use flagops_ramps::Ramping;
//! use flagops_shell::{Console, run};
//!
//! let words = ["ramp", "flags.json", "steps.json", "book.jsonl"];
//! let mut console = Console::new(WriteOutlet::new(rt.stdout()), WriteOutlet::new(rt.stderr()));
//! let status = run::<_, _, _, Ramping<'_>, _, _>(&rt, words.as_slice(), &mut SystemFiles::new(&rt), &mut console);
//! ```
//!
//! The steps are planned and judged on a book or on a tally of their page, as the file has it (`flagops_files::Evidence`).
//!
//! Proved of each command (`specs/Commands.antt`): over files whose bytes are known it comes to what the files at the paths make
//! (`Ramp`, `Judging`, `Verify`, `Apply`, `Keep`), unless memory ran out; a file that could not be read is what it is refused
//! for; files are only read, but for the document that `apply --step --keep --write` writes, and no other; what `ramp` prints reads back as the answers, and `verify-ramp` tells of it that they are valid
//! ([`printed_ramps_are_valid`]); and a person is told of a refusal by the file or the step that was refused, and beside a report of what is doubted
//! of the answers to steps (`Diagnostics`, `Doubts`). `flagops_shell` has what is then written.
#![tactic(auto)]

mod applying;
mod asked;
mod doubts;
mod judging;
mod keeping;
mod laws;
mod misplaced;
mod ramping;
mod refusal;
mod remarks;
mod sums;
mod usage;
mod verifying;
mod words;

pub use asked::{Applying, Keeping, Ramping, Verifying};
pub use doubts::{doubted, first_of};
pub use judging::{RightAnswers, load_answers, out_of_memory};
pub use laws::printed_ramps_are_valid;
pub use refusal::{RampRefusal, StepCall};
pub use usage::with_steps;
pub use words::verifying_in;
