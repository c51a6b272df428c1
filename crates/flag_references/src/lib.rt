//! References to the shared evaluators of a document: what a tree is once they are replaced, how large it then is, and whether it
//! is read as an expression, known before any is replaced.
//!
//! [`Evaluators::read`] measures the evaluators of a document, each over the measures of those that it refers to. From then on
//! [`Evaluators::measure_of`] says of a tree whether it has an inlined form, and the [`Measure`] of that form, in time linear in
//! the tree as it stands, [`Evaluators::end_of`] follows references to the tree at their end, and [`expand`] makes the form
//! itself out of a tree whose form has few enough levels: in place, so that only what stands for a reference is copied. A chain
//! of references costs no recursion. [`misuse_place`] says in which part of a tree as it stands the first operation is that is
//! wrong in itself.
//!
//! Proved, over the definitions in `specs/`: a tree has an inlined form where no reference in it names nothing or leads back to
//! itself (`Inlining`); whether it has one, and its measure: nodes and levels as an expression, whether it is one, and in how
//! many bytes it is printed at least (`Measure`, `Readable`, `Least`); what is expanded is that form (`Forms`). Without
//! references there is a place exactly where an expression has a fault, and the fault is that of the operation there
//! (`Misplaced`, [`a_fault_has_a_place`]).
#![tactic(auto)]

mod ends;
mod expansion;
mod extent;
mod forms;
mod inlined_measure;
mod laws;
mod measure;
mod misplaced;
mod references;
mod table;
mod walk;

pub use expansion::expand;
pub use laws::a_fault_has_a_place;
pub use measure::{Measure, Reading, capped, plus};
pub use misplaced::{MisusePlace, misuse_place};
pub use references::reference_of;
pub use table::Evaluators;
