//! How many inputs an edit of a rule gives another name: of two rules, of two documents, and as a table.
//!
//! A switch is an input that two rules give different names. [`Counting`] counts the inputs of two rules in one pass, whatever
//! their totals, and says how many go from each name to each other one; [`tally_switches`] says the same by how many inputs fall
//! on each point.
//!
//! Proved, over the definitions of `specs/`: each change of name is told once, in order, with the number of its inputs, and all
//! together are the inputs whose names differ (`Switches`); these are what the new rule costs at the price 1
//! ([`switches_are_cost`]).
//!
//! # What an edit of a flag document does to recorded inputs, page by page
//!
//! An [`Edit`] is two documents. [`compare_book`] goes over the pages of a book, and [`compare_tally`] takes the one page of a
//! tally: where both documents have a literal rule at the page's site, behind the page's bucketing expression, it counts the
//! inputs that get another name, from each name to each other one; else it says which document lacks the rule, and why.
//!
//! Proved, over the definitions of `specs/`: there is one answer for each page that is asked for, in the order of the book (`Found`);
//! it is the changes of the page's inputs (`rule_switches`), or the first reason why there is no rule to compare (`Rules`); the sums
//! are those of the pages; and of a tally the answer holds for all inputs of which so many fall on each point (`Tallied`).
//!
//! # Who a new rule moves: from each variant to each, and in which runs of points
//!
//! A user is an input that was recorded. [`runs`] cuts the points into runs of one old and one new name; a [`SwitchTable`]
//! says for each pair of variants how many points and how many users go from the one to the other.
//!
//! Proved, over the definitions of `specs/`: the runs are those of the points, one behind the other, each with the inputs that
//! fall on it (`Runs`); each entry of the table is the number of the points and that of the users of its pair (`Table`),
//! and [`tallies_tell_users`] says that it is the number of the recorded inputs which the two rules give these names.
#![tactic(auto)]

mod book;
mod change;
mod comparison;
mod counting;
mod edit;
mod fault;
mod laws;
mod page_counting;
mod page_edit;
mod rows;
mod rules;
mod switch;
mod table;
mod table_laws;
mod tally;
mod tally_comparison;

pub use book::compare_book;
pub use change::{Run, runs};
pub use comparison::{Comparison, Found, PageFound};
pub use counting::Counting;
pub use edit::{obvious_edit, obvious_switches};
pub use fault::{NoRule, TallyFault};
pub use laws::switches_are_cost;
pub use page_edit::{Edit, Side};
pub use rules::{Rules, rules_on};
pub use switch::Switch;
pub use table::{PairSwitches, SwitchTable, switch_table};
pub use table_laws::tallies_tell_users;
pub use tally::tally_switches;
pub use tally_comparison::compare_tally;
