//! Tallies: how many inputs of one page fall on each point, made of note lines, joined, and as files.
//!
//! # The tally of one page of note lines that come in rising order, each once
//!
//! It is fed a line at a time and keeps three lines and a count for each point, however many lines there are. That the
//! lines rise shows that each is there once, so no input is counted twice, whoever sorted them.
//!
//! Proved, over the definitions of `specs/`: what each line changes, or why it is refused (`Lines`, `Refusals`); a
//! refused line leaves the tally as it was; and where none was refused, what was tallied is the number of the page's
//! inputs and how many are on each point, each input there once ([`a_tally_is_of_its_lines`], `Law`). The lines of a page of
//! a book, once sorted, are tallied as the inputs of the book ([`a_book_page_is_tallied`]).
//!
//! The lines may have hashes in the place of inputs, all of them or none ([`tallied_lines_are_of_one_kind`]). Then what was tallied is
//! how many hashes of the page there are and how many are on each point, each hash there once ([`a_tally_is_of_its_hashes`]).
//!
//! # Tallies: how many inputs of one page fall on each of so many points
//!
//! A planner needs none of the inputs, only these numbers, so a tally stands for any number of recorded inputs in the
//! memory of its points.
//!
//! Proved, over the definitions of `specs/`: each [`PageTally`] has a count for each point, counts that add up to its
//! inputs, and a least and a greatest line exactly where it has inputs (`Tally`). [`join`] gives the sum of two tallies
//! of which the second one's lines follow the first one's, and refuses only where there is none (`Join`). Where both are
//! tallies of sets of inputs, the sum is the tally of the union ([`a_join_is_the_tally_of_both`], `JoinLaw`), and a tally of
//! inputs is one of them in any order ([`a_tally_is_in_any_order`]).
//!
//! Its lines may have the hashes of inputs in the place of the inputs. Then it is the tally of the set of these hashes, which is
//! that of the inputs where no two of them have one hash ([`hashes_stand_for_inputs`]).
//!
//! # Lines of points: a point of a tally and how many inputs fall on it
//!
//! A line is `[POINT,INPUTS]`, compact JSON, and a line feed.
//!
//! Proved, over the definitions of `specs/`: [`push_point`] adds the line of a point; [`take_point`] gives the point whose
//! line the bytes begin with, and none only where they begin with the line of none (`Point`).
//!
//! # The file of a tally: how many inputs of one page fall on each of so many points
//!
//! ```text
//! {"tally":1}
//! {"by":null,"first":"[\"checkout\",0,null,\"u1\"]","flag":"checkout","inputs":3,"last":"[\"checkout\",0,null,\"u9\"]","site":0,"total":100}
//! [4,2]
//! [71,1]
//! ```
//!
//! After the head, with the least and the greatest line counted, a line for each point that has inputs, the points rising.
//!
//! Proved, over the definitions of `specs/`: [`print_tally`] gives the file of a tally, which reads as that tally alone
//! (`File`, `Reading`); [`read_tally`] gives the tally whose file it is given, and refuses only what is the file of none, for
//! the first of five reasons.
//!
//! # Tallies as filters make them: of the lines of a stream, told by their numbers, and of several tallies
//!
//! [`TallyFilter`] takes the lines of a stream, one after another, and [`join_all`] joins tallies whose lines follow one
//! another. Neither keeps more than one tally and a few lines.
//!
//! Proved, over the definitions of `specs/`: what each line changes, and the number of the one that is refused (`Filter`);
//! where no line of a stream was refused, what was tallied is the tally of the page's inputs in it, each there once, or that of
//! the page's hashes ([`a_stream_is_tallied`]); and what is joined of the tallies of sets of inputs is the tally of their union, in which each
//! is there once ([`joined_tallies_are_of_all`], `Joined`).
#![tactic(auto)]

mod counts;
mod cut;
mod ends;
mod fault;
mod file_fault;
mod file_reading;
mod filter;
mod filter_fault;
mod filter_join;
mod filter_laws;
mod head;
mod join_laws;
mod joined;
mod joining;
mod laws;
mod members;
mod number;
mod page_lines;
mod place;
mod point;
mod print;
mod read;
mod tally;

pub use fault::LineTallyFault;
pub use file_fault::TallyFileFault;
pub use file_reading::read_tally;
pub use filter::TallyFilter;
pub use filter_fault::FilterFault;
pub use filter_join::join_all;
pub use filter_laws::{
    a_stream_is_tallied, joined_tallies_are_of_all, joined_tallies_are_of_all_hashes,
};
pub use join_laws::{
    a_join_is_the_tally_of_both, a_join_of_hashes_is_the_tally_of_both, a_tally_is_in_any_order,
    hashes_stand_for_inputs,
};
pub use joined::{MOST_AT_POINT, MOST_IN_ALL, MOST_POINTS, PageTally};
pub use joining::{JoinFault, join};
pub use laws::{
    a_book_page_is_tallied, a_tally_is_of_its_hashes, a_tally_is_of_its_lines,
    sorted_notes_are_tallied, tallied_lines_are_of_one_kind,
};
pub use point::{PointCount, push_point};
pub use print::print_tally;
pub use read::take_point;
pub use tally::LineTally;
