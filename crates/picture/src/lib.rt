//! Pictures of rollouts, as SVG (Scalable Vector Graphics 2): what a new rule moves, and what it costs; and texts as XML takes them.
//!
//! [`draw_change`] draws a rule that replaces another: both as bars over the points, between them what moves, then the variants
//! and the switches between them, with their numbers. [`draw_none`] draws a set of variants which shows that no rule fits, and
//! [`draw_step`] the number of a step above its picture. [`draw_edit`] draws what an edit does to recorded inputs: the rule before
//! it and after it, whose totals may differ, as bars of one width, then the variants, and how many inputs go from each to each
//! other one, and [`draw_no_page`] that no page of a book was compared. [`page`] is the page that has such pictures, one or several.
//! There is no script in it and nothing from elsewhere; colours follow the reader's scheme, and patterns tell them apart too.
//!
//! Proved, over the definitions of `specs/`: a picture is a list of elements, each spelled as `Spelling` says, so that no name
//! adds markup of its own; and what the elements tell, in their order, is what `Told` says of the rules, the limits, the prices,
//! the runs, the table and the certificate. Captions and bars are told with their places, a bar by the points of its rule, and
//! each text of a table with its column. How far below the top a picture ends is what `Heights` says. How high a row stands in it,
//! and how things look, is not.
//!
//! # Texts in XML: any text is put where XML takes character data, and reads back as itself
//!
//! [`push_escaped`] and [`escaped`] write the five characters that mean something to XML as entities, and U+FFFD for the
//! characters that no document may have; [`push_start`] writes the first characters alone.
//!
//! ```rust
//! use picture::escaped;
//!
//! assert!(rt; escaped(alloc, "<a & b>")?.as_str() == "&lt;a &amp; b&gt;");
//! ```
//!
//! Proved, over the definitions of `specs/Escape`: what is written is exact; [`escaped_texts_are_data`] says that no tag, no
//! attribute and no reference but to the five entities begins in it, and [`escaped_texts_read_back`] that it reads as the text.
#![tactic(auto)]

mod bars;
mod change;
mod edit;
mod element;
mod escape;
mod laws;
mod none;
mod print;
mod rows;
mod step;
mod switches;
mod variants;
mod words;

pub use change::{Change, draw_change};
pub use edit::{EditedRule, draw_edit, draw_no_page};
pub use escape::{escaped, push_escaped, push_start};
pub use laws::{escaped_texts_are_data, escaped_texts_read_back};
pub use none::{Deficit, draw_none};
pub use print::page;
pub use step::draw_step;
pub use words::Title;
