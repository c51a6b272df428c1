//! A book of the inputs that reached each `fractional` operation of flagd's targeting.
//!
//! A [`Book`] has a [`Page`] for each flag, site and bucketing expression; a page has the hash inputs that were noted
//! there, each once. An [`Exposure`] is the inputs of one page, by which a change of the operation's rule is priced.
//!
//! ```rust
//! use book_core::{Book, Noted, Page, print_book};
//!
//! let page = Page { flag: String::from_str(alloc, "color")?, site: 0, by: None };
//! let mut book = Book::new(alloc);
//! assert!(rt; book.note(alloc, &page, "test")? == Noted::New);
//! assert!(rt; book.note(alloc, &page, "test")? == Noted::Again);
//! let file = print_book(alloc, &book)?;
//! assert!(rt; file.as_slice() == b"{\"book\":1}\n{\"by\":null,\"flag\":\"color\",\"site\":0}\n\"test\"\n".as_slice());
//! ```
//!
//! Proved, over the definitions of `specs/`: which answer a note is given, and that the book then holds what it held
//! and that input (`Book`); that a book is its calls, so that each answer follows from the calls before it and the
//! contents are what was accepted (`Calls`); an exposure is the page's contents in strictly rising order, the number
//! of inputs is that of all pages, and the counts at each point are those of the hash (`Counts`, in `exposures`); which book the bytes
//! of a file stand for, or which line is at fault first and how (`Reading`); what is printed of a book, and that it
//! reads as the book (`Printing`); the union of two books has the inputs of both and no other, and is refused with PageFull
//! only where there is none (`Union`). A note's line, with its input or with the input's hash, is defined here for the crates
//! that make, read and count such lines (`Note`, `Hashed`, [`has_hash`]). A refused note leaves the book as it was.
#![tactic(auto)]

mod book;
mod fault;
mod inputs;
mod kind;
mod laws;
mod line;
mod listing;
mod members;
mod noted;
mod page;
mod pages;
mod print;
mod read;
mod union;

pub use book::Book;
pub use exposures::{Exposure, counts};
pub use fault::{BookFault, BookFileFault};
pub use kind::has_hash;
pub use laws::a_book_is_its_calls;
pub use line::{Line, cut_line, feed_at, is_header, read_as_tree};
pub use members::{by_of, page_in, site_of};
pub use noted::Noted;
pub use page::Page;
pub use print::print_book;
pub use read::read_book;
