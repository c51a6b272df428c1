//! Notes: hash inputs that reached a `fractional` operation of flagd's targeting, each as a line of its own.
//!
//! A note line is `[FLAG,SITE,BY,INPUT]` and a line feed: the page of a book and an input of at most 1,024 bytes. Equal
//! notes are equal lines, so whoever sorts lines and drops repeated ones has sorted notes and kept each once.
//!
//! ```rust
//! use book_core::Page;
//! use note_lines::{note_line, read_note};
//!
//! let page = Page { flag: String::from_str(alloc, "color")?, site: 0, by: None };
//! let line = note_line(alloc, &page, "test")?;
//! assert!(rt; line.as_slice() == b"[\"color\",0,null,\"test\"]\n".as_slice());
//! ```
//!
//! Proved, over the definitions of `specs/`: [`note_line`] gives the line of its note, which reads back as the note
//! (`Note`); [`read_note`] gives the note whose line it is given, and no note only where the line is that of none
//! (`Reading`); and the lines of different notes differ ([`each_note_has_its_line`]).
//!
//! A note can be written without its input, as `[FLAG,SITE,BY,HASH]` with the 32-bit hash of the input ([`NoteForm`]). Such a line
//! is made and read by [`hashed_line`] and [`read_hashed_note`], which promise the same of it (`Hashed`), and no line is of both kinds
//! ([`no_line_is_of_both`]).
//!
//! # Files of note lines, as a book takes them
//!
//! [`take_notes`] adds the notes of a file to a book. Lines that have nothing but blanks, and what stands behind the last line
//! feed, are passed over; any other line that is the line of no note is refused by its number, or passed over and counted.
//! [`begins_book`] tells the file of a book from one of note lines, and [`begins_astray`] whether its first lines are refused.
//!
//! ```rust
//! use book_core::Book;
//! use note_lines::take_notes;
//!
//! let lines = b"[\"color\",0,null,\"test\"]\n[\"color\",0,null,\"test\"]\n";
//! let taken = take_notes(alloc, Book::new(alloc), lines, false)?;
//! assert!(rt; taken.book.inputs() == 1 && taken.passed == 0 && !taken.torn);
//! ```
//!
//! Proved, over the definitions of `specs/`: the book has what it had and the notes of the lines, and nothing else (`Notes`);
//! how many lines were passed over, and the number of the first that is refused (`Lines`); `PageFull` comes only where no book
//! has the notes up to a line. What is noted in a file that is not refused is just what has its line there ([`a_file_notes_its_lines`],
//! `BookLaw`).
#![tactic(auto)]

mod blank;
mod book_laws;
mod fault;
mod form;
mod hashed;
mod laws;
mod note;
mod opening;
mod parts;
mod print;
mod read;
mod stray;
mod taking;

pub use book_core::has_hash;
pub use book_laws::{a_file_begins_as_it_is, a_file_notes_its_lines};
pub use fault::NotesFault;
pub use form::{NoteForm, line_as};
pub use hashed::{HashedNote, hashed_line, read_hashed_note};
pub use laws::{each_hashed_note_has_its_line, each_note_has_its_line, no_line_is_of_both};
pub use note::Note;
pub use opening::begins_book;
pub use print::note_line;
pub use read::read_note;
pub use stray::begins_astray;
pub use taking::{NotesTaken, take_notes};
