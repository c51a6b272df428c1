//! The files that the program reads, and the bytes that it writes.
//!
//! - [`FileSet`] is what a command sees of files; [`SystemFiles`] are those of the system. The functions `load_..` go from a
//!   path to what the file stands for: a tree, a rule, a flag document, a plan file, or the [`Question`] of a rollout, whose
//!   [`Evidence`] is a book or a tally by the file's first line.
//!   [`store`] replaces a file whole: where it is refused, the files are as they were.
//! - A [`Refusal`] is the fault of one of the calls by which a file is read or written; the families of commands have their own,
//!   made of it by `From`. It is a [`CommandRefusal`], by which it has the line that it is written as; a [`Refused`] has it with the
//!   [`Remark`] that a person is told.
//!
//! ```rust
//! use flagops_files::{CommandRefusal, SystemFiles, load_rule};
//!
//! let mut files = SystemFiles::new(&rt);
//! match load_rule(alloc, &mut files, "rule.json") {
//!     Ok(rule) => println!(rt; "{}", rule.total())?,
//!     Err(refused) => print!(rt; "{}", refused.refusal.line(alloc)?)?,    // as `refused load 1 Unreadable`
//! }
//! ```
//!
//! Proved, over the definitions of `specs/`: what is loaded is what the definitions give of the files, the first refusal in
//! its order, unless memory ran out; a file set shows a failure exactly where a load refused; a file that was refused to be
//! written leaves all files as they were; the line of a refusal is
//! `Refusal.line_of`; and what was written is the text, or a front of it with status 1 where the outlet failed; a remark is
//! told where there is one, whatever becomes of the output, and changes neither text nor status.
//!
//! # Diagnostics of a key that no flag of a document has
//!
//! ```rust
//! use flagops_files::known_keys;
//!
//! let words = known_keys(alloc, &flags, "checkout-buton")?;
//! assert!(rt; words.as_str() == r#"similar keys: "checkout-button""#);
//! ```
//!
//! Proved, over the definitions of `specs/`: the words name the keys that are near, and where none is the first of all (`Known`).
//! Each key is looked at once.
//!
//! # The inputs that are lost where a book is written over another: how many of the old one the new one does not have
//!
//! A command that writes a book asks [`losses_at`] before it writes, and tells with [`of_losses`] what would be lost.
//! [`lost_inputs`] counts them of two books.
//!
//! ```rust
//! use book_core::Book;
//! use flagops_files::losses_at;
//! use flagops_files::SystemFiles;
//!
//! let book = Book::new(alloc);
//! match losses_at(alloc, &mut SystemFiles::new(&rt), "book.txt", &book) {
//!     Ok(0) => println!(rt; "nothing would be lost")?,
//!     Ok(lost) => println!(rt; "{lost} inputs would be lost")?,
//!     Err(_) => println!(rt; "book.txt is no book")?,
//! }
//! ```
//!
//! Proved, over the definitions of `specs/`: the number is that of the inputs that stand on a page of the old book and not on
//! the same page of the new one (`Losses`), and the old book is that of the file at the path, none where no file can be read or it is empty.
//!
//! # Proof that the first 4,096 bytes of a file decide whether it can be a book or a tally
//!
//! A book may be of any size, so a file is read up to its first 4,096 bytes, and no further where these may begin neither a
//! book nor a tally. That this refuses no file which its whole would not, and none for another reason, is
//! proved here over the definitions that the commands answer by: [`records_are_told_by_their_first_piece`] of the bytes, and
//! [`files_are_read_whole`] of the book and the evidence of a file at a path.
#![tactic(auto)]

mod book_question;
mod books;
mod counting;
mod documents;
mod evidence;
mod known;
mod laws;
mod lines;
mod loaded_book;
mod loading;
mod payload;
mod plan_file;
mod question;
mod quoting;
mod refusal;
mod replacing;
mod requests;
mod room;
mod storing;
mod system_files;
mod tallies;
mod telling;

pub use book_question::{BookQuestion, load_book_question};
pub use books::{check_replaceable, load_book, load_notes};
pub use counting::lost_inputs;
pub use documents::{Document, load_document, load_flags_as};
pub use evidence::{Evidence, load_evidence};
pub use known::known_keys;
pub use laws::{files_are_read_whole, records_are_told_by_their_first_piece};
pub use lines::{fault_line, file_line, whole_line};
pub use loaded_book::losses_at;
pub use loading::{TEXT_LIMIT, load, load_choice, load_rule, load_tree};
pub use payload::{number_item, rollout_items};
pub use plan_file::load_planned;
pub use question::{Question, load_question};
pub use quoting::quoted;
pub use refusal::{Call, Refusal, Refused, out_of_memory};
pub use requests::load_request;
pub use room::make_room_for;
pub use storing::store;
pub use system_files::SystemFiles;
pub use telling::of_losses;
