//! The command that makes a book.

mod ask_diagnostics;
mod asks;
pub mod drive;
mod driving;
