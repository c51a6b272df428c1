//! What the seats of a shared book know, in proofs alone: no value of these types is made.
use book_core::{BookFault, Noted, Page};
use std::collections::LinkedList;
use std::marker::Model;

/// A call of the book. Contracts see it as one of `book_core`'s calls.
pub struct Call {
    pub seat: u64,
    pub page: Page,
    pub input: LinkedList<u8>,
    pub reply: Result<Noted, BookFault>,
}

impl Model for Call {
    ghost use Rattle.book_core.specs.Calls.{Call as Called};

    ghost Value = { Called };

    ghost view = { λ c. record { seat = c.seat; page = c.page; input = c.input; reply = c.reply } };
}

/// A seat's number, and the calls of the book that it has seen.
pub struct Sight {
    pub number: u64,
    pub seen: LinkedList<Call>,
}

/// What a token of the table stands for: whether it holds the word, and the seats that it has, each with what it has seen.
pub struct View {
    pub holds: bool,
    pub seats: LinkedList<Sight>,
}
