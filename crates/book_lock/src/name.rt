ghost use Rattle.std.specs.Prelude.{ℕ, []};
ghost use Rattle.atomic_table.specs.Seated.{TableId};

use std::marker::Brand;

/// Names a shared book, with the number of its seats: what is of a book carries the book's name in its type, so a seat
/// of another book is of another type. A function that makes a book is generic over the name, and is called with `Brand`
/// for it.
pub trait BookName {
    ghost table: { TableId };

    ghost seats: { ℕ };
}

impl BookName for Brand {
    ghost table = { record { words = 0; slots = 0; views_name = 0; atom = 0; block = 0; offset = 0; slot_names = [] } };

    ghost seats = { 0 };
}
