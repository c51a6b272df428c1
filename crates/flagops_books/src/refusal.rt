//! Why the command `book` refuses, and the line that each refusal is written as.
ghost use Rattle.std.specs.Prelude.{◌≡◌, IfOk, string_bytes};
ghost use Rattle.flagops_books.specs.FileLines.{file_line};
ghost use Rattle.flagops_books.specs.Refusal.{call_name, call_of, is_unread, is_want, line_of, loss_line};
ghost use Rattle.flagops_books.specs.declared.refusal.BookRefusal.TheVariants.{Load};
ghost use Rattle.flagops_shell.specs.declared.refused.Remark.TheVariants.{Short};

use flagops_files::{Call, Refusal, fault_line, number_item};
use flagops_shell::{CommandRefusal, Remark};
use std::alloc::{AllocError, Global};

/// A call that can refuse, by the name that a refusal's line has.
#[derive(Clone, Copy, Debug)]
pub enum BookCall {
    /// A call by which a file is read or written.
    Load(Call),
    /// The command `book` itself.
    Book,
}

impl BookCall {
    /// The name of the call.
    pub fn name(self) -> &'static str
        ensures { result.now ≡ call_name self }
    {
        match self {
            BookCall::Load(call) => call.name(),
            BookCall::Book => "book",
        }
    }
}

/// Why the command `book` was refused.
#[derive(Debug, Drop)]
pub enum BookRefusal {
    /// A file is refused as every other command refuses it.
    Load(Refusal),
    /// The command ran out of memory between its calls.
    WantOfMemory,
    /// Books have more than 1000000 inputs of a page together.
    FullBook,
    /// The new book lacks so many inputs of the one that it would be written over.
    WouldLose(u64),
}

impl BookRefusal {
    /// The call that refused.
    pub fn call(&self) -> BookCall
        ensures { result ≡ call_of self.now }
    {
        match self {
            BookRefusal::Load(refusal) => BookCall::Load(refusal.call()),
            BookRefusal::WantOfMemory | BookRefusal::FullBook | BookRefusal::WouldLose(_) => {
                BookCall::Book
            }
        }
    }
}

/// A refusal of the command `book`, with what a person is told of it.
pub type Refused = flagops_shell::Refused<BookRefusal>;

/// The refusal of the command that ran out of memory.
pub(crate) fn out_of_memory() -> Refused
    ensures refusal { result.refusal ≡ BookRefusal.WantOfMemory }
    ensures remark { result.remark ≡ Short }
{
    Refused {
        refusal: BookRefusal::WantOfMemory,
        remark: Remark::Short,
    }
}

impl From<Refusal> for BookRefusal {
    ghost from_gives = { λ r e. e ≡ Load r };

    fn from(refusal: Refusal) -> BookRefusal {
        BookRefusal::Load(refusal)
    }
}

impl CommandRefusal for BookRefusal {
    ghost is_want = { is_want };

    ghost is_unread = { is_unread };

    ghost line_of = { line_of };

    fn is_want(&self) -> bool {
        match self {
            BookRefusal::Load(refusal) => refusal.is_want(),
            BookRefusal::WantOfMemory => true,
            BookRefusal::FullBook | BookRefusal::WouldLose(_) => false,
        }
    }

    fn line(&self, alloc: Global) -> Result<String, AllocError> {
        match self {
            BookRefusal::Load(refusal) => refusal.line(alloc),
            BookRefusal::WantOfMemory => {
                String::from_str(alloc, "refused book 0 WantOfMemory\n")
            }
            BookRefusal::FullBook => fault_line(alloc, "book", 2, "PageFull", ""),
            BookRefusal::WouldLose(lost) => loss_line(alloc, *lost),
        }
    }

    ghost unread_lines = { file_line };
}

/// The line of a refusal to lose so many inputs.
fn loss_line(alloc: Global, lost: u64) -> Result<String, AllocError>
    ensures { IfOk result (λ s. string_bytes s ≡ loss_line lost) }
{
    let items = number_item(alloc, lost)?;
    fault_line(alloc, "book", 3, "WouldLose", items.as_str())
}
