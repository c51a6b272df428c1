//! The command over what it read.
ghost use Rattle.std.specs.Prelude.{◌≡◌, ◌<◌, ◌^◌, true, map, IfErr, IfOk, IsErrOf, Ok, Some};
ghost use Rattle.book_core.specs.Reading.{book_of};
ghost use Rattle.book_share.specs.DriveFault.{workers_fault};
ghost use Rattle.flag_defs.specs.Floats.{marked_view};
ghost use Rattle.flag_resolve.specs.Views.{resolution_view};
ghost use Rattle.flag_text.specs.Shape.{is_whole, items_are_whole};
ghost use Rattle.flagops_drive.specs.Asks.{asks_in, asks_of as asks_of_shape};
ghost use Rattle.flagops_drive.specs.Driven.{Adds, Drives, IsOutput, IsUnadded, drive_output_view, reached_view, refusal_of};
ghost use Rattle.flagops_drive.specs.File.{count_of, file_view, items_of};
ghost use Rattle.flagops_drive.specs.Floats.{spelled_of};
ghost use Rattle.flagops_drive.specs.Tally.{IsTallied, IsTallyOf};
ghost use Rattle.flagops_drive.specs.declared.fault.DriveRefusal.{DriveRefusal as Refusal};

use crate::asks::{AskItems, ask_items, asks_in};
use crate::asks_file::AsksFile;
use crate::fault::DriveRefusal;
use crate::gate::CountingGate;
use crate::lines::{Counts, lines};
use crate::tally::{Endings, Tally, inputs_before};
use crate::wants::want_spellings;
use book_core::{Book, print_book};
use book_share::{Ask, DriveFault, Driven, drive};
use flag_defs::Flags;
use flag_resolve::Resolution;
use progress::Meter;
use std::alloc::Global;
use std::sync::Wait;
use std::thread::Threads;

/// The whole output of the command.
#[derive(Drop)]
pub struct DriveOutput {
    /// The lines that are printed.
    pub text: Vec<u8>,
    /// The file of the book.
    pub book: Vec<u8>,
    /// What a person is told.
    pub tally: Tally,
    /// What it was made of.
    pub rest: Rest,
}

/// The answers and the book that an output was made of. They take a while to drop, which a program that ends can spare itself.
#[derive(Drop)]
pub struct Rest {
    answers: Vec<Resolution>,
    /// The book that the file is of.
    pub book: Book,
}

/// Why the asks of a file are not driven by so many workers, as far as it is known without taking memory: they are no asks,
/// or else the number of the workers.
pub fn refusal_of(asks: &AsksFile<'_>, workers: usize) -> Option<DriveRefusal>
    requires { is_whole (file_view asks.now) ≡ true }
    ensures { result ≡ refusal_of (asks_of_shape (file_view asks.now)) workers }
{
    if ask_items(asks).is_none() {
        return Some(DriveRefusal::BadAsks);
    }
    match DriveFault::of_workers(workers) {
        Some(fault) => Some(DriveRefusal::Drive(fault)),
        None => None,
    }
}

/// Answers the asks of a file, in their order, by so many workers, and notes what they reach; the book keeps what a book had
/// before, if one is given. The counts are printed as an object in one line, or a line each. It is refused with BadAsks, then
/// with NoWorkers and TooManyWorkers (more than 64), whatever memory is left, and at last with PageFull where the two have
/// more than 1000000 inputs of a page. A refusal comes after all workers have ended. Cost: as `resolve` for each ask, as a
/// note for each input that it reaches, and as another for each input that is added to the book from before. Each ask that is
/// answered moves the meter on, where there is one.
///
/// Where flags may have floats (`Flags::floats_at`) each ask is answered as by `flag_resolve::resolve_with_floats`, and the value of a
/// flag that has some is printed by its spelling.
#[tactic(auto, using(crate::proofs::Refused::bad_asks, crate::proofs::Refused::bad_asks_first, crate::proofs::Refused::bad_workers, crate::proofs::Refused::bad_workers_first, crate::proofs::Refused::none_first, crate::proofs::Refused::same_asks, crate::proofs::Refused::same_tally))]
pub fn drive_asks<R: Threads + Wait + Sync>(
    rt: &R,
    alloc: Global,
    flags: &Flags,
    asks: &AsksFile<'_>,
    workers: usize,
    before: Option<Book>,
    json: bool,
    meter: Option<&Meter>,
) -> Result<DriveOutput, DriveRefusal>
    requires { is_whole (file_view asks.now) ≡ true }
    ensures driven { Drives (marked_view flags.now) (asks_of_shape (file_view asks.now)) workers before json result }
    ensures tally { IfOk result (IsTallied (marked_view flags.now) (asks_of_shape (file_view asks.now)) before json) }
    ensures file { IfOk result (λ d. book_of d.book.items ≡ Ok d.rest.book) }
    ensures refused { (e : Refusal) → refusal_of (asks_of_shape (file_view asks.now)) workers ≡ Some e → IsErrOf result e }
{
    let Some(items) = ask_items(asks) else {
        return Err(DriveRefusal::BadAsks);
    };
    if let Some(fault) = DriveFault::of_workers(workers) {
        return Err(DriveRefusal::Drive(fault));
    }
    drive_items(rt, alloc, flags, items, workers, before, json, meter)
}

/// Answers the asks that the items of a file are.
fn drive_items<R: Threads + Wait + Sync>(
    rt: &R,
    alloc: Global,
    flags: &Flags,
    items: AskItems<'_>,
    workers: usize,
    before: Option<Book>,
    json: bool,
    meter: Option<&Meter>,
) -> Result<DriveOutput, DriveRefusal>
    requires whole { items_are_whole (items_of items) ≡ true }
    requires few { count_of items < 2 ^ 32 }
    ensures driven { Drives (marked_view flags.now) (asks_in (items_of items.entry)) workers before json result }
    ensures tally { IfOk result (IsTallied (marked_view flags.now) (asks_in (items_of items.entry)) before json) }
    ensures file { IfOk result (λ d. book_of d.book.items ≡ Ok d.rest.book) }
{
    let mut asks = asks_in(alloc, items)?;
    want_spellings(flags, &mut asks);
    let gate = CountingGate::new(meter, asks.len());
    let asked = asks.as_slice();
    match drive(rt, alloc, flags, asked, workers, &gate) {
        Ok(driven) => output_of(alloc, flags, asked, driven, before, json),
        Err(fault) => Err(DriveRefusal::Drive(fault)),
    }
}

/// What is printed and what is written of what was driven, of these asks by these flags.
#[tactic(auto, unfolding(crate::specs::Tally::IsTallyOf))]
fn output_of(
    alloc: Global,
    flags: &Flags,
    asks: &[Ask<'_>],
    driven: Driven,
    before: Option<Book>,
    json: bool,
) -> Result<DriveOutput, DriveRefusal>
    ensures output { IfOk result (λ d. IsOutput before json (reached_view (marked_view flags.now) asks.now driven) (drive_output_view d)) }
    ensures tally { IfOk result (λ d. IsTallyOf (map resolution_view driven.answers.items) (spelled_of (marked_view flags.now) asks.now (map resolution_view driven.answers.items)) before json d.text.items d.tally) }
    ensures file { IfOk result (λ d. book_of d.book.items ≡ Ok d.rest.book) }
    ensures refused { IfErr result (IsUnadded before driven.book) }
{
    let Driven {
        answers,
        book,
        calls,
        news,
        full,
        long,
    } = driven;
    let had = inputs_before(&before);
    let book = added(alloc, before, book)?;
    let counts = Counts {
        inputs: book.inputs(),
        calls,
        news,
        full,
        long,
    };
    let text = lines(alloc, flags, asks, answers.as_slice(), &counts, json)?.into_bytes();
    let tally = Tally {
        asks: answers.len(),
        endings: Endings::of(answers.as_slice()),
        had,
        reached: news,
        inputs: counts.inputs,
    };
    let file = print_book(alloc, &book)?;
    Ok(DriveOutput {
        text,
        book: file,
        tally,
        rest: Rest { answers, book },
    })
}

/// The book of what was reached, and of what a book had before.
#[tactic(auto, using(crate::proofs::Driving::unadded_by))]
fn added(alloc: Global, before: Option<Book>, reached: Book) -> Result<Book, DriveRefusal>
    ensures adds { IfOk result (Adds before reached) }
    ensures refused { IfErr result (IsUnadded before reached) }
{
    match before {
        Some(before) => Ok(before.union(alloc, &reached)?),
        None => Ok(reached),
    }
}
