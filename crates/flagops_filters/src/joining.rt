//! The command `join`.
ghost use Rattle.std.specs.Prelude.{◌≡◌, ◌≢◌, ◌∷◌, ◌++◌, ◌||◌, ℕ, List, false, length, map, IfErr, IfOk, IfSome, None, Ok, string_bytes, ⊤};
ghost use Rattle.book_core.specs.Printing.{line_text};
ghost use Rattle.flagops_shell.specs.Diagnostic.{Says};
ghost use Rattle.flagops_filters.specs.Command.{join_description};
ghost use Rattle.flagops_filters.specs.Join.{IsJoinReport, IsTallyIn, IsTallyOf, JoinsAllFiles, JoinsFiles, report_joined};
ghost use Rattle.flagops_filters.specs.Joined.{JoinsNext, JoinsTwo, JoinsUnless};
ghost use Rattle.flagops_filters.specs.Refusal.{is_want};
ghost use Rattle.flagops_filters.specs.Remarks.{NamesPath, RemarksPath, RemarksUnjoined, RemarksUnjoinedOf};
ghost use Rattle.flagops_filters.specs.Report.{GivesOne, is_file_fault};
ghost use Rattle.flagops_filters.specs.Words as words;
ghost use Rattle.flagops_filters.specs.Words.{joining_view};
ghost use Rattle.flagops_filters.specs.declared.refusal.FilterRefusal.TheVariants.{Join, Load};
ghost use Rattle.flagops_files.specs.declared.refusal.Refusal.TheVariants.{ReadTally};
ghost use Rattle.note_tallies.specs.File.{header_shape};
ghost use Rattle.note_tallies.specs.declared.file_fault.TallyFileFault.TheVariants.{WantOfMemory};

use crate::asked::Joining;
use crate::refusal::FilterRefusal;
use crate::words::read_join;
use file_diagnostics::{Ends, of_tally};
use flagops_files::{Refusal, file_line, load, whole_line};
use flagops_shell::{Command, FileSet, Outcome, Refused, Remark, Status};
use note_tallies::{JoinFault, PageTally, TallyFileFault, join as joined, print_tally, read_tally};
use std::alloc::{AllocError, Global};
use std::convert::AsStr;

/// The largest file of a tally, in bytes.
const TALLY_LIMIT: u64 = limits::FILE_BYTES as u64;

/// It prints the tally of the lines of all files. Files are only read.
impl<'w, R, F: FileSet> Command<'w, R, F> for Joining<'w> {
    type Refusal = FilterRefusal;

    ghost Asked = { words.Joining };

    ghost Needs = { ⊤ };

    ghost view = { joining_view };

    ghost description = { join_description };

    fn read<S: AsStr>(alloc: Global, words: &'w [S]) -> Result<Joining<'w>, clap::Error> {
        read_join(alloc, words)
    }

    #[tactic(auto, using(crate::proofs::Ending::stays))]
    fn answer(
        &self,
        _rt: &R,
        alloc: Global,
        files: &mut F,
    ) -> Result<Outcome, Refused<FilterRefusal>> {
        reported(alloc, files, self)
    }

    fn call_of(&self, _refusal: &FilterRefusal) -> &'static str {
        "join"
    }
}

/// The report of the files at the paths.
fn reported<F: FileSet>(
    alloc: Global,
    files: &mut F,
    asked: &Joining<'_>,
) -> Result<Outcome, Refused<FilterRefusal>>
    ensures exact { IfSome (F.holding files.old) (λ at. GivesOne result (IsJoinReport at (joining_view asked.now).tallies)) }
    ensures failed { F.has_failed files.new ≡ (F.has_failed files.old || is_file_fault result) }
    ensures kept { F.holding files.new ≡ F.holding files.old }
    ensures names { IfSome (F.holding files.old) (λ at. RemarksUnjoinedOf at (joining_view asked.now).tallies result) }
    ensures quiet { IfOk result (λ o. o.remark ≡ None) }
{
    match all_of(alloc, files, asked.first, asked.others.as_slice()) {
        Ok(tally) => printed(alloc, &tally),
        Err(told) => Err(told),
    }
}

/// The file of a tally.
fn printed(alloc: Global, tally: &PageTally) -> Result<Outcome, Refused<FilterRefusal>>
    ensures exact { GivesOne result (λ came. came ≡ report_joined (Ok tally.now)) }
    ensures quiet { IfOk result (λ o. o.remark ≡ None) }
    ensures wants { IfErr result (λ e. e.refusal ≡ Load (ReadTally WantOfMemory)) }
{
    match print_tally(alloc, tally) {
        Ok(text) => Ok(Outcome {
            text: text.into_bytes(),
            status: Status::Done,
            remark: None,
        }),
        Err(AllocError) => Err(out_of_memory()),
    }
}

fn out_of_memory() -> Refused<FilterRefusal>
    ensures { result.refusal ≡ Load (ReadTally WantOfMemory) }
{
    Refused {
        refusal: FilterRefusal::Load(Refusal::ReadTally(TallyFileFault::WantOfMemory)),
        remark: Remark::Short,
    }
}

/// The tally of the lines of the files at these paths.
fn all_of<F: FileSet>(
    alloc: Global,
    files: &mut F,
    first: &str,
    others: &[&str],
) -> Result<PageTally, Refused<FilterRefusal>>
    ensures exact { IfSome (F.holding files.old) (λ at. JoinsUnless result (JoinsAllFiles at (first.now ∷ map (λ p. p.now) others.now))) }
    ensures failed { F.has_failed files.new ≡ (F.has_failed files.old || is_file_fault result) }
    ensures kept { F.holding files.new ≡ F.holding files.old }
    ensures names { IfSome (F.holding files.old) (λ at. RemarksUnjoinedOf at (first.now ∷ map (λ p. p.now) others.now) result) }
{
    let one = one_of(alloc, files, first)?;
    all_with(alloc, files, one, others)
}

/// The tally of the lines of one and of the files at these paths. Where there are none, it takes no memory.
fn all_with<F: FileSet>(
    alloc: Global,
    files: &mut F,
    one: PageTally,
    paths: &[&str],
) -> Result<PageTally, Refused<FilterRefusal>>
    ensures exact { IfSome (F.holding files.old) (λ at. JoinsUnless result (JoinsFiles at one (map (λ p. p.now) paths.now))) }
    ensures alone { length paths.now ≡ 0 → result ≡ Ok one }
    ensures failed { F.has_failed files.new ≡ (F.has_failed files.old || is_file_fault result) }
    ensures kept { F.holding files.new ≡ F.holding files.old }
    ensures names { IfSome (F.holding files.old) (λ at. RemarksUnjoined at one (map (λ p. p.now) paths.now) result) }
{
    let mut all = one;
    for path in paths {
        all = with_next(alloc, files, all, path)?;
    }
    Ok(all)
}

/// The tally of the lines of one and of the file at a path.
fn with_next<F: FileSet>(
    alloc: Global,
    files: &mut F,
    one: PageTally,
    path: &str,
) -> Result<PageTally, Refused<FilterRefusal>>
    ensures exact { IfSome (F.holding files.old) (λ at. JoinsUnless result (JoinsNext at one path.now)) }
    ensures failed { F.has_failed files.new ≡ (F.has_failed files.old || is_file_fault result) }
    ensures kept { F.holding files.new ≡ F.holding files.old }
    ensures names { RemarksPath path.now result }
{
    let next = one_of(alloc, files, path)?;
    both_of(alloc, path, one, next)
}

/// The tally of two, of which the second one stands in the file at a path. It takes no memory.
fn both_of(
    alloc: Global,
    path: &str,
    one: PageTally,
    next: PageTally,
) -> Result<PageTally, Refused<FilterRefusal>>
    ensures exact { JoinsUnless result (JoinsTwo one next) }
    ensures no_want { IfErr result (λ told. is_want told.refusal ≡ false) }
    ensures read { is_file_fault result ≡ false }
    ensures names { RemarksPath path.now result }
{
    match joined(one, next) {
        Ok(both) => Ok(both),
        Err(fault) => Err(unjoined(alloc, path, fault)),
    }
}

/// A tally in a file that does not join those before it.
#[tactic(auto, using(flagops_files::proofs::Told::says))]
fn unjoined(alloc: Global, path: &str, fault: JoinFault) -> Refused<FilterRefusal>
    ensures refusal { result.refusal ≡ Join fault }
    ensures names { Says (NamesPath path.now) result.remark }
{
    Refused {
        refusal: FilterRefusal::Join(fault),
        remark: Remark::of(join_line(alloc, path, fault)),
    }
}

fn join_line(alloc: Global, path: &str, fault: JoinFault) -> Result<String, AllocError>
    ensures { IfOk result (λ s. NamesPath path.now (string_bytes s)) }
{
    let reason = format!(in alloc; "{fault}")?;
    file_line(alloc, path, reason.as_str())
}

/// The tally of the file at a path.
fn one_of<F: FileSet>(
    alloc: Global,
    files: &mut F,
    path: &str,
) -> Result<PageTally, Refused<FilterRefusal>>
    ensures exact { IfSome (F.holding files.old) (λ at. JoinsUnless result (IsTallyOf at path.now)) }
    ensures failed { F.has_failed files.new ≡ (F.has_failed files.old || is_file_fault result) }
    ensures kept { F.holding files.new ≡ F.holding files.old }
    ensures names { RemarksPath path.now result }
{
    match load(alloc, files, path, TALLY_LIMIT) {
        Ok(bytes) => read(alloc, path, bytes.as_slice()),
        Err(refused) => Err(Refused::of(refused)),
    }
}

/// The tally that the bytes of a file are. Where they don't begin as one, it takes no memory.
fn read(alloc: Global, path: &str, bytes: &[u8]) -> Result<PageTally, Refused<FilterRefusal>>
    ensures exact { JoinsUnless result (IsTallyIn (Ok bytes.now)) }
    ensures header { ((rest : List ℕ) → bytes.now ≢ line_text header_shape ++ rest) → IfErr result (λ told. is_want told.refusal ≡ false) }
    ensures read { is_file_fault result ≡ false }
    ensures names { RemarksPath path.now result }
{
    match read_tally(alloc, bytes) {
        Ok(tally) => Ok(tally),
        Err(fault) => Err(unread(alloc, path, Ends::of(bytes), fault)),
    }
}

/// A file that is not a tally.
#[tactic(auto, using(flagops_files::proofs::Told::says))]
fn unread(alloc: Global, path: &str, ends: Ends, fault: TallyFileFault) -> Refused<FilterRefusal>
    ensures refusal { result.refusal ≡ Load (ReadTally fault) }
    ensures names { Says (NamesPath path.now) result.remark }
{
    Refused {
        refusal: FilterRefusal::Load(Refusal::ReadTally(fault)),
        remark: Remark::of(read_line(alloc, path, ends, fault)),
    }
}

/// What is told of it, by what is seen of the file at its ends.
fn read_line(
    alloc: Global,
    path: &str,
    ends: Ends,
    fault: TallyFileFault,
) -> Result<String, AllocError>
    ensures { IfOk result (λ s. NamesPath path.now (string_bytes s)) }
{
    match ends {
        Ends::Empty => whole_line(alloc, path, "is empty, which is not a tally"),
        Ends::Marked => whole_line(
            alloc,
            path,
            "begins with a byte order mark, so it is not a tally\n  save it as UTF-8 without the mark",
        ),
        _ => of_tally(alloc, path, ends, fault),
    }
}
