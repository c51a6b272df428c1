//! A log at the end of a file.
ghost use Rattle.std.specs.Prelude.{◌≡◌, ◌+◌, ◌<◌, [], true, false, None, IfOk, IfSome, OnOk, is_some, length};
ghost use Rattle.std.specs.Io.{WritesAtMost};
ghost use Rattle.flag_text.specs.Outlet.{is_fault};
ghost use Rattle.log_file.specs.File.{GrowsByTaken, IsLength, count_of};
ghost use Rattle.log_file.specs.Handed.{EndsWith, HandsTaken, handed_in};
ghost use Rattle.log_file.specs.Journal.{IsOpenedAnew, LeavesLines, Looked, left_after, lost_after};
ghost use Rattle.log_file.specs.Last.{AreLastLines};
ghost use Rattle.log_file.specs.Line.{EndsLine, lines_in};

use crate::fault::{LogFault, fault_of};
use crate::file::LogFile;
use crate::handed::Handed;
use crate::last::last_lines;
use crate::loss::Loss;
use crate::paths::LogPaths;
use crate::torn::cut_torn_line;
use crate::whole::lines_in;
use bytes::BytesMut;
use std::alloc::Global;
use std::io::{self, ErrorKind};
use std::mem;

/// A log at the end of a file. It is whole lines when it opens.
#[derive(Drop)]
pub struct Journal<F: LogFile> {
    file: F,
    /// How many bytes the file was left with.
    len: u64,
    /// How the file was lost, until its path is opened anew.
    lost: Option<Loss>,
    /// The last lines that the file had when the log was opened, until they are taken or the file is lost.
    last: Vec<u8>,
    /// What the file that is open was handed.
    handed: Handed,
    ghost is_there: { lost ≡ None → F.stands file ≡ true },
    ghost is_length: { lost ≡ None → ∥ IsLength len (F.bytes file) ∥₁ },
    ghost is_whole: { ∥ EndsLine last.items ∥₁ },
    ghost is_handed: { lost ≡ None → ∥ EndsWith (F.bytes file) (handed_in handed.writes.items) ∥₁ },
}

/// What a look for a log's file came to.
#[derive(Clone, Copy, Debug, PartialEq, Eq)]
pub enum Look {
    /// The file stands at its path, and is as long as it was left.
    Stands,
    /// It was lost, and its path is opened anew.
    Reopened(Loss),
    /// It was lost, and its path can't be opened.
    Lost(Loss, LogFault),
}

impl<F: LogFile + Drop> Journal<F> {
    /// Opens a log: of what the file has, the whole lines are left, and the last ones are read, so many of them, or all where there
    /// are fewer.
    #[tactic(auto, using(crate::proofs::Lengths::exact_length, crate::proofs::Lengths::left_ends))]
    pub fn open(alloc: Global, file: F, most: u64) -> Result<Journal<F>, LogFault>
        requires { F.stands file ≡ true }
        ensures path { IfOk result (λ j. F.path j.file ≡ F.path file) }
        ensures left { IfOk result (λ j. LeavesLines (F.bytes file) (F.bytes j.file)) }
        ensures last { IfOk result (λ j. IfSome (F.bytes j.file) (λ bs. AreLastLines most bs j.last.items)) }
        ensures stands { IfOk result (λ j. (j.lost ≡ None) × (F.stands j.file ≡ true)) }
        ensures handed { IfOk result (λ j. handed_in j.handed.writes.items ≡ []) }
    {
        let mut file = file;
        match left_lines(alloc, &mut file, most) {
            Ok((len, last)) => Ok(Journal {
                file,
                len,
                lost: None,
                last,
                handed: Handed::none(),
            }),
            Err(error) => Err(fault_of(&error)),
        }
    }
}

impl<F: LogFile> Journal<F> {
    /// Takes the last lines that the file had when the log was opened, which stand there. They are taken once.
    pub fn take_last(&mut self, alloc: Global) -> (BytesMut, Handed)
        ensures last { result.0.items ≡ self.old.last.items }
        ensures stand { handed_in result.1.writes.items ≡ self.old.last.items }
        ensures whole { ∥ EndsLine result.0.items ∥₁ }
        ensures taken { self.new.last.items ≡ [] }
        ensures file { self.new.file ≡ self.old.file }
        ensures lost { self.new.lost ≡ self.old.lost }
        ensures handed { self.new.handed ≡ self.old.handed }
    {
        let last = BytesMut::from_vec(mem::replace(&mut self.last, Vec::new(alloc)));
        let stand = Handed::none().and(&last, last.len());
        (last, stand)
    }

    /// What the file that is open was handed.
    pub fn handed(&self) -> &Handed
        ensures { result.now ≡ self.now.handed }
    {
        &self.handed
    }

    /// Begins anew with what the file that is open was handed: it has none of it from before.
    #[tactic(auto, using(crate::proofs::Handing::ends_none))]
    pub fn begin(&mut self)
        ensures handed { handed_in self.new.handed.writes.items ≡ [] }
        ensures file { self.new.file ≡ self.old.file }
        ensures lost { self.new.lost ≡ self.old.lost }
        ensures last { self.new.last ≡ self.old.last }
    {
        self.handed = Handed::none();
    }

    /// How many last lines of the file are read, and not taken yet.
    pub fn lines_read(&self) -> u64
        ensures { result ≡ lines_in self.now.last.items }
    {
        lines_in(self.last.as_slice())
    }

    /// Whether the file is lost, and its path not opened anew yet.
    pub fn is_lost(&self) -> bool
        ensures lost { result ≡ is_some self.now.lost }
        ensures none { result ≡ false → self.now.lost ≡ None }
        ensures stands { result ≡ false → F.stands self.now.file ≡ true }
    {
        self.lost.is_some()
    }

    /// Adds a front of `buf` to the end of the file, and says of how many bytes. A file that is lost is added nothing.
    #[tactic(auto, using(crate::proofs::Lengths::grown_length, crate::proofs::Lengths::same_length, crate::proofs::Handing::ends_more, crate::proofs::Handing::ends_same))]
    pub fn append(&mut self, buf: &BytesMut) -> io::Result<usize>
        ensures bound { WritesAtMost result buf.now.items }
        ensures bytes { GrowsByTaken (F.bytes self.old.file) (F.bytes self.new.file) result buf.now.items }
        ensures handed { HandsTaken self.old.handed.writes.items self.new.handed.writes.items result buf.now.items }
        ensures stands { IfOk result (λ _. F.stands self.new.file ≡ true) }
        ensures lost { self.new.lost ≡ self.old.lost }
        ensures path { F.path self.new.file ≡ F.path self.old.file }
        ensures looks { F.looks self.new.file ≡ F.looks self.old.file }
        ensures faults { self.old.lost ≡ None → F.faults self.new.file ≡ F.faults self.old.file + count_of (is_fault buf.now.items result) }
    {
        if self.lost.is_some() {
            return Err(ErrorKind::NotFound.into());
        }
        match self.file.append(buf.as_slice()) {
            Ok(count) => {
                self.len = self.len.saturating_add(count as u64);
                self.handed = self.handed.and(buf, count);
                Ok(count)
            }
            Err(error) => Err(error),
        }
    }

    /// Looks whether the file stands at its path, and is as long as it was left. Where it is not, the path is opened anew, and
    /// where that can't be done, at the next look.
    #[tactic(auto, using(crate::proofs::Lengths::same_length, crate::proofs::Handing::ends_same))]
    pub fn look<P: LogPaths>(&mut self, alloc: Global, paths: &P) -> Look
        ensures looked { Looked result (F.bytes self.old.file) (F.bytes self.new.file) (F.stands self.new.file) }
        ensures lost { self.new.lost ≡ lost_after result }
        ensures last { self.new.last.items ≡ left_after result self.old.last.items }
        ensures handed { handed_in self.new.handed.writes.items ≡ left_after result (handed_in self.old.handed.writes.items) }
        ensures path { F.path self.new.file ≡ F.path self.old.file }
        ensures looks { F.looks self.old.file < F.looks self.new.file }
        ensures faults { F.faults self.new.file ≡ F.faults self.old.file }
    {
        if let Some(loss) = self.lost {
            return self.open_anew(alloc, paths, loss);
        }
        match self.file.look(paths, self.len) {
            Some(loss) => {
                self.lost = Some(loss);
                self.open_anew(alloc, paths, loss)
            }
            None => Look::Stands,
        }
    }

    /// Opens the path of a file that is lost anew. Where that can't be done, it stays lost.
    #[tactic(auto, using(crate::proofs::Lengths::exact_length, crate::proofs::LastLines::none_left, crate::proofs::Handing::ends_none))]
    fn open_anew<P: LogPaths>(&mut self, alloc: Global, paths: &P, loss: Loss) -> Look
        ensures reported { IsOpenedAnew loss result }
        ensures looked { Looked result (F.bytes self.old.file) (F.bytes self.new.file) (F.stands self.new.file) }
        ensures lost { self.new.lost ≡ lost_after result }
        ensures last { self.new.last.items ≡ left_after result self.old.last.items }
        ensures handed { handed_in self.new.handed.writes.items ≡ left_after result (handed_in self.old.handed.writes.items) }
        ensures path { F.path self.new.file ≡ F.path self.old.file }
        ensures looks { F.looks self.old.file < F.looks self.new.file }
        ensures faults { F.faults self.new.file ≡ F.faults self.old.file }
    {
        self.lost = Some(loss);
        self.last.clear();
        self.handed = Handed::none();
        match reopened(alloc, paths, &mut self.file) {
            Ok(len) => {
                self.len = len;
                self.lost = None;
                Look::Reopened(loss)
            }
            Err(fault) => Look::Lost(loss, fault),
        }
    }
}

/// Cuts off a last line without its end, and says how many bytes are left, and what the last lines of them are.
#[tactic(auto, using(crate::proofs::Lengths::left_ends))]
fn left_lines<F: LogFile>(alloc: Global, file: &mut F, most: u64) -> io::Result<(u64, Vec<u8>)>
    ensures left { OnOk result (LeavesLines (F.bytes file.old) (F.bytes file.new)) }
    ensures length { IfOk result (λ r. IfSome (F.bytes file.new) (λ bs. r.0 ≡ length bs)) }
    ensures whole { IfOk result (λ r. EndsLine r.1.items) }
    ensures last { IfOk result (λ r. IfSome (F.bytes file.new) (λ bs. AreLastLines most bs r.1.items)) }
    ensures stands { F.stands file.new ≡ F.stands file.old }
    ensures path { F.path file.new ≡ F.path file.old }
{
    let len = cut_torn_line(alloc, file)?;
    let last = last_lines(alloc, file, len, most)?;
    Ok((len, last))
}

/// Opens the path of a file anew, cuts off a last line without its end, and says how many bytes are left.
#[tactic(auto, using(crate::proofs::Lengths::left_ends))]
fn reopened<F: LogFile, P: LogPaths>(
    alloc: Global,
    paths: &P,
    file: &mut F,
) -> Result<u64, LogFault>
    ensures length { IfOk result (λ n. IfSome (F.bytes file.new) (λ bs. n ≡ length bs)) }
    ensures stands { OnOk result ((F.stands file.new ≡ true) × IfSome (F.bytes file.new) EndsLine) }
    ensures path { F.path file.new ≡ F.path file.old }
    ensures looks { F.looks file.new ≡ F.looks file.old + 1 }
    ensures faults { F.faults file.new ≡ F.faults file.old }
{
    file.reopen(paths)?;
    match cut_torn_line(alloc, file) {
        Ok(len) => Ok(len),
        Err(error) => Err(fault_of(&error)),
    }
}
